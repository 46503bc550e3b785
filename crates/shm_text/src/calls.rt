//! The calls of a line: a word, and the operands that follow it.
ghost use Rattle.std.specs.Prelude.{◌≡◌, ◌≤◌, ◌<◌, ◌+◌, length, take, drop, true, IfOk, OnOk};
ghost use Rattle.shm_text.specs.Form.{is_id, is_call, has_answer, is_answer_taken};
ghost use Rattle.shm_text.specs.Calls.{verb_of, access_verb_of, mapping_verb_of, control_verb_of, process_verb_of, operands, may_be_taken, id_operand, addr_operand, shmget_call, shmat_call, xadd_call, load_call, store_call, swap_call, cas_call, within_variable, as_many, munmap_call, mprotect_call, set_call, fork_call, setuid_call, swapoff_call, call_by, place_of, call_words};

use crate::fault::FaultKind;
use crate::operand::{
    addr_word, at_flags_word, chunk_word, get_flags_word, id_word, key_word, mode_word,
    protection_word, ranged, ranged_addr, ranged_id, required_number, short_word, within_64_bits,
};
use crate::script::{LineAddr, LineCall, LineId};
use crate::words::{Words, is_word};
use shm_base::{AccessLen, Call, LAST_PID, LONGEST_ACCESS, MOST_AREAS};

/// The number of the last swap area that a machine can have.
const LAST_AREA: u32 = MOST_AREAS as u32 - 1;

/// The word of a call.
#[derive(Clone, Copy)]
pub(crate) enum Verb {
    Shmget,
    Shmat,
    Xadd,
    Load,
    Store,
    Swap,
    Cas,
    Shmdt,
    Munmap,
    Mprotect,
    Stat,
    Set,
    Rmid,
    Lock,
    Unlock,
    Fork,
    Exec,
    Exit,
    Setuid,
    Swapoff,
}

impl Verb {
    #[tactic(auto, unfolding(crate::specs::Calls::verb_of))]
    fn of(word: &[u8]) -> Option<Verb>
        ensures { result ≡ verb_of word.now }
    {
        if is_word(word, b"shmget") {
            Some(Verb::Shmget)
        } else if is_word(word, b"shmat") {
            Some(Verb::Shmat)
        } else if is_word(word, b"xadd") {
            Some(Verb::Xadd)
        } else {
            Verb::of_access(word)
        }
    }

    // The words of accesses, or those tried after them.
    #[tactic(auto, unfolding(crate::specs::Calls::access_verb_of))]
    fn of_access(word: &[u8]) -> Option<Verb>
        ensures { result ≡ access_verb_of word.now }
    {
        if is_word(word, b"load") {
            Some(Verb::Load)
        } else if is_word(word, b"store") {
            Some(Verb::Store)
        } else if is_word(word, b"swap") {
            Some(Verb::Swap)
        } else if is_word(word, b"cas") {
            Some(Verb::Cas)
        } else {
            Verb::of_mapping(word)
        }
    }

    // The words of calls that unmap or protect, or those tried after them.
    #[tactic(auto, unfolding(crate::specs::Calls::mapping_verb_of))]
    fn of_mapping(word: &[u8]) -> Option<Verb>
        ensures { result ≡ mapping_verb_of word.now }
    {
        if is_word(word, b"shmdt") {
            Some(Verb::Shmdt)
        } else if is_word(word, b"munmap") {
            Some(Verb::Munmap)
        } else if is_word(word, b"mprotect") {
            Some(Verb::Mprotect)
        } else {
            Verb::of_control(word)
        }
    }

    // The words of shmctl(2), or those tried after them.
    #[tactic(auto, unfolding(crate::specs::Calls::control_verb_of))]
    fn of_control(word: &[u8]) -> Option<Verb>
        ensures { result ≡ control_verb_of word.now }
    {
        if is_word(word, b"stat") {
            Some(Verb::Stat)
        } else if is_word(word, b"set") {
            Some(Verb::Set)
        } else if is_word(word, b"rmid") {
            Some(Verb::Rmid)
        } else if is_word(word, b"lock") {
            Some(Verb::Lock)
        } else if is_word(word, b"unlock") {
            Some(Verb::Unlock)
        } else {
            Verb::of_process(word)
        }
    }

    // The words of calls that name no segment.
    #[tactic(auto, unfolding(crate::specs::Calls::process_verb_of))]
    fn of_process(word: &[u8]) -> Option<Verb>
        ensures { result ≡ process_verb_of word.now }
    {
        if is_word(word, b"fork") {
            Some(Verb::Fork)
        } else if is_word(word, b"exec") {
            Some(Verb::Exec)
        } else if is_word(word, b"exit") {
            Some(Verb::Exit)
        } else if is_word(word, b"setuid") {
            Some(Verb::Setuid)
        } else if is_word(word, b"swapoff") {
            Some(Verb::Swapoff)
        } else {
            None
        }
    }

    // How many operands follow the word.
    fn operands(self) -> usize
        ensures { result ≡ operands self }
    {
        match self {
            Verb::Exec | Verb::Exit => 0,
            Verb::Shmdt
            | Verb::Stat
            | Verb::Rmid
            | Verb::Lock
            | Verb::Unlock
            | Verb::Fork
            | Verb::Swapoff => 1,
            Verb::Xadd | Verb::Load | Verb::Store | Verb::Swap | Verb::Munmap | Verb::Setuid => 2,
            Verb::Shmget | Verb::Shmat | Verb::Cas | Verb::Mprotect => 3,
            Verb::Set => 4,
        }
    }

    // Whether a variable and `=` may precede it.
    fn may_be_taken(self) -> bool
        ensures { result ≡ may_be_taken self }
    {
        matches!(
            self,
            Verb::Shmget | Verb::Shmat | Verb::Xadd | Verb::Swap | Verb::Cas
        )
    }
}

fn id_operand(words: &Words<'_>, index: usize) -> Result<LineId, FaultKind>
    requires { index < length words.now }
    ensures value { result ≡ id_operand words.now index }
    ensures form { IfOk result (λ id. is_id id ≡ true) }
{
    let id = id_word(words.at(index))?;
    ranged_id(id)
}

fn addr_operand(words: &Words<'_>, index: usize) -> Result<LineAddr, FaultKind>
    requires { index < length words.now }
    ensures { result ≡ addr_operand words.now index }
{
    let addr = addr_word(words.at(index))?;
    ranged_addr(addr)
}

// The first three bytes of a word: those that have to be a mode.
fn mode_part(word: &[u8]) -> &[u8]
    ensures { result.now ≡ take 3 word.now }
{
    &word[..word.len().min(3)]
}

// The part of a word after its mode.
fn flags_part(word: &[u8]) -> &[u8]
    ensures { result.now ≡ drop 3 word.now }
{
    &word[word.len().min(3)..]
}

#[tactic(auto, unfolding(crate::specs::Calls::shmget_call))]
fn shmget_call(words: &Words<'_>, index: usize) -> Result<LineCall, FaultKind>
    requires small { index ≤ 4 }
    requires words { index + 3 ≡ length words.now }
    ensures value { result ≡ shmget_call words.now index }
    ensures form { IfOk result (λ c. is_call c ≡ true) }
    ensures answer { IfOk result (λ c. has_answer c ≡ true) }
{
    let key = key_word(words.at(index))?;
    let size = required_number(words.at(index + 1))?;
    let mode = mode_word(mode_part(words.at(index + 2)))?;
    let flags = get_flags_word(flags_part(words.at(index + 2)))?;
    let key = ranged(key, 0, u32::MAX)?;
    let size = within_64_bits(size)?;
    Ok(Call::Shmget {
        key,
        size,
        mode,
        flags,
    })
}

#[tactic(auto, unfolding(crate::specs::Calls::shmat_call))]
fn shmat_call(words: &Words<'_>, index: usize) -> Result<LineCall, FaultKind>
    requires small { index ≤ 4 }
    requires words { index + 3 ≡ length words.now }
    ensures value { result ≡ shmat_call words.now index }
    ensures form { IfOk result (λ c. is_call c ≡ true) }
    ensures answer { IfOk result (λ c. has_answer c ≡ true) }
{
    let id = id_word(words.at(index))?;
    let addr = addr_word(words.at(index + 1))?;
    let flags = at_flags_word(words.at(index + 2))?;
    let id = ranged_id(id)?;
    let addr = ranged_addr(addr)?;
    Ok(Call::Shmat { id, addr, flags })
}

#[tactic(auto, unfolding(crate::specs::Calls::xadd_call))]
fn xadd_call(words: &Words<'_>, index: usize) -> Result<LineCall, FaultKind>
    requires small { index ≤ 4 }
    requires words { index + 2 ≡ length words.now }
    ensures value { result ≡ xadd_call words.now index }
    ensures form { IfOk result (λ c. is_call c ≡ true) }
    ensures answer { IfOk result (λ c. has_answer c ≡ true) }
{
    let addr = addr_word(words.at(index))?;
    let add = required_number(words.at(index + 1))?;
    let addr = ranged_addr(addr)?;
    let add = within_64_bits(add)?;
    Ok(Call::Xadd { addr, add })
}

// The number of bytes of an access.
fn access_len(len: u32) -> AccessLen
    requires { (1 ≤ len) × (len ≤ 64) }
    ensures { result ≡ len }
{
    AccessLen::new(len as u64).unwrap()
}

#[tactic(auto, unfolding(crate::specs::Calls::load_call))]
fn load_call(words: &Words<'_>, index: usize) -> Result<LineCall, FaultKind>
    requires small { index ≤ 4 }
    requires words { index + 2 ≡ length words.now }
    ensures value { result ≡ load_call words.now index }
    ensures form { IfOk result (λ c. is_call c ≡ true) }
{
    let addr = addr_word(words.at(index))?;
    let len = required_number(words.at(index + 1))?;
    let addr = ranged_addr(addr)?;
    let len = ranged(len, 1, LONGEST_ACCESS as u32)?;
    Ok(Call::Load {
        addr,
        len: access_len(len),
    })
}

// Kept out of line: the compiler would move the bytes one by one to join them with the other calls' fields.
#[inline(never)]
#[tactic(auto, unfolding(crate::specs::Calls::store_call))]
fn store_call(words: &Words<'_>, index: usize) -> Result<LineCall, FaultKind>
    requires small { index ≤ 4 }
    requires words { index + 2 ≡ length words.now }
    ensures value { result ≡ store_call words.now index }
    ensures form { IfOk result (λ c. is_call c ≡ true) }
{
    let addr = addr_word(words.at(index))?;
    let chunk = chunk_word(words.at(index + 1))?;
    let addr = ranged_addr(addr)?;
    Ok(Call::Store { chunk, addr })
}

// A variable takes at most eight bytes.
fn within_variable(taken: bool, bytes: &[u8]) -> Result<(), FaultKind>
    ensures value { result ≡ within_variable taken bytes.now }
    ensures fits { OnOk result (taken ≡ true → length bytes.now ≤ 8) }
{
    if taken && bytes.len() > 8 {
        return Err(FaultKind::TooWide);
    }
    Ok(())
}

// Kept out of line, as a store is.
#[inline(never)]
#[tactic(auto, unfolding(crate::specs::Calls::swap_call))]
fn swap_call(taken: bool, words: &Words<'_>, index: usize) -> Result<LineCall, FaultKind>
    requires small { index ≤ 4 }
    requires words { index + 2 ≡ length words.now }
    ensures value { result ≡ swap_call taken words.now index }
    ensures form { IfOk result (λ c. is_call c ≡ true) }
    ensures answer { taken ≡ true → IfOk result (λ c. has_answer c ≡ true) }
{
    let addr = addr_word(words.at(index))?;
    let chunk = chunk_word(words.at(index + 1))?;
    within_variable(taken, chunk.as_slice())?;
    let addr = ranged_addr(addr)?;
    Ok(Call::Exchange { chunk, addr })
}

// The desired bytes have to be as many as the expected ones.
fn as_many(expected: &[u8], desired: &[u8]) -> Result<(), FaultKind>
    ensures value { result ≡ as_many expected.now desired.now }
    ensures same { OnOk result (length expected.now ≡ length desired.now) }
{
    if expected.len() != desired.len() {
        return Err(FaultKind::LengthsDiffer);
    }
    Ok(())
}

// Kept out of line, as a store is.
#[inline(never)]
#[tactic(auto, unfolding(crate::specs::Calls::cas_call))]
fn cas_call(taken: bool, words: &Words<'_>, index: usize) -> Result<LineCall, FaultKind>
    requires small { index ≤ 4 }
    requires words { index + 3 ≡ length words.now }
    ensures value { result ≡ cas_call taken words.now index }
    ensures form { IfOk result (λ c. is_call c ≡ true) }
    ensures answer { taken ≡ true → IfOk result (λ c. has_answer c ≡ true) }
{
    let addr = addr_word(words.at(index))?;
    let expected = short_word(words.at(index + 1))?;
    let desired = short_word(words.at(index + 2))?;
    as_many(expected.as_slice(), desired.as_slice())?;
    within_variable(taken, desired.as_slice())?;
    let addr = ranged_addr(addr)?;
    Ok(Call::CompareExchange {
        expected,
        desired,
        addr,
    })
}

#[tactic(auto, unfolding(crate::specs::Calls::munmap_call))]
fn munmap_call(words: &Words<'_>, index: usize) -> Result<LineCall, FaultKind>
    requires small { index ≤ 4 }
    requires words { index + 2 ≡ length words.now }
    ensures value { result ≡ munmap_call words.now index }
    ensures form { IfOk result (λ c. is_call c ≡ true) }
{
    let addr = addr_word(words.at(index))?;
    let len = required_number(words.at(index + 1))?;
    let addr = ranged_addr(addr)?;
    let len = within_64_bits(len)?;
    Ok(Call::Munmap { addr, len })
}

#[tactic(auto, unfolding(crate::specs::Calls::mprotect_call))]
fn mprotect_call(words: &Words<'_>, index: usize) -> Result<LineCall, FaultKind>
    requires small { index ≤ 4 }
    requires words { index + 3 ≡ length words.now }
    ensures value { result ≡ mprotect_call words.now index }
    ensures form { IfOk result (λ c. is_call c ≡ true) }
{
    let addr = addr_word(words.at(index))?;
    let len = required_number(words.at(index + 1))?;
    let writable = protection_word(words.at(index + 2))?;
    let addr = ranged_addr(addr)?;
    let len = within_64_bits(len)?;
    Ok(Call::Mprotect {
        addr,
        len,
        writable,
    })
}

#[tactic(auto, unfolding(crate::specs::Calls::set_call))]
fn set_call(words: &Words<'_>, index: usize) -> Result<LineCall, FaultKind>
    requires small { index ≤ 4 }
    requires words { index + 4 ≡ length words.now }
    ensures value { result ≡ set_call words.now index }
    ensures form { IfOk result (λ c. is_call c ≡ true) }
{
    let id = id_word(words.at(index))?;
    let uid = required_number(words.at(index + 1))?;
    let gid = required_number(words.at(index + 2))?;
    let mode = mode_word(words.at(index + 3))?;
    let id = ranged_id(id)?;
    let uid = ranged(uid, 0, u32::MAX)?;
    let gid = ranged(gid, 0, u32::MAX)?;
    Ok(Call::Set { id, uid, gid, mode })
}

#[tactic(auto, unfolding(crate::specs::Calls::fork_call))]
fn fork_call(words: &Words<'_>, index: usize) -> Result<LineCall, FaultKind>
    requires { index < length words.now }
    ensures value { result ≡ fork_call words.now index }
    ensures form { IfOk result (λ c. is_call c ≡ true) }
{
    let child = required_number(words.at(index))?;
    let child = ranged(child, 1, LAST_PID)?;
    Ok(Call::Fork { child })
}

#[tactic(auto, unfolding(crate::specs::Calls::setuid_call))]
fn setuid_call(words: &Words<'_>, index: usize) -> Result<LineCall, FaultKind>
    requires small { index ≤ 4 }
    requires words { index + 2 ≡ length words.now }
    ensures value { result ≡ setuid_call words.now index }
    ensures form { IfOk result (λ c. is_call c ≡ true) }
{
    let uid = required_number(words.at(index))?;
    let gid = required_number(words.at(index + 1))?;
    let uid = ranged(uid, 0, u32::MAX)?;
    let gid = ranged(gid, 0, u32::MAX)?;
    Ok(Call::Setuid { uid, gid })
}

#[tactic(auto, unfolding(crate::specs::Calls::swapoff_call))]
fn swapoff_call(words: &Words<'_>, index: usize) -> Result<LineCall, FaultKind>
    requires { index < length words.now }
    ensures value { result ≡ swapoff_call words.now index }
    ensures form { IfOk result (λ c. is_call c ≡ true) }
{
    let area = required_number(words.at(index))?;
    let area = ranged(area, 0, LAST_AREA)?;
    Ok(Call::Swapoff { area })
}

// The call of a word. Its operands begin at an index and end the line; `taken` says that a variable takes
// the answer.
fn call_by(verb: Verb, taken: bool, words: &Words<'_>, index: usize) -> Result<LineCall, FaultKind>
    requires small { index ≤ 4 }
    requires words { index + operands verb ≡ length words.now }
    ensures value { result ≡ call_by verb taken words.now index }
    ensures form { IfOk result (λ c. is_call c ≡ true) }
    ensures answer { taken ≡ true → may_be_taken verb ≡ true → IfOk result (λ c. has_answer c ≡ true) }
{
    match verb {
        Verb::Shmget => shmget_call(words, index),
        Verb::Shmat => shmat_call(words, index),
        Verb::Xadd => xadd_call(words, index),
        Verb::Load => load_call(words, index),
        Verb::Store => store_call(words, index),
        Verb::Swap => swap_call(taken, words, index),
        Verb::Cas => cas_call(taken, words, index),
        Verb::Munmap => munmap_call(words, index),
        Verb::Mprotect => mprotect_call(words, index),
        Verb::Set => set_call(words, index),
        Verb::Fork => fork_call(words, index),
        Verb::Setuid => setuid_call(words, index),
        Verb::Swapoff => swapoff_call(words, index),
        Verb::Shmdt => addr_operand(words, index).map(|addr| Call::Shmdt { addr }),
        Verb::Stat => id_operand(words, index).map(|id| Call::Stat { id }),
        Verb::Rmid => id_operand(words, index).map(|id| Call::Rmid { id }),
        Verb::Lock => id_operand(words, index).map(|id| Call::Lock { id }),
        Verb::Unlock => id_operand(words, index).map(|id| Call::Unlock { id }),
        Verb::Exec => Ok(Call::Exec),
        Verb::Exit => Ok(Call::Exit),
    }
}

// The index of a call's word: it follows the pid, or a variable and `=`.
fn place_of(taken: bool) -> usize
    ensures value { result ≡ place_of taken }
    ensures small { result ≤ 3 }
{
    if taken { 3 } else { 1 }
}

/// The call of a line; `taken` says that a variable takes its answer. The operands end the line.
#[tactic(auto, unfolding(crate::specs::Calls::call_words))]
pub(crate) fn call_words(words: &Words<'_>, taken: bool) -> Result<LineCall, FaultKind>
    ensures value { result ≡ call_words words.now taken }
    ensures form { IfOk result (λ c. is_call c ≡ true) }
    ensures answer { IfOk result (λ c. is_answer_taken taken c ≡ true) }
{
    let place = place_of(taken);
    if words.len() <= place {
        return Err(FaultKind::BadLine);
    }
    let Some(verb) = Verb::of(words.at(place)) else {
        return Err(FaultKind::BadLine);
    };
    if (taken && !verb.may_be_taken()) || words.len() != place + 1 + verb.operands() {
        return Err(FaultKind::BadLine);
    }
    call_by(verb, taken, words, place + 1)
}

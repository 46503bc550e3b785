//! The operands of a line: one word each. Words that can't be read make a bad line; ranges are tested
//! afterwards, so a bad line is reported before a bad number.
ghost use Rattle.std.specs.Prelude.{◌≡◌, ◌≤◌, ◌<◌, ◌==◌, true, length, drop, Ok, IfOk, Some};
ghost use Rattle.shm_text.specs.Operand.{required_number, ranged, within_64_bits, key_word, letter_of, addr_by, id_word, addr_word, ranged_id, ranged_addr, mode_word, protection_word, get_flags_word, names_of, times, at_flags_word, bytes_word, chunk_word, short_word};
ghost use Rattle.shm_text.specs.Form.{is_id, is_get_flags, is_at_flags};

use crate::fault::FaultKind;
use crate::number::{Number, read_number};
use crate::script::{LineAddr, LineId, Variable};
use crate::words::is_word;
use bitflags::Flags;
use shm_base::{AccessBytes, AtFlags, Chunk, GetFlags, LAST_ID, Word};

/// An identifier before its range is tested.
#[derive(Clone, Copy)]
pub(crate) enum IdWord {
    Literal(Number),
    Letter(Variable),
}

/// An address before its range is tested.
#[derive(Clone, Copy)]
pub(crate) enum AddrWord {
    Literal(Number),
    Letter(Variable),
    LetterPlus(Variable, Number),
}

/// A word that has to be a number.
#[inline(always)]
pub(crate) fn required_number(word: &[u8]) -> Result<Number, FaultKind>
    ensures { result ≡ required_number word.now }
{
    read_number(word).ok_or(FaultKind::BadLine)
}

/// A number within its range.
pub(crate) fn ranged(number: Number, low: u32, high: u32) -> Result<u32, FaultKind>
    ensures value { result ≡ ranged low high number }
    ensures range { IfOk result (λ n. (low ≤ n) × (n ≤ high)) }
{
    match number {
        Number::Fits(n) if (low as u64) <= n && n <= (high as u64) => Ok(n as u32),
        _ => Err(FaultKind::BadNumber),
    }
}

/// A number of 64 bits.
pub(crate) fn within_64_bits(number: Number) -> Result<u64, FaultKind>
    ensures { result ≡ within_64_bits number }
{
    match number {
        Number::Fits(n) => Ok(n),
        Number::TooLarge => Err(FaultKind::BadNumber),
    }
}

/// A word that has to be a key.
pub(crate) fn key_word(word: &[u8]) -> Result<Number, FaultKind>
    ensures { result ≡ key_word word.now }
{
    if is_word(word, b"private") {
        return Ok(Number::Fits(0));
    }
    required_number(word)
}

/// The variable of a word's first letter.
pub(crate) fn first_letter(word: &[u8]) -> Option<Variable>
    ensures { result ≡ letter_of word.now }
{
    Variable::new(*word.first()?)
}

/// A word that has to be an identifier.
pub(crate) fn id_word(word: &[u8]) -> Result<IdWord, FaultKind>
    ensures { result ≡ id_word word.now }
{
    match first_letter(word) {
        Some(var) if word.len() == 1 => Ok(IdWord::Letter(var)),
        Some(_) => Err(FaultKind::BadLine),
        None => {
            let number = required_number(word)?;
            Ok(IdWord::Literal(number))
        }
    }
}

pub(crate) fn ranged_id(word: IdWord) -> Result<LineId, FaultKind>
    ensures value { result ≡ ranged_id word }
    ensures form { IfOk result (λ id. is_id id ≡ true) }
{
    match word {
        IdWord::Literal(number) => {
            let number = ranged(number, 0, LAST_ID)?;
            Ok(LineId::Number(number))
        }
        IdWord::Letter(var) => Ok(LineId::Var(var)),
    }
}

// The word without its first two bytes.
fn behind_sign(word: &[u8]) -> &[u8]
    requires { 2 ≤ length word.now }
    ensures { result.now ≡ drop 2 word.now }
{
    &word[2..]
}

// An address that begins with a letter: a variable, or a variable and a number after `+`.
fn letter_addr(var: Variable, word: &[u8]) -> Result<AddrWord, FaultKind>
    requires { 0 < length word.now }
    ensures { result ≡ addr_by word.now (Some var) }
{
    if word.len() == 1 {
        return Ok(AddrWord::Letter(var));
    }
    if word[1] != b'+' {
        return Err(FaultKind::BadLine);
    }
    let number = required_number(behind_sign(word))?;
    Ok(AddrWord::LetterPlus(var, number))
}

/// A word that has to be an address.
#[inline(always)]
pub(crate) fn addr_word(word: &[u8]) -> Result<AddrWord, FaultKind>
    ensures { result ≡ addr_word word.now }
{
    if is_word(word, b"null") {
        return Ok(AddrWord::Literal(Number::Fits(0)));
    }
    match first_letter(word) {
        Some(var) => letter_addr(var, word),
        None => {
            let number = required_number(word)?;
            Ok(AddrWord::Literal(number))
        }
    }
}

#[inline(always)]
pub(crate) fn ranged_addr(word: AddrWord) -> Result<LineAddr, FaultKind>
    ensures { result ≡ ranged_addr word }
{
    match word {
        AddrWord::Literal(number) => {
            let number = within_64_bits(number)?;
            Ok(LineAddr::Number(number))
        }
        AddrWord::Letter(var) => Ok(LineAddr::Var(var)),
        AddrWord::LetterPlus(var, number) => {
            let number = within_64_bits(number)?;
            Ok(LineAddr::Sum(var, number))
        }
    }
}

/// Three octal digits.
pub(crate) fn mode_word(word: &[u8]) -> Result<u16, FaultKind>
    ensures value { result ≡ mode_word word.now }
    ensures range { IfOk result (λ m. m < 512) }
{
    match word {
        [high @ b'0'..=b'7', middle @ b'0'..=b'7', low @ b'0'..=b'7'] => {
            Ok((*high - b'0') as u16 * 64 + (*middle - b'0') as u16 * 8 + (*low - b'0') as u16)
        }
        _ => Err(FaultKind::BadLine),
    }
}

/// Whether pages become writable: `rw`, or `ro`.
pub(crate) fn protection_word(word: &[u8]) -> Result<bool, FaultKind>
    ensures { result ≡ protection_word word.now }
{
    if is_word(word, b"rw") {
        Ok(true)
    } else if is_word(word, b"ro") {
        Ok(false)
    } else {
        Err(FaultKind::BadLine)
    }
}

/// The flags of shmget after a mode: each at most once, and after a comma.
#[tactic(auto, unfolding(bitflags::proofs::OnLiterals::bitflags_on_literals))]
pub(crate) fn get_flags_word(word: &[u8]) -> Result<GetFlags, FaultKind>
    ensures value { result ≡ get_flags_word word.now }
    ensures form { IfOk result (λ flags. is_get_flags flags ≡ true) }
{
    if word.is_empty() {
        Ok(GetFlags::empty())
    } else if is_word(word, b",creat") {
        Ok(GetFlags::CREAT)
    } else if is_word(word, b",excl") {
        Ok(GetFlags::EXCL)
    } else if is_word(word, b",creat,excl") || is_word(word, b",excl,creat") {
        Ok(GetFlags::CREAT.union(GetFlags::EXCL))
    } else {
        Err(FaultKind::BadLine)
    }
}

// How many names a comma-separated list has.
pub(crate) fn names(word: &[u8]) -> usize
    ensures { result ≡ length (names_of word.now) }
{
    word.split(|b| *b == b',').count()
}

// How often a comma-separated list has a name.
pub(crate) fn times(word: &[u8], name: &[u8]) -> usize
    ensures { result ≡ times word.now name.now }
{
    word.split(|b| *b == b',').filter(|n| *n == name).count()
}

/// A word that has to be flags of shmat: `-`, or a list of names with each at most once.
pub(crate) fn at_flags_word(word: &[u8]) -> Result<AtFlags, FaultKind>
    ensures value { result ≡ at_flags_word word.now }
    ensures form { IfOk result (λ flags. is_at_flags flags ≡ true) }
{
    if is_word(word, b"-") {
        return Ok(AtFlags::empty());
    }
    let rdonly = times(word, b"rdonly");
    let rnd = times(word, b"rnd");
    let remap = times(word, b"remap");
    if rdonly > 1 || rnd > 1 || remap > 1 || rdonly + rnd + remap != names(word) {
        return Err(FaultKind::BadLine);
    }
    let mut flags = AtFlags::empty();
    if rdonly == 1 {
        flags.insert(AtFlags::RDONLY);
    }
    if rnd == 1 {
        flags.insert(AtFlags::RND);
    }
    if remap == 1 {
        flags.insert(AtFlags::REMAP);
    }
    Ok(flags)
}

// 1 to `N` bytes in hexadecimal digits of either case.
fn bytes_word<const N: usize>(word: &[u8]) -> Result<AccessBytes<N>, FaultKind>
    requires { N ≤ 64 }
    ensures { result ≡ bytes_word N word.now }
{
    if word.len() < 2 || word.len() > 2 * N {
        return Err(FaultKind::BadLine);
    }
    let mut room = [0u8; N];
    let bytes = &mut room[..word.len() / 2];
    if hex::decode_to_slice(word, bytes).is_err() {
        return Err(FaultKind::BadLine);
    }
    Ok(AccessBytes::new(bytes).unwrap())
}

/// The bytes of a store or an exchange.
pub(crate) fn chunk_word(word: &[u8]) -> Result<Chunk, FaultKind>
    ensures { result ≡ chunk_word word.now }
{
    bytes_word(word)
}

/// An operand of a compare and exchange.
pub(crate) fn short_word(word: &[u8]) -> Result<Word, FaultKind>
    ensures { result ≡ short_word word.now }
{
    bytes_word(word)
}

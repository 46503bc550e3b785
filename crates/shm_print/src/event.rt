//! The printed text of events and replies.
ghost use Rattle.std.specs.Prelude.{◌≡◌, ◌≤◌, ◌++◌, length, IfOk, OnOk, string_bytes, decimal, codes};
ghost use Rattle.std.specs.Fmt.{signed_decimal};
ghost use Rattle.hex.specs.Hex.{encode_lower};
ghost use Rattle.shm_print.specs.Text as printed;

use crate::digits::push_digits;
use crate::words::{AtWord, GetWord, Key, Octal, StatusWord};
use itoa::Buffer;
use shm_base::{Call, Event, Perm, Reply, ShmId, ShmidDs};
use std::alloc::{AllocError, Global};

// Appends a number in decimal to a text.
fn push_number(text: &mut String, number: u64) -> Result<(), AllocError>
    ensures { OnOk result (string_bytes text.new ≡ string_bytes text.old ++ decimal number) }
{
    text.push_str(Buffer::new().format(number))
}

// Appends an address to a text.
fn push_address(text: &mut String, addr: u64) -> Result<(), AllocError>
    ensures { OnOk result (string_bytes text.new ≡ string_bytes text.old ++ printed.address_text addr) }
{
    if addr == 0 {
        return text.push_str("null");
    }
    text.push_str("0x")?;
    push_digits(text, addr)
}

// Appends bytes to a text, two digits each.
fn push_bytes(text: &mut String, bytes: &[u8]) -> Result<(), AllocError>
    requires { length bytes.now ≤ 64 }
    ensures { OnOk result (string_bytes text.new ≡ string_bytes text.old ++ encode_lower bytes.now) }
{
    let mut room = [0u8; 128];
    let digits = &mut room[..2 * bytes.len()];
    hex::encode_to_slice(bytes, digits).unwrap();
    text.push_str(str::from_utf8(digits).unwrap())
}

// Appends a space and bytes to a text.
fn push_operand(text: &mut String, bytes: &[u8]) -> Result<(), AllocError>
    requires { length bytes.now ≤ 64 }
    ensures { OnOk result (string_bytes text.new
        ≡ string_bytes text.old ++ (codes " " ++ encode_lower bytes.now)) }
{
    text.push_str(" ")?;
    push_bytes(text, bytes)
}

// Appends a word and an identifier to a text.
fn push_id(text: &mut String, word: &str, id: ShmId) -> Result<(), AllocError>
    ensures { OnOk result (string_bytes text.new ≡ string_bytes text.old ++ (word.now ++ signed_decimal id)) }
{
    write!(text, "{word}{id}")
}

// Appends a word and an address to a text.
fn push_at(text: &mut String, word: &str, addr: u64) -> Result<(), AllocError>
    ensures { OnOk result (string_bytes text.new
        ≡ string_bytes text.old ++ (word.now ++ printed.address_text addr)) }
{
    text.push_str(word)?;
    push_address(text, addr)
}

// Appends a word and a number to a text.
fn push_counted(text: &mut String, word: &str, number: u64) -> Result<(), AllocError>
    ensures { OnOk result (string_bytes text.new ≡ string_bytes text.old ++ (word.now ++ decimal number)) }
{
    text.push_str(word)?;
    push_number(text, number)
}

// Appends a word, an address and a number to a text.
fn push_at_number(text: &mut String, word: &str, addr: u64, number: u64) -> Result<(), AllocError>
    ensures { OnOk result (string_bytes text.new
        ≡ string_bytes text.old ++ (word.now ++ printed.at_number_text addr number)) }
{
    push_at(text, word, addr)?;
    push_counted(text, " ", number)
}

// Appends a word, an address and bytes to a text.
fn push_at_bytes(text: &mut String, word: &str, addr: u64, bytes: &[u8]) -> Result<(), AllocError>
    requires { length bytes.now ≤ 64 }
    ensures { OnOk result (string_bytes text.new
        ≡ string_bytes text.old ++ (word.now ++ printed.at_bytes_text addr bytes.now)) }
{
    push_at(text, word, addr)?;
    push_operand(text, bytes)
}

fn protection(writable: bool) -> &'static str
    ensures { result.now ≡ printed.protection_text writable }
{
    if writable { " rw" } else { " ro" }
}

// Appends the word and the arguments of a call to a text.
fn push_call(text: &mut String, call: &Call) -> Result<(), AllocError>
    ensures { OnOk result (string_bytes text.new ≡ string_bytes text.old ++ printed.call_text call.now) }
{
    match call {
        Call::Shmget {
            key,
            size,
            mode,
            flags,
        } => {
            let (key, mode, flags) = (Key(*key), Octal(*mode), GetWord(*flags));
            write!(text, "shmget {key} {size} {mode}{flags}")
        }
        Call::Shmat { id, addr, flags } => {
            let flags = AtWord(*flags);
            push_id(text, "shmat ", *id)?;
            push_at(text, " ", *addr)?;
            write!(text, " {flags}")
        }
        Call::Shmdt { addr } => push_at(text, "shmdt ", *addr),
        Call::Stat { id } => push_id(text, "stat ", *id),
        Call::Set { id, uid, gid, mode } => {
            let mode = Octal(*mode);
            write!(text, "set {id} {uid} {gid} {mode}")
        }
        Call::Rmid { id } => push_id(text, "rmid ", *id),
        Call::Lock { id } => push_id(text, "lock ", *id),
        Call::Unlock { id } => push_id(text, "unlock ", *id),
        Call::Load { addr, len } => push_at_number(text, "load ", *addr, len.get() as u64),
        Call::Store { addr, chunk } => push_at_bytes(text, "store ", *addr, chunk.as_slice()),
        Call::Xadd { addr, add } => push_at_number(text, "xadd ", *addr, *add),
        Call::Exchange { addr, chunk } => push_at_bytes(text, "swap ", *addr, chunk.as_slice()),
        Call::CompareExchange {
            expected,
            desired,
            addr,
        } => {
            push_at_bytes(text, "cas ", *addr, expected.as_slice())?;
            push_operand(text, desired.as_slice())
        }
        Call::Fork { child } => push_counted(text, "fork ", u64::from(*child)),
        Call::Exec => text.push_str("exec"),
        Call::Exit => text.push_str("exit"),
        Call::Swapoff { area } => push_counted(text, "swapoff ", u64::from(*area)),
        Call::Munmap { addr, len } => push_at_number(text, "munmap ", *addr, *len),
        Call::Mprotect {
            addr,
            len,
            writable,
        } => {
            push_at_number(text, "mprotect ", *addr, *len)?;
            text.push_str(protection(*writable))
        }
        Call::Setuid { uid, gid } => write!(text, "setuid {uid} {gid}"),
    }
}

fn push_perm(text: &mut String, perm: &Perm) -> Result<(), AllocError>
    ensures { OnOk result (string_bytes text.new ≡ string_bytes text.old ++ printed.perm_text perm.now) }
{
    let (uid, gid, cuid, cgid) = (perm.uid, perm.gid, perm.cuid, perm.cgid);
    let mode = Octal(perm.mode);
    write!(
        text,
        "uid={uid} gid={gid} cuid={cuid} cgid={cgid} mode={mode}"
    )
}

fn push_uses(text: &mut String, shown: &ShmidDs) -> Result<(), AllocError>
    ensures { OnOk result (string_bytes text.new ≡ string_bytes text.old ++ printed.use_text shown.now) }
{
    let (cpid, lpid, nattch) = (shown.cpid, shown.lpid, shown.nattch);
    write!(text, "cpid={cpid} lpid={lpid} nattch={nattch}")
}

/// Appends the fields of stat before its times. AllocError: the host refused memory, and the text may have a
/// part of them.
pub fn push_fields(text: &mut String, shown: &ShmidDs) -> Result<(), AllocError>
    ensures { OnOk result (string_bytes text.new ≡ string_bytes text.old ++ printed.fields_text shown.now) }
{
    let (key, status, size) = (Key(shown.key), StatusWord(shown.status), shown.size);
    write!(text, "key={key} ")?;
    push_perm(text, &shown.perm)?;
    write!(text, " status={status} size={size} ")?;
    push_uses(text, shown)
}

fn push_times(text: &mut String, shown: &ShmidDs) -> Result<(), AllocError>
    ensures { OnOk result (
        string_bytes text.new ≡ string_bytes text.old ++ printed.times_text decimal shown.now) }
{
    let (atime, dtime, ctime) = (shown.atime, shown.dtime, shown.ctime);
    write!(text, " atime={atime} dtime={dtime} ctime={ctime}")
}

fn push_stat(text: &mut String, shown: &ShmidDs) -> Result<(), AllocError>
    ensures { OnOk result (string_bytes text.new ≡ string_bytes text.old ++ printed.stat_text shown.now) }
{
    push_fields(text, shown)?;
    push_times(text, shown)
}

/// Appends a reply to a text: an identifier or a number in decimal, an address, bytes as hexadecimal digits,
/// the fields of stat, `ok`, or the name of a refusal. AllocError: the host refused memory.
pub fn push_reply(text: &mut String, reply: &Reply) -> Result<(), AllocError>
    ensures { OnOk result (string_bytes text.new ≡ string_bytes text.old ++ printed.reply_text reply.now) }
{
    match reply {
        Reply::Id(id) => write!(text, "{id}"),
        Reply::Addr(addr) => push_address(text, *addr),
        Reply::Bytes(chunk) => push_bytes(text, chunk.as_slice()),
        Reply::Number(number) => push_number(text, *number),
        Reply::Stat(shown) => push_stat(text, shown),
        Reply::Done => text.push_str("ok"),
        Reply::Refused(errno) => write!(text, "{errno}"),
    }
}

// Appends a process and a space to a text.
fn push_process(text: &mut String, pid: u32) -> Result<(), AllocError>
    ensures { OnOk result (string_bytes text.new ≡ string_bytes text.old ++ (decimal pid ++ codes " ")) }
{
    push_number(text, u64::from(pid))?;
    text.push_str(" ")
}

/// Appends the line of an event up to its reply: the process, the call and ` = `. AllocError: the host refused
/// memory, and the text may have a part of it.
pub fn push_asked(text: &mut String, event: &Event) -> Result<(), AllocError>
    ensures { OnOk result (string_bytes text.new ≡ string_bytes text.old ++ printed.asked_text event.now) }
{
    push_process(text, event.pid)?;
    push_call(text, &event.call)?;
    text.push_str(" = ")
}

/// Appends the line of an event to a text: its place in the history from 1, the process, the call and the
/// reply. AllocError: the host refused memory, and the text may have a part of the line.
pub fn push_event(text: &mut String, place: u64, event: &Event) -> Result<(), AllocError>
    ensures { OnOk result (string_bytes text.new
        ≡ string_bytes text.old ++ printed.event_text place event.now) }
{
    push_number(text, place)?;
    text.push_str(" ")?;
    push_asked(text, event)?;
    push_reply(text, &event.reply)?;
    text.push_str("\n")
}

/// The text of a reply: an identifier or a number in decimal, an address, bytes as hexadecimal digits, the
/// fields of stat, `ok`, or the name of a refusal. AllocError: the host refused memory.
pub fn reply_text(alloc: Global, reply: &Reply) -> Result<String, AllocError>
    ensures { IfOk result (λ s. string_bytes s ≡ printed.reply_text reply.now) }
{
    let mut text = String::new(alloc);
    push_reply(&mut text, reply)?;
    Ok(text)
}

/// The line of an event: its place in the history from 1, the process, the call and the reply. AllocError:
/// the host refused memory.
pub fn event_text(alloc: Global, place: u64, event: &Event) -> Result<String, AllocError>
    ensures { IfOk result (λ s. string_bytes s ≡ printed.event_text place event.now) }
{
    let mut text = String::new(alloc);
    push_event(&mut text, place, event)?;
    Ok(text)
}

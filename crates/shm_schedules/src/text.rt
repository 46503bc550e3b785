//! The printed text of calls and schedules.
ghost use Rattle.std.specs.Prelude.{◌≡◌, ◌++◌, false, flat_map, string_bytes, IfOk, OnOk};
ghost use Rattle.std.specs.Fmt.{decimal};
ghost use Rattle.shm_print.specs.Text.{times_text};
ghost use Rattle.shm_schedules.specs.Schedules.{schedule_of};
ghost use Rattle.shm_schedules.specs.Text.{line_as, line_text, pid_text, reply_words, schedule_text, time_text, words_as};

use shm_base::{Event, Reply, ShmidDs};
use shm_print::{push_asked, push_fields, push_reply};
use std::alloc::{AllocError, Global};

/// Appends bytes to a text. AllocError: the host refused memory.
pub fn put(text: &mut Vec<u8>, bytes: &[u8]) -> Result<(), AllocError>
    ensures { OnOk result (text.new.items ≡ text.old.items ++ bytes.now) }
{
    text.extend_from_slice(bytes)
}

/// Appends a number to a text, in decimal. AllocError: the host refused memory.
pub fn put_number(alloc: Global, text: &mut Vec<u8>, number: u64) -> Result<(), AllocError>
    ensures { OnOk result (text.new.items ≡ text.old.items ++ decimal number) }
{
    let digits = format!(in alloc; "{number}")?;
    put(text, digits.as_bytes())
}

fn time_word(time: u64) -> &'static str
    ensures { result.now ≡ time_text time }
{
    if time == 0 { "0" } else { "set" }
}

fn push_times(text: &mut String, ds: &ShmidDs) -> Result<(), AllocError>
    ensures { OnOk result (string_bytes text.new ≡ string_bytes text.old ++ times_text time_text ds.now) }
{
    let (atime, dtime, ctime) = (
        time_word(ds.atime),
        time_word(ds.dtime),
        time_word(ds.ctime),
    );
    write!(text, " atime={atime} dtime={dtime} ctime={ctime}")
}

fn push_words(text: &mut String, reply: &Reply) -> Result<(), AllocError>
    ensures { OnOk result (string_bytes text.new ≡ string_bytes text.old ++ reply_words reply.now) }
{
    match reply {
        Reply::Stat(ds) => {
            push_fields(text, ds)?;
            push_times(text, ds)
        }
        _ => push_reply(text, reply),
    }
}

fn push_words_as(text: &mut String, masks: bool, reply: &Reply) -> Result<(), AllocError>
    ensures { OnOk result (string_bytes text.new ≡ string_bytes text.old ++ words_as masks reply.now) }
{
    match (masks, reply) {
        (true, Reply::Id(_)) => text.push_str("?"),
        (true, Reply::Addr(_)) => text.push_str("?"),
        _ => push_words(text, reply),
    }
}

/// The words of a reply, with its times as 0 or `set`. AllocError: the host refused memory.
pub fn reply_words(alloc: Global, reply: &Reply) -> Result<String, AllocError>
    ensures { IfOk result (λ words. string_bytes words ≡ reply_words reply.now) }
{
    let mut words = String::new(alloc);
    push_words(&mut words, reply)?;
    Ok(words)
}

/// Appends the line of a call to a text. If `masks`, a question mark replaces an identifier or an address.
/// AllocError: the host refused memory.
pub fn put_line_as(
    alloc: Global,
    text: &mut Vec<u8>,
    masks: bool,
    event: &Event,
) -> Result<(), AllocError>
    ensures { OnOk result (text.new.items ≡ text.old.items ++ line_as masks event.now) }
{
    let mut line = String::new(alloc);
    push_asked(&mut line, event)?;
    push_words_as(&mut line, masks, &event.reply)?;
    line.push_str("\n")?;
    put(text, line.as_bytes())
}

/// Appends the line of a call to a text. AllocError: the host refused memory.
pub fn put_line(alloc: Global, text: &mut Vec<u8>, event: &Event) -> Result<(), AllocError>
    ensures { OnOk result (text.new.items ≡ text.old.items ++ line_text event.now) }
{
    put_line_as(alloc, text, false, event)
}

fn put_pids(alloc: Global, text: &mut Vec<u8>, events: &[Event]) -> Result<(), AllocError>
    ensures { OnOk result (text.new.items ≡ text.old.items ++ flat_map pid_text (schedule_of events.now)) }
{
    for event in events {
        put(text, b" ")?;
        put_number(alloc, text, u64::from(event.pid))?;
    }
    Ok(())
}

/// Appends the schedule of a run to a text. AllocError: the host refused memory.
pub fn put_schedule(alloc: Global, text: &mut Vec<u8>, events: &[Event]) -> Result<(), AllocError>
    ensures { OnOk result (text.new.items ≡ text.old.items ++ schedule_text events.now) }
{
    put(text, b"schedule")?;
    put_pids(alloc, text, events)?;
    put(text, b"\n")
}

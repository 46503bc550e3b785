//! The printed text of a verdict.
ghost use Rattle.std.specs.Prelude.{◌≡◌, ◌++◌, drop, flat_map, IfOk, OnOk};
ghost use Rattle.shm_judge.specs.Report.{answers_text, first_text, possible_text, stuck_text, verdict_text};
ghost use Rattle.shm_schedules.specs.Text.{line_text};

use crate::log::{Answer, Log};
use crate::verdict::{Stuck, Verdict};
use shm_base::Event;
use shm_schedules::{put, put_line, put_schedule, reply_count};
use shm_text::Script;
use std::alloc::{AllocError, Global};

// The answers from an index on.
fn answers_from(answers: &[Answer], place: usize) -> &[Answer]
    ensures { result.now ≡ drop place answers.now }
{
    if place > answers.len() {
        return &[];
    }
    &answers[place..]
}

// Appends the first of these lines of a log to a text.
fn put_first(text: &mut Vec<u8>, answers: &[Answer]) -> Result<(), AllocError>
    ensures { OnOk result (text.new.items ≡ text.old.items ++ first_text answers.now) }
{
    match answers {
        [] => Ok(()),
        [answer, ..] => {
            put(text, b"answered ")?;
            put(text, &answer.line)?;
            put(text, b"\n")
        }
    }
}

fn put_answers(
    text: &mut Vec<u8>,
    script: &Script,
    log: &Log,
    events: &[Event],
) -> Result<(), AllocError>
    ensures { OnOk result (
        text.new.items ≡ text.old.items ++ answers_text log.now events.now 0 script.now.processes) }
{
    for (place, process) in script.processes.iter().enumerate() {
        let count = reply_count(events, process.pid);
        put_first(text, answers_from(log.at(place), count))?;
    }
    Ok(())
}

fn put_lines(alloc: Global, text: &mut Vec<u8>, events: &[Event]) -> Result<(), AllocError>
    ensures { OnOk result (text.new.items ≡ text.old.items ++ flat_map line_text events.now) }
{
    for event in events {
        put_line(alloc, text, event)?;
    }
    Ok(())
}

fn put_possible(alloc: Global, text: &mut Vec<u8>, events: &[Event]) -> Result<(), AllocError>
    ensures { OnOk result (text.new.items ≡ text.old.items ++ flat_map possible_text events.now) }
{
    for event in events {
        put(text, b"possible ")?;
        put_line(alloc, text, event)?;
    }
    Ok(())
}

fn put_stuck(
    alloc: Global,
    text: &mut Vec<u8>,
    script: &Script,
    log: &Log,
    stuck: &Stuck,
) -> Result<(), AllocError>
    ensures { OnOk result (text.new.items ≡ text.old.items ++ stuck_text script.now log.now stuck.now) }
{
    put_lines(alloc, text, &stuck.events)?;
    put_schedule(alloc, text, &stuck.events)?;
    put_answers(text, script, log, &stuck.events)?;
    put_possible(alloc, text, &stuck.next)
}

/// The text of a verdict: a schedule that has the log's replies; or a longest beginning of the log, the log's
/// next line of each process, and the replies that are possible there. AllocError: the host refused memory.
pub fn verdict_text(
    alloc: Global,
    script: &Script,
    log: &Log,
    verdict: &Verdict,
) -> Result<Vec<u8>, AllocError>
    ensures { IfOk result (λ text. text.items ≡ verdict_text script.now log.now verdict.now) }
{
    let mut text = Vec::new(alloc);
    match verdict {
        Verdict::Legal(events) => {
            put(&mut text, b"legal\n")?;
            put_schedule(alloc, &mut text, events)?;
        }
        Verdict::Illegal(stuck) => {
            put(&mut text, b"illegal\n")?;
            put_stuck(alloc, &mut text, script, log, stuck)?;
        }
    }
    Ok(text)
}

//! The relevant replies: a reply that sets no variable is as good as any other.
ghost use Rattle.std.specs.Prelude.{◌≡◌, IfOk, [], slice_index_or};
ghost use Rattle.shm_outcomes.specs.Groups.{relevant_replies, relevant_all, relevant_reply};

use shm_base::{Process, Reply};
use shm_schedules::{Outcome, Replies};
use shm_text::{Command, Line, Script};
use std::alloc::{AllocError, Global};

fn relevant_reply(command: &Command, reply: &Reply) -> Reply
    ensures { result ≡ relevant_reply command.now.var reply.now }
{
    match command.var() {
        Some(_) => *reply,
        None => Reply::Done,
    }
}

// The relevant replies to a process.
fn relevant_replies(
    alloc: Global,
    lines: &[Line],
    pid: u32,
    replies: &[Reply],
) -> Result<Vec<Reply>, AllocError>
    ensures { IfOk result (λ v. v.items ≡ relevant_replies pid lines.now replies.now) }
{
    let mut all = Vec::with_capacity(alloc, replies.len())?;
    let mut place = 0;
    for line in lines {
        let Line::Command(command) = line else {
            continue;
        };
        if command.pid() != pid {
            continue;
        }
        if place >= replies.len() {
            return Ok(all);
        }
        all.push(relevant_reply(command, &replies[place]))?;
        place += 1;
    }
    Ok(all)
}

// The relevant ones of the replies at this index.
fn relevant_at(
    alloc: Global,
    lines: &[Line],
    process: &Process,
    lists: &[Replies],
    index: usize,
) -> Result<Replies, AllocError>
    ensures { IfOk result (λ t. t ≡ relevant_replies process.now.pid lines.now (slice_index_or lists.now index [])) }
{
    let replies = match lists.get(index) {
        Some(one) => one.replies(),
        None => &[],
    };
    let all = relevant_replies(alloc, lines, process.pid, replies)?;
    Replies::new(alloc, all)
}

// The relevant replies to each process.
fn relevant_all(
    alloc: Global,
    lines: &[Line],
    processes: &[Process],
    lists: &[Replies],
) -> Result<Vec<Replies>, AllocError>
    ensures { IfOk result (λ v. v.items ≡ relevant_all lines.now processes.now lists.now) }
{
    let mut all = Vec::with_capacity(alloc, processes.len())?;
    for (index, process) in processes.iter().enumerate() {
        let one = relevant_at(alloc, lines, process, lists, index)?;
        all.push(one)?;
    }
    Ok(all)
}

// The relevant part of an outcome.
pub(crate) fn relevant_outcome(
    alloc: Global,
    script: &Script,
    outcome: &Outcome,
) -> Result<Outcome, AllocError>
    ensures { IfOk result (λ o. o ≡ relevant_all script.now.lines script.now.processes outcome.now) }
{
    let lists = relevant_all(alloc, &script.lines, &script.processes, outcome.replies())?;
    Ok(Outcome::new(lists))
}

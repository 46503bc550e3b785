//! The replies of a system to each process.
ghost use Rattle.std.specs.Prelude.{◌≡◌, ◌↔◌, IsTrue, IfNone, IfOk, IfSome, length, slice_index_or, [], List};
ghost use Rattle.shm_schedules.specs.Schedules.{replies_to};
ghost use Rattle.shm_judge.specs.Logs.{AllBegin, AllFill, Begins, Fits};

use shm_base::{Event, Reply};
use shm_schedules::{is_any, is_refusal, reply_words};
use shm_text::Script;
use std::alloc::{AllocError, Global};
use std::marker::Model;

/// A line of a log, and the words of its reply.
#[derive(Drop)]
pub struct Answer {
    pub line: Vec<u8>,
    pub reply: Vec<u8>,
}

impl Model for Answer {
    ghost use Rattle.shm_judge.specs.Logs.{Answer};

    ghost Value = { Answer };

    ghost view = { λ a. record { line = a.line.items; reply = a.reply.items } };
}

/// A line of a log: its process and its answer.
#[derive(Drop)]
pub struct Entry {
    pub pid: u32,
    pub answer: Answer,
}

impl Model for Entry {
    ghost use Rattle.shm_judge.specs.Logs.{Entry};

    ghost Value = { Entry };

    ghost view = { λ e. record { pid = e.pid; answer = e.answer } };
}

fn are_same_bytes(bytes: &[u8], others: &[u8]) -> bool
    ensures { IsTrue result ↔ bytes.now ≡ others.now }
{
    bytes == others
}

impl Answer {
    pub(crate) fn fits(&self, alloc: Global, reply: &Reply) -> Result<bool, AllocError>
        ensures { IfOk result (λ r. IsTrue r ↔ Fits self.now reply.now) }
    {
        if is_any(&self.reply) {
            return Ok(!is_refusal(reply));
        }
        let words = reply_words(alloc, reply)?;
        Ok(are_same_bytes(&self.reply, words.as_bytes()))
    }
}

/// The replies to one process, in order.
#[derive(Drop)]
pub struct Answers {
    pub answers: Vec<Answer>,
}

impl Model for Answers {
    ghost use Rattle.std.specs.Prelude.{List};
    ghost use Rattle.shm_judge.specs.Logs.{Answer};

    ghost Value = { List Answer };

    ghost view = { λ a. a.answers.items };
}

// How many of these replies the process has in the events, if the events begin with them.
fn matched(
    alloc: Global,
    answers: &[Answer],
    pid: u32,
    events: &[Event],
) -> Result<Option<usize>, AllocError>
    ensures some { IfOk result (λ r. IfSome r (λ n.
        Begins answers.now (replies_to pid events.now) × (n ≡ length (replies_to pid events.now)))) }
    ensures none { IfOk result (λ r. IfNone r (Begins answers.now (replies_to pid events.now) → ⊥)) }
{
    let mut place = 0;
    for event in events {
        if event.pid != pid {
            continue;
        }
        if place >= answers.len() || !answers[place].fits(alloc, &event.reply)? {
            return Ok(None);
        }
        place += 1;
    }
    Ok(Some(place))
}

/// The replies to each declared process, in the script's order; none if a list is missing.
#[derive(Drop)]
pub struct Log {
    pub processes: Vec<Answers>,
}

impl Model for Log {
    ghost use Rattle.std.specs.Prelude.{List};
    ghost use Rattle.shm_judge.specs.Logs.{Answer};

    ghost Value = { List (List Answer) };

    ghost view = { λ l. l.processes.items };
}

impl Log {
    /// The replies to the process at an index.
    pub fn at(&self, place: usize) -> &[Answer]
        ensures { result.now ≡ slice_index_or self.now place [] }
    {
        match self.processes.get(place) {
            Some(answers) => answers.answers.as_slice(),
            None => &[],
        }
    }

    // Whether the replies in these events begin those of the log.
    pub(crate) fn begins(
        &self,
        alloc: Global,
        script: &Script,
        events: &[Event],
    ) -> Result<bool, AllocError>
        ensures { IfOk result (λ r. IsTrue r ↔ AllBegin script.now self.now events.now) }
    {
        for (place, process) in script.processes.iter().enumerate() {
            if matched(alloc, self.at(place), process.pid, events)?.is_none() {
                return Ok(false);
            }
        }
        Ok(true)
    }

    // Whether the replies in these events are exactly those of the log.
    pub(crate) fn is_filled(
        &self,
        alloc: Global,
        script: &Script,
        events: &[Event],
    ) -> Result<bool, AllocError>
        ensures { IfOk result (λ r. IsTrue r ↔ AllFill script.now self.now events.now) }
    {
        for (place, process) in script.processes.iter().enumerate() {
            let answers = self.at(place);
            if matched(alloc, answers, process.pid, events)? != Some(answers.len()) {
                return Ok(false);
            }
        }
        Ok(true)
    }
}

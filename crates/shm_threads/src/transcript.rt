//! The calls of a worker and their answers.
use crate::entry_list::EntryList;
use shm_base::{Call, Reply};

/// The answer to a worker's call: the system's reply, or that the host refused memory. In that case the call
/// changed nothing, and is not in the history.
#[derive(Debug, PartialEq)]
pub enum Answer {
    Reply(Reply),
    HostMemory,
}

impl Drop for Answer {
    fn drop(self) {
        match self {
            Answer::Reply(_) => {}
            Answer::HostMemory => {}
        }
    }
}

impl Answer {
    ghost use Rattle.std.specs.Prelude.{◌≡◌};
    ghost use Rattle.std.specs.Option.{option_copied};
    ghost use Rattle.shm_threads.specs.Transcripts.{reply_in};

    /// The reply, if there is one.
    pub fn reply(&self) -> Option<&Reply>
        ensures { option_copied result ≡ reply_in self.now }
    {
        match self {
            Answer::Reply(reply) => Some(reply),
            Answer::HostMemory => None,
        }
    }
}

/// A worker's call with its answer.
#[derive(Debug, PartialEq)]
pub struct Entry {
    pub call: Call,
    pub answer: Answer,
}

impl Drop for Entry {
    fn drop(self) {
        let Entry { call: _, answer: _ } = self;
    }
}

impl Entry {
    ghost use Rattle.std.specs.Prelude.{◌≡◌};
    ghost use Rattle.shm_threads.specs.Transcripts.{is_end};

    /// Whether the process ends by this call.
    pub fn is_end(&self) -> bool
        ensures { result ≡ is_end self.now.call self.now.answer }
    {
        match (&self.call, &self.answer) {
            (Call::Exit, Answer::Reply(Reply::Done)) => true,
            _ => false,
        }
    }
}

/// The calls of one process's worker, in order. Not every run keeps them.
#[derive(Debug)]
pub struct Transcript {
    pub pid: u32,
    pub entries: EntryList,
}

impl Drop for Transcript {
    fn drop(self) {
        let Transcript { pid: _, entries: _ } = self;
    }
}

//! Why the program of the tests stops early.
use crate::monitor::NoRun;
use shm_base::HostMemory;
use shm_program::RunFault;
use std::alloc::{AllocError, AllocFailed};
use std::io;
use thiserror::Error;

/// The part in which two worlds differ.
#[derive(Clone, Copy, Debug, PartialEq, Eq, Error)]
pub(crate) enum Part {
    #[error("replies")]
    Replies,
    #[error("rounds")]
    Rounds,
    #[error("histories")]
    Histories,
    #[error("tallies")]
    Tallies,
    #[error("segments")]
    Segments,
    #[error("states")]
    States,
}

/// Unknown words; a script, a start or a stream that failed; refused memory; two worlds that differ; or a run
/// with threads that gave nothing to read.
#[derive(Clone, Copy, Debug, PartialEq, Eq, Error)]
pub(crate) enum Stop {
    #[error("usage: shm_process_tests asks|twins[-with-room|-without-it] SWAP... | monitor [gauged|plain]")]
    Words,
    #[error("the script does not run")]
    Run,
    #[error("out of memory")]
    HostMemory,
    #[error("the {0} differ")]
    Differs(Part),
    #[error("{0}")]
    Threads(#[from] NoRun),
}

impl Stop {
    pub(crate) fn status(self) -> u8 {
        match self {
            Stop::Differs(_) | Stop::Threads(_) => 1,
            Stop::Words => 2,
            Stop::Run => 3,
            Stop::HostMemory => 4,
        }
    }
}

impl From<AllocError> for Stop {
    fn from(_e: AllocError) -> Stop {
        Stop::HostMemory
    }
}

impl<T: Drop> From<AllocFailed<T>> for Stop {
    fn from(_e: AllocFailed<T>) -> Stop {
        Stop::HostMemory
    }
}

impl From<HostMemory> for Stop {
    fn from(_e: HostMemory) -> Stop {
        Stop::HostMemory
    }
}

impl From<io::Error> for Stop {
    fn from(e: io::Error) -> Stop {
        match e.kind() {
            io::ErrorKind::OutOfMemory => Stop::HostMemory,
            _ => Stop::Run,
        }
    }
}

impl From<RunFault> for Stop {
    fn from(fault: RunFault) -> Stop {
        match fault {
            RunFault::HostMemory => Stop::HostMemory,
            _ => Stop::Run,
        }
    }
}

//! What is wrong with a log.
ghost use Rattle.std.specs.Prelude.{◌≡◌};
ghost use Rattle.shm_judge.specs.declared.fault.LogRefused.TheVariants.{HostMemory};

use std::alloc::{AllocError, AllocFailed};

/// What is wrong with a line: it does not begin with a process, it has no reply, or the script does not
/// declare the process.
#[derive(Clone, Copy, Debug, PartialEq, Eq)]
pub enum LogFaultKind {
    BadLine,
    UnknownProcess,
}

/// The first fault of a log, with the number of its line, from 1.
#[derive(Clone, Copy, Debug, PartialEq, Eq)]
pub struct LogFault {
    pub line: u64,
    pub kind: LogFaultKind,
}

/// Why a log was not read: its first fault, or the host refused memory.
#[derive(Clone, Copy, Debug, PartialEq, Eq)]
pub enum LogRefused {
    Fault(LogFault),
    HostMemory,
}

impl From<AllocError> for LogRefused {
    ghost from_gives = { λ _ r. r ≡ HostMemory };

    fn from(_refused: AllocError) -> LogRefused {
        LogRefused::HostMemory
    }
}

impl<T: Drop> From<AllocFailed<T>> for LogRefused {
    ghost from_gives = { λ _ r. r ≡ HostMemory };

    fn from(_refused: AllocFailed<T>) -> LogRefused {
        LogRefused::HostMemory
    }
}

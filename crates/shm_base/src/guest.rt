//! Why the host's changes of a machine's processes are refused, and the ranges that it reserves.
use thiserror::Error;

/// Why a process is not admitted. The first that applies is returned:
///
/// - `BadPid`: the pid is 0, or above 2147483647.
/// - `PidTaken`: a live process, or a child that is not born yet, has the pid.
/// - `TooManyProcesses`: no ended process has the pid, and there are as many processes as the limits allow.
///   Ended processes count until they are dismissed.
#[derive(Clone, Copy, Debug, PartialEq, Eq, Error)]
pub enum AdmitRefusal {
    #[error("a pid out of range")]
    BadPid,
    #[error("a pid that is taken")]
    PidTaken,
    #[error("too many processes")]
    TooManyProcesses,
}

/// Why a process is not dismissed. `NoProcess`: no process has the pid. `StillLive`: the process has not
/// ended.
#[derive(Clone, Copy, Debug, PartialEq, Eq, Error)]
pub enum DismissRefusal {
    #[error("no process has the pid")]
    NoProcess,
    #[error("the process is live")]
    StillLive,
}

/// A range of a process's addresses that the host has reserved: from `from` up to, but not including, `to`.
/// An attach takes none of it, unless SHM_REMAP is given. No other call looks at it.
#[derive(Clone, Copy, Debug, PartialEq, Eq)]
pub struct HostRange {
    pub pid: u32,
    pub from: u64,
    pub to: u64,
}

/// Why a range is not reserved or released. The first that applies is returned:
///
/// - `BadRange`: the range has no page, does not begin and end at a multiple of 4096, or is not within 0x10000
///   to 0x7ffffffff000.
/// - `RangeTaken`: the range meets a piece of the process, or another range reserved for it.
/// - `NoRange`: exactly this range is not reserved. A release is refused for nothing else, and a reservation
///   is never refused for it.
#[derive(Clone, Copy, Debug, PartialEq, Eq, Error)]
pub enum RangeRefusal {
    #[error("not a range that can be attached")]
    BadRange,
    #[error("a range that is taken")]
    RangeTaken,
    #[error("the range is not reserved")]
    NoRange,
}

//! Why the program stops.
ghost use Rattle.std.specs.Prelude.{◌≡◌, Some};
ghost use Rattle.std.specs.IoError.{error_kind};
ghost use Rattle.shm_program.specs.declared.fault.RunFault.TheVariants as faults;
ghost use Rattle.shmcheck.specs.declared.stop.Stop.TheVariants as stops;
ghost use Rattle.shmcheck.specs.Stop.{condition_fault_name, kind_name, stop_text, stop_status, io_stop, log_unread};

use shm_base::HostMemory;
use shm_conditions::{ConditionFault, ConditionFaultKind};
use shm_judge::{LogFault, LogFaultKind};
use shm_program::RunFault;
use std::alloc::{AllocError, AllocFailed};
use std::{fmt, io};

/// Why the program stops: wrong words on the command line; a fault of the run; or more schedules than the bound.
/// For a log also: its file can't be read, a line has a fault, or it has more beginnings than the bound. For a
/// question also: its condition has a fault.
#[derive(Clone, Copy, Debug, PartialEq, Eq)]
pub(crate) enum Stop {
    Usage,
    Fault(RunFault),
    Bound(u64),
    LogUnread,
    BadLog(LogFault),
    Doubt(u64),
    BadCondition(ConditionFault),
}

impl Stop {
    /// The exit status: 1 for a fault of the log, 2 for usage and a fault of a condition, 5 at the bound, 3 for a
    /// file that can't be read, otherwise that of the fault.
    pub(crate) fn status(self) -> u8
        ensures { result ≡ stop_status self }
    {
        match self {
            Stop::Usage => 2,
            Stop::Fault(fault) => fault.status(),
            Stop::Bound(_) | Stop::Doubt(_) => 5,
            Stop::LogUnread => 3,
            Stop::BadLog(_) => 1,
            Stop::BadCondition(_) => 2,
        }
    }
}

// What is wrong with a line of a log.
fn kind_name(kind: LogFaultKind) -> &'static str
    ensures { result.now ≡ kind_name kind }
{
    match kind {
        LogFaultKind::BadLine => "bad line",
        LogFaultKind::UnknownProcess => "unknown process",
    }
}

// What is wrong with a condition.
fn condition_fault_name(kind: ConditionFaultKind) -> &'static str
    ensures { result.now ≡ condition_fault_name kind }
{
    match kind {
        ConditionFaultKind::NoOperand => "P:N=REPLY, ~ or ( is missing",
        ConditionFaultKind::NoOperator => "/\\, \\/ or ) is missing",
        ConditionFaultKind::Unopened => ") without (",
        ConditionFaultKind::Unclosed => "( without )",
        ConditionFaultKind::BadWord => "not of the form P:N=REPLY",
        ConditionFaultKind::UnknownProcess => "the script declares no such process",
        ConditionFaultKind::UnknownLine => "the process has no such line",
    }
}

impl fmt::Display for Stop {
    ghost output = { λ s. Some (stop_text s) };

    fn fmt<W: fmt::Write>(&self, f: &mut fmt::Formatter<W>) -> fmt::Result {
        match self {
            Stop::Usage => f.write_str(
                "usage: shmcheck outcomes|judge LOG|sample SEED [--exists|--forbid CONDITION] [--rules profile|linux] [--at-most N] [--masked] [--runs N]",
            ),
            Stop::Fault(fault) => write!(f, "{fault}"),
            Stop::Bound(most) => {
                write!(f, "undecided: more than {most} runs, no two of them alike")
            }
            Stop::LogUnread => f.write_str("the log can't be read"),
            Stop::BadLog(fault) => {
                let (line, kind) = (fault.line, kind_name(fault.kind));
                write!(f, "log line {line}: {kind}")
            }
            Stop::BadCondition(fault) => {
                let (at, kind) = (fault.at, condition_fault_name(fault.kind));
                write!(f, "condition, byte {at}: {kind}")
            }
            Stop::Doubt(most) => { write!(f, "undecided: more than {most} beginnings of the log") }
        }
    }
}

impl From<AllocError> for Stop {
    ghost from_gives = { λ _ r. r ≡ stops.Fault faults.HostMemory };

    fn from(_e: AllocError) -> Stop {
        Stop::Fault(RunFault::HostMemory)
    }
}

impl From<HostMemory> for Stop {
    ghost from_gives = { λ _ r. r ≡ stops.Fault faults.HostMemory };

    fn from(_e: HostMemory) -> Stop {
        Stop::Fault(RunFault::HostMemory)
    }
}

impl<T: Drop> From<AllocFailed<T>> for Stop {
    ghost from_gives = { λ _ r. r ≡ stops.Fault faults.HostMemory };

    fn from(_e: AllocFailed<T>) -> Stop {
        Stop::Fault(RunFault::HostMemory)
    }
}

/// Why a log was not read.
pub(crate) fn log_unread(error: io::Error) -> Stop
    ensures { result ≡ log_unread (error_kind error) }
{
    if error.kind() == io::ErrorKind::OutOfMemory {
        return Stop::Fault(RunFault::HostMemory);
    }
    Stop::LogUnread
}

// A word that is not valid UTF-8 is a usage error.
impl From<io::Error> for Stop {
    ghost from_gives = { λ e r. r ≡ io_stop (error_kind e) };

    fn from(e: io::Error) -> Stop {
        match e.kind() {
            io::ErrorKind::OutOfMemory => Stop::Fault(RunFault::HostMemory),
            _ => Stop::Usage,
        }
    }
}

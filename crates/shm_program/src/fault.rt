//! Why a run ends without its whole output, with the program's messages and exit statuses.
ghost use Rattle.std.specs.Prelude.{◌≡◌};
ghost use Rattle.shm_program.specs.Faults.{refused_as, stopped_as};
ghost use Rattle.shm_program.specs.declared.fault.RunFault.TheVariants as faults;

use shm_base::HostMemory;
use shm_history::StartError;
use shm_text::{ReadRefused, ScriptFault};
use std::alloc::AllocError;
use std::{error, fmt};

/// Why a run ended without its whole output.
///
/// - `Script`: the input is not a script; it has the first fault.
/// - `StartRefused`: the machine was not opened; it has the number of the first start error.
/// - `ReadFailed`: the reader failed, or was called 2,097,152 times without an end.
/// - `WriteFailed`: the writer failed, was interrupted, or took no byte. A beginning of the output was
///   written; nothing says how much.
/// - `HostMemory`: the host refused memory.
///
/// - `ThreadRefused`: the host refused a thread. Only a run with threads has it.
///
/// The programs never stop for these two:
///
/// - `Gate`: a gate ended a thread; it has the least such pid, or 0 for the flusher. The programs' gates end
///   none.
/// - `Mismatch`: no run ends with it.
#[derive(Clone, Copy, Debug, PartialEq, Eq)]
pub enum RunFault {
    Script(ScriptFault),
    StartRefused(u8),
    ReadFailed,
    WriteFailed,
    Gate { pid: u32 },
    Mismatch { pid: u32 },
    ThreadRefused,
    HostMemory,
}

impl RunFault {
    ghost use Rattle.shm_program.specs.Faults.{exit_status};

    /// The exit status of the program: 1 for a script fault, 3 for a fault of the run, 4 for out of memory.
    pub fn status(self) -> u8
        ensures { result ≡ exit_status self }
    {
        match self {
            RunFault::Script(_) => 1,
            RunFault::StartRefused(_)
            | RunFault::ReadFailed
            | RunFault::WriteFailed
            | RunFault::Gate { .. }
            | RunFault::Mismatch { .. }
            | RunFault::ThreadRefused => 3,
            RunFault::HostMemory => 4,
        }
    }
}

impl fmt::Display for RunFault {
    ghost use Rattle.std.specs.Prelude.{Some};
    ghost use Rattle.shm_program.specs.Faults.{fault_text};

    ghost output = { λ f. Some (fault_text f) };

    fn fmt<W: fmt::Write>(&self, f: &mut fmt::Formatter<W>) -> fmt::Result {
        match self {
            RunFault::Script(fault) => {
                let (line, kind) = (fault.line, fault.kind);
                write!(f, "line {line}: {kind}")
            }
            RunFault::StartRefused(number) => write!(f, "start refused {number}"),
            RunFault::ReadFailed => f.write_str("read failed"),
            RunFault::WriteFailed => f.write_str("write failed"),
            RunFault::Gate { pid } => write!(f, "gate expired {pid}"),
            RunFault::Mismatch { pid } => write!(f, "history mismatch {pid}"),
            RunFault::ThreadRefused => f.write_str("thread refused"),
            RunFault::HostMemory => f.write_str("out of memory"),
        }
    }
}

impl error::Error for RunFault {}

// If the host refuses memory, the run is out of memory, whatever it was doing.
impl From<AllocError> for RunFault {
    ghost from_gives = { λ _ r. r ≡ faults.HostMemory };

    fn from(_e: AllocError) -> RunFault {
        RunFault::HostMemory
    }
}

impl From<HostMemory> for RunFault {
    ghost from_gives = { λ _ r. r ≡ faults.HostMemory };

    fn from(_e: HostMemory) -> RunFault {
        RunFault::HostMemory
    }
}

pub(crate) fn refused(refusal: ReadRefused) -> RunFault
    ensures { result ≡ refused_as refusal }
{
    match refusal {
        ReadRefused::HostMemory => RunFault::HostMemory,
        ReadRefused::Fault(fault) => RunFault::Script(fault),
    }
}

pub(crate) fn stopped(error: StartError) -> RunFault
    ensures { result ≡ stopped_as error }
{
    match error {
        StartError::HostMemory => RunFault::HostMemory,
        _ => RunFault::StartRefused(error.number()),
    }
}

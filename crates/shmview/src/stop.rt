//! Why the program stops.
ghost use Rattle.std.specs.Prelude.{◌≡◌, Some};
ghost use Rattle.std.specs.IoError.{error_kind};
ghost use Rattle.shm_program.specs.declared.fault.RunFault.TheVariants as faults;
ghost use Rattle.shmview.specs.declared.stop.Stop.TheVariants as stops;
ghost use Rattle.shmview.specs.Stop.{stop_text, stop_status, io_stop};

use shm_base::HostMemory;
use shm_program::RunFault;
use std::alloc::{AllocError, AllocFailed};
use std::{fmt, io};

/// Why the program stops: wrong words on the command line; a run of this many steps, over 2,000, without
/// chosen steps; or a fault of the run.
#[derive(Clone, Copy, Debug, PartialEq, Eq)]
pub(crate) enum Stop {
    Usage,
    TooLong(u64),
    Fault(RunFault),
}

impl Stop {
    /// The exit status: 2 for usage and for too many steps, otherwise that of the fault.
    pub(crate) fn status(self) -> u8
        ensures { result ≡ stop_status self }
    {
        match self {
            Stop::Usage | Stop::TooLong(_) => 2,
            Stop::Fault(fault) => fault.status(),
        }
    }
}

impl fmt::Display for Stop {
    ghost output = { λ s. Some (stop_text s) };

    fn fmt<W: fmt::Write>(&self, f: &mut fmt::Formatter<W>) -> fmt::Result {
        match self {
            Stop::Usage => f.write_str("usage: shmview [--text] [--steps FROM-TO] SWAP..."),
            Stop::TooLong(steps) => write!(
                f,
                "{steps} steps are more than 2000: choose some by --steps FROM-TO"
            ),
            Stop::Fault(fault) => write!(f, "{fault}"),
        }
    }
}

impl From<AllocError> for Stop {
    ghost from_gives = { λ _ r. r ≡ stops.Fault faults.HostMemory };

    fn from(_e: AllocError) -> Stop {
        Stop::Fault(RunFault::HostMemory)
    }
}

impl<T: Drop> From<AllocFailed<T>> for Stop {
    ghost from_gives = { λ _ r. r ≡ stops.Fault faults.HostMemory };

    fn from(_e: AllocFailed<T>) -> Stop {
        Stop::Fault(RunFault::HostMemory)
    }
}

impl From<HostMemory> for Stop {
    ghost from_gives = { λ _ r. r ≡ stops.Fault faults.HostMemory };

    fn from(_e: HostMemory) -> Stop {
        Stop::Fault(RunFault::HostMemory)
    }
}

// A word that is not valid UTF-8 is a usage error.
impl From<io::Error> for Stop {
    ghost from_gives = { λ e r. r ≡ io_stop (error_kind e) };

    fn from(e: io::Error) -> Stop {
        match e.kind() {
            io::ErrorKind::OutOfMemory => Stop::Fault(RunFault::HostMemory),
            _ => Stop::Usage,
        }
    }
}

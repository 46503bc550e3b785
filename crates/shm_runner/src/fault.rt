//! The program's fault for a run with threads that has no outcome.
ghost use Rattle.std.specs.Prelude.{◌≡◌};
ghost use Rattle.shm_runner.specs.Faults.{ended_as, IsUngated};

use shm_program::RunFault;
use shm_threads::RunError;

pub(crate) fn run_fault(error: RunError) -> RunFault
    requires { IsUngated error }
    ensures { result ≡ ended_as error }
{
    match error {
        RunError::HostMemory => RunFault::HostMemory,
        RunError::GateExpired { .. } | RunError::HistoryMismatch { .. } => unreachable!(),
        RunError::ThreadRefused => RunFault::ThreadRefused,
    }
}

//! The machine on which the program runs a script.
ghost use Rattle.std.specs.Prelude.{◌≡◌, List, ℕ, IfErr, IfOk};
ghost use Rattle.shm_program.specs.Faults.{stopped_as};
ghost use Rattle.shm_schedules.specs.Schedules.{start};
ghost use Rattle.shmcheck.specs.Answers.{IsStopIn};
ghost use Rattle.shmcheck.specs.Runs.{one_area};

use crate::command::Asked;
use crate::stop::Stop;
use shm_life::StartError;
use shm_pager::SparsePager;
use shm_program::RunFault;
use shm_schedules::Simulated;
use shm_text::Script;
use std::alloc::Global;

/// The slots of the swap area.
const SLOTS: u32 = 64;

/// The machine that a script opens over one swap area, whose pages are in memory.
pub(crate) fn open_machine(alloc: Global, script: &Script) -> Result<Simulated, Stop>
    ensures machine { IfOk result (λ m. m.machine ≡ (start script.now one_area).machine) }
    ensures calls { IfOk result (λ m. m.calls ≡ 0) }
    ensures cause { IfErr result (λ s. (asked : Asked) (given : List ℕ) →
        IsStopIn s asked given one_area script.now) }
{
    let mut areas = Vec::new(alloc);
    areas.push(SparsePager::new(alloc, SLOTS)?)?;
    match Simulated::open(alloc, script, areas) {
        Ok(machine) => Ok(machine),
        Err(error) => Err(Stop::Fault(refused(error))),
    }
}

// Why a script was not opened.
fn refused(error: StartError) -> RunFault
    ensures { result ≡ stopped_as error }
{
    match error {
        StartError::HostMemory => RunFault::HostMemory,
        _ => RunFault::StartRefused(error.number()),
    }
}

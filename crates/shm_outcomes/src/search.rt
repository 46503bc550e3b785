//! The search is breadth-first: it extends the runs with 0, 1, 2 and more calls, in groups that make each call once.
ghost use Rattle.std.specs.Prelude.{◌≡◌, IfErr, IfOk};
ghost use Rattle.shm_outcomes.specs.Search.{AreOutcomes, IsCause};
ghost use Rattle.shm_schedules.specs.Schedules.{fresh};

use crate::findings::Findings;
use crate::levels::Level;
use shm_schedules::{Engine, Finding, Lists, Run, SearchError};
use shm_text::Script;
use std::alloc::Global;

/// Every outcome of a script, each once, with a run that has it. The machine has made no call. The search keeps
/// at most `most` runs, of which no two are equivalent. Errors: the host refused memory, or there are more
/// such runs.
pub fn outcomes<M: Engine>(
    alloc: Global,
    script: &Script,
    machine: M,
    most: u64,
) -> Result<Vec<Finding>, SearchError>
    requires new { M.calls machine ≡ 0 }
    ensures ok { IfOk result (λ found. AreOutcomes script.now (fresh (M.flat machine)) found.items) }
    ensures err { IfErr result (IsCause script.now (fresh (M.flat machine)) most) }
{
    let start = Run::first(alloc, machine)?;
    let mut lists = Lists::new(alloc);
    let mut found = Findings::new(alloc);
    let mut level = Level::first(alloc, script, &start, most)?;
    'levels: while !level.is_empty() {
        level = level.next(alloc, script, &start, most, &mut lists, &mut found)?;
    }
    let all = found.into_all(alloc)?;
    Ok(all)
}

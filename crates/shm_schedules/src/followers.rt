//! The runs that follow a run.
ghost use Rattle.std.specs.Prelude.{◌≡◌, ◌++◌, OnOk};
ghost use Rattle.shm_schedules.specs.Schedules.{followers, goes, one_run};

use crate::engine::Engine;
use crate::runs::Run;
use shm_base::{HostMemory, Process};
use shm_text::Script;
use std::alloc::Global;

/// Appends each run that extends this one by a call, in the script's order of processes.
/// HostMemory: the host refused memory; `runs` may have some of them then.
pub fn push_followers<M: Engine>(
    alloc: Global,
    script: &Script,
    run: &Run<M>,
    runs: &mut Vec<Run<M>>,
) -> Result<(), HostMemory>
    ensures { OnOk result (runs.new.items
        ≡ runs.old.items ++ followers script.now script.now.processes run.now) }
{
    for process in &script.processes {
        push_follower(alloc, script, run, process, runs)?;
    }
    Ok(())
}

// Appends the run that extends this one by the next call of a process, if it has one.
fn push_follower<M: Engine>(
    alloc: Global,
    script: &Script,
    run: &Run<M>,
    process: &Process,
    runs: &mut Vec<Run<M>>,
) -> Result<(), HostMemory>
    ensures { OnOk result (runs.new.items
        ≡ runs.old.items ++ one_run (goes script.now process.now.pid run.now)) }
{
    let Some(call) = run.next(script, process.pid) else {
        return Ok(());
    };
    let next = run.after(alloc, process.pid, &call)?;
    runs.push(next)?;
    Ok(())
}

//! Starts the threads of a run. A refused start returns the refusal, which can only be used up by the run's error.
ghost use Rattle.std.specs.Prelude.{◌≡◌, length};
ghost use Rattle.shm_threads.specs.Asked.{rounds_of};
ghost use Rattle.shm_threads.specs.Running.{IsProcessAt};

use crate::callers::{run_process, run_rounds};
use crate::gate::Gate;
use crate::origin::Origin;
use crate::outcome::RunError;
use crate::shared::Shared;
use shm_pager_core::Pager;
use shm_text::Line;
use std::sync::Wait;
use std::thread::{JoinHandle, Scope, Threads};

/// The host refused a thread. Only a refused start makes one, and the run's error is the only way to use it up.
#[must_use]
pub(crate) struct Refused {
    is_known: (),
}

impl Refused {
    /// The error of the run.
    pub(crate) fn error(self) -> RunError
        ensures { result ≡ RunError.ThreadRefused }
    {
        let Refused { is_known: () } = self;
        RunError::ThreadRefused
    }
}

pub(crate) type WorkerHandle = JoinHandle<()>;

/// Starts the worker of the process at an index.
pub(crate) fn start_worker<
    's,
    E,
    O: Origin + Send + Sync,
    R: Threads + Wait + Sync,
    G: Gate,
    P: Pager + Send,
>(
    scope: &Scope<'s, E>,
    rt: &'s R,
    shared: &'s Shared<P, O>,
    gate: &'s G,
    index: usize,
    pid: u32,
    lines: &'s [Line],
) -> Result<WorkerHandle, Refused>
    requires gate { G.answers gate.now ≡ O.answers }
    requires process { IsProcessAt O.script.processes index pid }
    requires lines { O.script.lines ≡ lines.now }
{
    match scope.spawn(
        move ||
            requires gate { G.answers gate.now ≡ O.answers }
            requires process { IsProcessAt O.script.processes index pid }
            requires lines { O.script.lines ≡ lines.now }
        { run_process(rt, shared, gate, index, pid, lines) },
    ) {
        Ok(handle) => Ok(handle),
        Err(_refused) => Err(Refused { is_known: () }),
    }
}

/// Starts the flusher, which makes this many rounds.
pub(crate) fn start_flusher<
    's,
    E,
    O: Origin + Send + Sync,
    R: Threads + Wait + Sync,
    G: Gate,
    P: Pager + Send,
>(
    scope: &Scope<'s, E>,
    rt: &'s R,
    shared: &'s Shared<P, O>,
    gate: &'s G,
    rounds: usize,
) -> Result<WorkerHandle, Refused>
    requires gate { G.answers gate.now ≡ O.answers }
    requires rounds { rounds ≡ length (rounds_of O.script.lines) }
{
    match scope.spawn(
        move ||
            requires gate { G.answers gate.now ≡ O.answers }
            requires rounds { rounds ≡ length (rounds_of O.script.lines) }
        { run_rounds(rt, shared, gate, rounds) },
    ) {
        Ok(handle) => Ok(handle),
        Err(_refused) => Err(Refused { is_known: () }),
    }
}

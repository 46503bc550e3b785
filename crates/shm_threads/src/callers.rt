//! What the threads of a run use: the gate, without the lock, and what they share, under the lock.
ghost use Rattle.std.specs.Prelude.{◌≡◌, length, true};
ghost use Rattle.shm_threads.specs.Asked.{rounds_of};
ghost use Rattle.shm_threads.specs.Running.{IsProcessAt};
ghost use Rattle.shm_threads.specs.Transcripts.{commands_of};

use crate::flusher::{Flusher, flush_all};
use crate::gate::Gate;
use crate::origin::Origin;
use crate::shared::Shared;
use crate::worker::{Caller, work};
use shm_pager_core::Pager;
use shm_text::{Command, Line};
use std::sync::Wait;

#[derive(Drop)]
struct ProcessCaller<'a, R: Wait, G: Gate, P: Pager, O: Origin> {
    rt: &'a R,
    shared: &'a Shared<P, O>,
    gate: &'a G,
    index: usize,
    pid: u32,
    ghost of_run: { G.answers gate.now ≡ O.answers },
    ghost declared: { IsProcessAt O.script.processes index pid },
}

impl<R: Wait, G: Gate, P: Pager, O: Origin> Caller for ProcessCaller<'_, R, G, P, O> {
    ghost asked = { λ _ _. Unit {0} };

    ghost lines = { λ c. commands_of c.pid O.script.lines };

    ghost may = { λ c n. O.answers c.pid n true ≡ true };

    fn born(&mut self) -> bool {
        self.shared.wait_for_birth(self.rt, self.pid)
    }

    fn before(&mut self, n: u64) -> bool {
        let may = self.gate.before(self.pid, n);
        if !may {
            self.shared.expire(self.rt, self.pid, n);
        }
        may
    }

    fn step(&mut self, n: u64, command: &Command) -> bool {
        self.shared.step(self.rt, self.index, self.pid, n, command)
    }

    fn after(&mut self, n: u64) {
        self.gate.after(self.pid, n);
    }

    fn leave(&mut self) {
        self.shared.end(self.rt, self.pid);
    }
}

/// Runs the process at an index of a run, from its birth to its end, or until the gate ends its thread.
pub(crate) fn run_process<R: Wait, G: Gate, P: Pager, O: Origin>(
    rt: &R,
    shared: &Shared<P, O>,
    gate: &G,
    index: usize,
    pid: u32,
    lines: &[Line],
)
    requires gate { G.answers gate.now ≡ O.answers }
    requires process { IsProcessAt O.script.processes index pid }
    requires lines { O.script.lines ≡ lines.now }
{
    let mut caller = ProcessCaller {
        rt,
        shared,
        gate,
        index,
        pid,
    };
    work(&mut caller, pid, lines);
}

#[derive(Drop)]
struct RoundFlusher<'a, R: Wait, G: Gate, P: Pager, O: Origin> {
    rt: &'a R,
    shared: &'a Shared<P, O>,
    gate: &'a G,
    ghost of_run: { G.answers gate.now ≡ O.answers },
}

impl<R: Wait, G: Gate, P: Pager, O: Origin> Flusher for RoundFlusher<'_, R, G, P, O> {
    ghost asked = { λ _ _. Unit {0} };

    ghost rounds = { λ _. length (rounds_of O.script.lines) };

    ghost may = { λ _ n. O.answers 0 n true ≡ true };

    fn before(&mut self, n: u64) -> bool {
        let may = self.gate.before(0, n);
        if !may {
            self.shared.expire(self.rt, 0, n);
        }
        may
    }

    fn round(&mut self, n: u64) {
        self.shared.flush(self.rt, n);
    }

    fn after(&mut self, n: u64) {
        self.gate.after(0, n);
    }
}

/// Makes the flush rounds of a run in order, or until the gate ends the flusher.
pub(crate) fn run_rounds<R: Wait, G: Gate, P: Pager, O: Origin>(
    rt: &R,
    shared: &Shared<P, O>,
    gate: &G,
    rounds: usize,
)
    requires gate { G.answers gate.now ≡ O.answers }
    requires rounds { rounds ≡ length (rounds_of O.script.lines) }
{
    let mut flusher = RoundFlusher { rt, shared, gate };
    flush_all(&mut flusher, rounds as u64);
}

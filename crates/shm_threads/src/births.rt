//! Which processes are born and which have left.
ghost use Rattle.std.specs.Prelude.{◌≡◌, map};
ghost use Rattle.shm_threads.specs.Births.{with_birth, with_end, is_born_in, may_fork_in};

use shm_base::{HostMemory, Process};
use std::alloc::Global;
use std::sync::Condvar;

/// Whether a process was born, and whether it has left.
#[derive(Clone, Copy, Debug, PartialEq, Eq)]
pub(crate) struct ProcessState {
    pid: u32,
    is_born: bool,
    has_ended: bool,
}

/// A birth or an end that was noted and not yet announced to the waiting threads. Announcing it is the only
/// way to use it up.
#[must_use]
pub(crate) struct News {
    is_noted: (),
}

impl News {
    /// Wakes all waiting threads.
    pub(crate) fn announce(self, changed: &Condvar) {
        let News { is_noted: () } = self;
        changed.notify_all();
    }
}

/// The state of each process before the run.
pub(crate) fn states(
    alloc: Global,
    processes: &[Process],
) -> Result<Vec<ProcessState>, HostMemory> {
    let mut states = Vec::with_capacity(alloc, processes.len())?;
    for process in processes {
        states.push(ProcessState {
            pid: process.pid,
            is_born: process.born.is_some(),
            has_ended: false,
        })?;
    }
    Ok(states)
}

/// Notes that a process is born.
pub(crate) fn note_birth(processes: &mut Vec<ProcessState>, pid: u32) -> News
    ensures { processes.new.items ≡ map (with_birth pid) processes.old.items }
{
    for process in processes.iter_mut() {
        if process.pid == pid {
            process.is_born = true;
        }
    }
    News { is_noted: () }
}

/// Notes that a process has left.
pub(crate) fn note_end(processes: &mut Vec<ProcessState>, pid: u32) -> News
    ensures { processes.new.items ≡ map (with_end pid) processes.old.items }
{
    for process in processes.iter_mut() {
        if process.pid == pid {
            process.has_ended = true;
        }
    }
    News { is_noted: () }
}

pub(crate) fn is_born(processes: &[ProcessState], pid: u32) -> bool
    ensures { result ≡ is_born_in pid processes.now }
{
    processes
        .iter()
        .any(|process| process.pid == pid && process.is_born)
}

/// Whether some process is born and has not left, so that it may still fork.
pub(crate) fn may_fork(processes: &[ProcessState]) -> bool
    ensures { result ≡ may_fork_in processes.now }
{
    processes
        .iter()
        .any(|process| process.is_born && !process.has_ended)
}

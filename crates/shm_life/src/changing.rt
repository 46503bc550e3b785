//! Counts of changes of pieces, so that a host knows when to read the pieces of a process again. The machine
//! keeps a fixed number of counts, and processes whose pids have the same remainder share one, so a process
//! that joins takes no memory for it. A count that rises without a change costs the host a look.
ghost use Rattle.std.specs.Prelude.{◌≡◌, ◌≢◌, ◌%◌, IfSome};
ghost use Rattle.shm_life.specs.Changing.{changed_by, changes_of, counted_after};
ghost use Rattle.shm_life.specs.declared.changing.TheConstants.{COUNTS};

use crate::system::System;
use shm_base::Call;
use shm_pager_core::Pager;

/// How many counts of changes a machine keeps.
pub const COUNTS: usize = 64;

// The process whose pieces a call of a process may change.
#[inline(always)]
fn changed_by(pid: u32, call: &Call) -> Option<u32>
    ensures { result ≡ changed_by pid call.now }
{
    match call {
        Call::Shmat { .. }
        | Call::Shmdt { .. }
        | Call::Exec
        | Call::Exit
        | Call::Munmap { .. }
        | Call::Mprotect { .. } => Some(pid),
        Call::Fork { child } => Some(*child),
        _ => None,
    }
}

// The place of a process's count.
#[inline(always)]
fn place_of(pid: u32) -> usize
    ensures { result ≡ pid % COUNTS }
{
    pid as usize % COUNTS
}

/// Counts a call of a process, if it may change the pieces of one.
#[inline(always)]
pub(crate) fn count_call(counts: &mut [u64; COUNTS], pid: u32, call: &Call)
    ensures counted { counts.new ≡ counted_after pid call.now counts.old }
    ensures rises { IfSome (changed_by pid call.now)
        (λ p. changes_of p counts.new ≢ changes_of p counts.old) }
{
    if let Some(changed) = changed_by(pid, call) {
        let place = place_of(changed);
        counts[place] = counts[place].wrapping_add(1);
    }
}

impl<P: Pager> System<P> {
    /// A number that rises with each call that may change the pieces of this process: its shmat, shmdt,
    /// munmap, mprotect, exec and exit, refused or not, and a fork of it. As long as it is the same, so are
    /// the pieces. Processes whose pids have the same remainder by [`COUNTS`] share a number.
    pub fn changes(&self, pid: u32) -> u64
        ensures { result ≡ changes_of pid self.now.changes }
    {
        self.changes[place_of(pid)]
    }
}

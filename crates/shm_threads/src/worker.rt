//! The work of a process's thread, independent of what makes its calls.
//!
//! A worker goes through the lines of the script, and asks its caller for each step. So it has the line of a call at hand
//! before its caller takes the lock. The worker's contract says what it asks for and in which order; the caller may do
//! anything.
ghost use Rattle.std.specs.Prelude.{◌≡◌, [], ◌∷◌, List, length, true, ℕ};
ghost use Rattle.shm_text.specs.Form.{CommandView};
ghost use Rattle.shm_threads.specs.Asked.{Asked, Adds, Born, Before, Stepped, After, Left};
ghost use Rattle.shm_threads.specs.Asked.{IsNth, IsWithin, RunsLines, Works};
ghost use Rattle.shm_threads.specs.Transcripts.{commands_of};

use crate::lines::command_of;
use shm_text::{Command, Line};

/// What makes a process's calls for its worker.
pub(crate) trait Caller {
    /// Whether these may be the requests so far.
    ghost asked: { Self → List Asked → Type 0 };

    /// The command lines of the process.
    ghost lines: { Self → List CommandView };

    /// Whether the process may make its n-th call.
    ghost may: { Self → ℕ → Type 0 };

    /// Waits until the process is born. False if it never will be.
    fn born(&mut self) -> bool
        ensures asked { Adds (asked self.old) (Born result ∷ []) (asked self.new) }
        ensures same { lines self.new ≡ lines self.old };

    /// Whether the process may make its n-th call. False ends its worker.
    fn before(&mut self, n: u64) -> bool
        requires { IsWithin n (length (lines self.old)) }
        ensures asked { Adds (asked self.old) (Before n result ∷ []) (asked self.new) }
        ensures may { result ≡ true → may self.new n }
        ensures same { lines self.new ≡ lines self.old };

    /// Makes the call of the process's next line, its n-th, which is this command. False if the process can't continue.
    fn step(&mut self, n: u64, command: &Command) -> bool
        requires may { may self.old n }
        requires line { IsNth (lines self.old) n command.now }
        ensures asked { Adds (asked self.old) (Stepped result ∷ []) (asked self.new) }
        ensures same { lines self.new ≡ lines self.old };

    /// Called after the process's n-th call.
    fn after(&mut self, n: u64)
        ensures asked { Adds (asked self.old) (After n ∷ []) (asked self.new) }
        ensures same { lines self.new ≡ lines self.old };

    /// Called when the process has left: no worker makes calls of it from now on.
    fn leave(&mut self)
        ensures { Adds (asked self.old) (Left ∷ []) (asked self.new) };
}

/// Runs the process with a pid, from its birth to its end, through the lines of the script. False if the gate ended it.
pub(crate) fn work<C: Caller>(caller: &mut C, pid: u32, lines: &[Line]) -> bool
    requires { C.lines caller.old ≡ commands_of pid lines.now }
    ensures { let count = length (commands_of pid lines.now) in
        Works (C.asked caller.old) (C.asked caller.new) count result }
{
    let is_whole = !caller.born() || run_lines(caller, pid, lines);
    caller.leave();
    is_whole
}

// Runs the lines of a born process. False if the gate ended it.
fn run_lines<C: Caller>(caller: &mut C, pid: u32, lines: &[Line]) -> bool
    requires { C.lines caller.old ≡ commands_of pid lines.now }
    ensures { let count = length (commands_of pid lines.now) in
        RunsLines (C.asked caller.old) (C.asked caller.new) count result }
{
    let mut n = 0u64;
    for line in lines {
        let Some(command) = command_of(line, pid) else {
            continue;
        };
        n += 1;
        if !caller.before(n) {
            return false;
        }
        let goes_on = caller.step(n, command);
        caller.after(n);
        if !goes_on {
            return true;
        }
    }
    true
}

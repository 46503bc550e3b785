//! A gate may hold a worker between its calls.
ghost use Rattle.std.specs.Prelude.{◌≡◌, ℕ, Bool, true};

/// A run calls its gate before and after each call of a worker, without the lock. The calls of a process are
/// counted from 1. So are the flusher's rounds; its pid is 0. A gate that waits for another worker should not
/// wait without bound: if the host refuses that worker's thread, it never arrives.
pub trait Gate: Sync {
    /// Whether the gate may give this answer before a thread's n-th call: that of a process, or the flusher with pid 0.
    ghost answers: { Self → ℕ → ℕ → Bool → Bool };

    /// Whether the worker may make its call. False ends the worker.
    fn before(&self, pid: u32, n: u64) -> bool
        ensures { answers self.now pid n result ≡ true };

    /// The call got its reply.
    fn after(&self, pid: u32, n: u64);
}

/// Lets every worker make every call.
#[derive(Clone, Copy, Debug)]
pub struct OpenGate;

impl Gate for OpenGate {
    ghost answers = { λ gate pid n may. may };

    fn before(&self, _pid: u32, _n: u64) -> bool {
        true
    }

    fn after(&self, _pid: u32, _n: u64) {}
}

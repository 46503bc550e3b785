//! The machine on which a search runs a script.
ghost use Rattle.std.specs.Prelude.{◌≡◌, ℕ, ◌+◌, ◌-◌, ◌<◌, ◌^◌, true, false, IfOk, OnErr, OnOk};
ghost use Rattle.shm_base.specs.History.{is_refusal};
ghost use Rattle.shm_base.specs.State.{Machine};
ghost use Rattle.shm_base.specs.Step.{step};
ghost use Rattle.shm_schedules.specs.Lacking.{may_lack_memory};
ghost use Rattle.shm_schedules.specs.Places.{place_of};
ghost use Rattle.shm_schedules.specs.Schedules.{is_live};

use shm_areas::Place;
use shm_base::{Call, HostMemory, Reply};

/// A machine that its callers see as the flat machine, and that can be copied.
pub trait Engine: Drop {
    /// The flat machine.
    ghost flat: { Self → Machine };

    /// The number of calls so far.
    ghost calls: { Self → ℕ };

    /// Whether a process is born and has not ended.
    fn is_live(&self, pid: u32) -> bool
        ensures { result ≡ is_live (flat self.now) pid };

    /// The byte that an address of a process denotes.
    fn place(&self, pid: u32, addr: u64) -> Option<Place>
        ensures { result ≡ place_of (flat self.now) pid addr };

    /// A second machine in the same state. Afterwards the two are independent. HostMemory: the host refused memory.
    fn snapshot(&self) -> Result<Self, HostMemory>
        ensures flat { IfOk result (λ copy. flat copy ≡ flat self.now) }
        ensures calls { IfOk result (λ copy. calls copy ≡ calls self.now) };

    /// A process's call, which is one step of the flat machine. HostMemory: the host refused memory. It occurs only
    /// for a shmget, a shmat, an access or a swapoff, and only if the flat machine does not refuse it; the machine's
    /// state is unknown then.
    fn call(&mut self, pid: u32, call: &Call) -> Result<Reply, HostMemory>
        requires room { calls self.old < 2 ^ 64 - 1 }
        ensures step { IfOk result (λ r. step (flat self.old) (calls self.old + 1) pid call.now
            ≡ record { reply = r; state = flat self.new }) }
        ensures calls { OnOk result (calls self.new ≡ calls self.old + 1) }
        ensures memory { OnErr result (may_lack_memory call.now ≡ true) }
        ensures instead { OnErr result (
            is_refusal (step (flat self.old) (calls self.old + 1) pid call.now).reply ≡ false) };
}

//! A system as an engine.
ghost use Rattle.std.specs.Prelude.{◌≡◌, length, map, IfErr, IfOk, OnOk, None};
ghost use Rattle.shm_base.specs.History.{is_failure};
ghost use Rattle.shm_life.specs.Start.{start_error, IsFirstError};
ghost use Rattle.shm_pager.specs.Sparse.{SparseView};
ghost use Rattle.shm_schedules.specs.Schedules.{is_live, start};

use crate::engine::Engine;
use shm_areas::Place;
use shm_base::{Call, Errno, HostMemory, Reply};
use shm_life::{StartError, System};
use shm_pager::SparsePager;
use shm_text::Script;
use std::alloc::Global;
use std::marker::Model;

/// A system whose host gives no time, so the time of each call is its place in the history. Its swap areas keep their
/// pages in memory, and fail only if the host refuses memory for a page.
pub struct Simulated {
    system: System<SparsePager>,
}

impl Drop for Simulated {
    fn drop(self) {
        let Simulated { system: _ } = self;
    }
}

impl Model for Simulated {
    ghost use Rattle.std.specs.Prelude.{◌≡◌, None};
    ghost use Rattle.shm_life.specs.SystemState.{SystemState};

    ghost Value = { SystemState };

    ghost view = { λ s. s.system };

    ghost invariant = { λ s. s.system.clock ≡ None };
}

impl Simulated {
    /// The system that a script opens over these swap areas. Fails with the first start error; the areas are
    /// dropped then.
    pub fn open(
        alloc: Global,
        script: &Script,
        areas: Vec<SparsePager>,
    ) -> Result<Simulated, StartError>
        ensures machine { let sizes = map (λ (p : SparseView). length p.pages) areas.items in
            IfOk result (λ s. s.machine ≡ (start script.now sizes).machine) }
        ensures calls { IfOk result (λ s. s.calls ≡ 0) }
        ensures ok { let sizes = map (λ (p : SparseView). length p.pages) areas.items in
            OnOk result (start_error script.now.limits sizes script.now.processes ≡ None) }
        ensures err { let sizes = map (λ (p : SparseView). length p.pages) areas.items in
            IfErr result (λ e. IsFirstError e (start_error script.now.limits sizes script.now.processes)) }
    {
        let system = System::start(alloc, script.limits, areas, &script.processes)?;
        Ok(Simulated { system })
    }
}

// Whether a reply reports a pager's failure.
fn is_failure(call: &Call, reply: &Reply) -> bool
    ensures { result ≡ is_failure call.now reply.now }
{
    match (call, reply) {
        (Call::Load { .. }, Reply::Refused(Errno::Sigbus)) => true,
        (Call::Store { .. }, Reply::Refused(Errno::Sigbus)) => true,
        (Call::Xadd { .. }, Reply::Refused(Errno::Sigbus)) => true,
        (Call::Exchange { .. }, Reply::Refused(Errno::Sigbus)) => true,
        (Call::CompareExchange { .. }, Reply::Refused(Errno::Sigbus)) => true,
        (Call::Swapoff { .. }, Reply::Refused(Errno::Eio)) => true,
        _ => false,
    }
}

#[tactic(auto, using(crate::proofs::Failing::failed_lacks, crate::proofs::Failing::is_excused, crate::proofs::Failing::takes_lacks))]
impl Engine for Simulated {
    ghost flat = { λ s. s.machine };

    ghost calls = { λ s. s.calls };

    fn is_live(&self, pid: u32) -> bool {
        self.system.spaces().caller(pid).is_some()
    }

    fn place(&self, pid: u32, addr: u64) -> Option<Place> {
        let spaces = self.system.spaces();
        let caller = spaces.caller(pid)?;
        spaces.space(&caller).place(addr)
    }

    fn snapshot(&self) -> Result<Simulated, HostMemory> {
        let system = self.system.try_clone()?;
        Ok(Simulated { system })
    }

    fn call(&mut self, pid: u32, call: &Call) -> Result<Reply, HostMemory> {
        let reply = self.system.call(pid, call)?;
        if is_failure(call, &reply) {
            return Err(HostMemory);
        }
        Ok(reply)
    }
}

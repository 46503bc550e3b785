//! Processes that join and leave between calls, and changes of credentials.
ghost use Rattle.std.specs.Prelude.{◌≡◌, ℕ, ◌≤◌, true, None, Some, IfSome, IfNone, IfOk, OnErr, IsOk, is_ok, is_some};
ghost use Rattle.shm_base.specs.Callers.{with_cred};
ghost use Rattle.shm_base.specs.Guest.{standing, joins, joins_beside, leaves, left_by};
ghost use Rattle.shm_base.specs.Segments.{attach_count};
ghost use Rattle.shm_base.specs.declared.bounds.TheConstants.{MOST_PROCESSES};
ghost use Rattle.shm_attach.specs.Guest.{found_as};
ghost use Rattle.shm_attach.specs.Spaces.{IsCaller, caller_seen};

use crate::changes::set_life_at;
use crate::process::{Caller, Life, Runner};
use crate::spaces::{Spaces, born};
use shm_areas::Space;
use shm_base::{AdmitRefusal, Cred, DismissRefusal, Errno, HostMemory, LAST_PID, Process};
use std::alloc::Global;

/// A process in any state: its index among the processes.
#[derive(Clone, Copy)]
pub(crate) struct Found {
    pub(crate) index: usize,
    pub(crate) life: Life,
}

impl Spaces {
    // The process with a pid.
    fn find(&self, pid: u32) -> Option<Found>
        ensures some { IfSome result (λ f. standing pid self.now.runners
            ≡ Some (found_as pid f self.now.runners)) }
        ensures none { IfNone result (standing pid self.now.runners ≡ None) }
    {
        let (index, _, runner) = self.processes.get_full(&pid)?;
        Some(Found {
            index,
            life: runner.life,
        })
    }

    /// A process joins, without pieces. If an ended process has its pid, the new one takes that one's place
    /// and needs no memory. Otherwise it comes after the others, of which there may be `most`, and takes
    /// memory for all its pieces. Errors: the refusals of `AdmitRefusal`; out of memory only if none of them
    /// applies, and then nothing changed.
    pub fn admit(
        &mut self,
        alloc: Global,
        process: &Process,
        most: u32,
    ) -> Result<Result<(), AdmitRefusal>, HostMemory>
        requires most { most ≤ MOST_PROCESSES }
        ensures joins { IfOk result (λ r. joins most process.now self.old.runners
            ≡ left_by r self.new.runners) }
        ensures refused { IfOk result (λ r. OnErr r (self.new ≡ self.old)) }
        ensures err { OnErr result (self.new ≡ self.old) }
        ensures memory { OnErr result (is_ok (joins most process.now self.old.runners) ≡ true) }
        ensures no_memory { is_some (standing process.now.pid self.old.runners) ≡ true → IsOk result }
        ensures rest { self.new ≡ record self.old { runners = self.new.runners } }
        ensures counts { (id : ℕ) → attach_count self.new.runners id ≡ attach_count self.old.runners id }
    {
        if process.pid < 1 || process.pid > LAST_PID {
            return Ok(Err(AdmitRefusal::BadPid));
        }
        if let Some(found) = self.find(process.pid) {
            return Ok(self.admit_again(process, &found));
        }
        if self.processes.len() >= most as usize {
            return Ok(Err(AdmitRefusal::TooManyProcesses));
        }
        let runner = Runner {
            life: born(process),
            space: Space::new(alloc, self.most)?,
        };
        self.processes.insert(process.pid, runner)?;
        Ok(Ok(()))
    }

    // A process takes the place of one that ended.
    fn admit_again(&mut self, process: &Process, found: &Found) -> Result<(), AdmitRefusal>
        requires { standing process.now.pid self.old.runners
            ≡ Some (found_as process.now.pid found.now self.old.runners) }
        ensures joins { let own = found_as process.now.pid found.now self.old.runners in
            joins_beside 0 process.now self.old.runners (Some own) ≡ left_by result self.new.runners }
        ensures refused { OnErr result (self.new ≡ self.old) }
        ensures rest { self.new ≡ record self.old { runners = self.new.runners } }
        ensures counts { (id : ℕ) → attach_count self.new.runners id ≡ attach_count self.old.runners id }
    {
        let Life::Ended = found.life else {
            return Err(AdmitRefusal::PidTaken);
        };
        set_life_at(&mut self.processes, found.index, born(process));
        Ok(())
    }

    /// A process that ended, or a child that is not born yet, leaves. The last process takes its place.
    pub fn dismiss(&mut self, pid: u32) -> Result<(), DismissRefusal>
        ensures leaves { leaves pid self.old.runners ≡ left_by result self.new.runners }
        ensures refused { OnErr result (self.new ≡ self.old) }
        ensures rest { self.new ≡ record self.old { runners = self.new.runners } }
        ensures counts { (id : ℕ) → attach_count self.new.runners id ≡ attach_count self.old.runners id }
    {
        let Some(found) = self.find(pid) else {
            return Err(DismissRefusal::NoProcess);
        };
        if let Life::Live(_) = found.life {
            return Err(DismissRefusal::StillLive);
        }
        self.processes.swap_remove_index(found.index);
        Ok(())
    }

    /// Gives a live process other credentials. Its pieces stay.
    pub fn set_cred(&mut self, caller: &Caller, cred: Cred)
        requires { IsCaller caller.now self.old.runners }
        ensures runners { self.new.runners
            ≡ with_cred self.old.runners (caller_seen caller.now self.old.runners) cred }
        ensures rest { self.new ≡ record self.old { runners = self.new.runners } }
        ensures counts { (id : ℕ) → attach_count self.new.runners id ≡ attach_count self.old.runners id }
    {
        set_life_at(&mut self.processes, caller.index, Life::Live(cred));
    }
}

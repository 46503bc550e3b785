//! Changes that a machine's host makes between calls: it admits and dismisses processes, and gives the time.
//! These are not calls, and move no page.
ghost use Rattle.std.specs.Prelude.{◌≡◌, Option, true, false, IfOk, OnErr, is_ok, is_some};
ghost use Rattle.shm_base.specs.Guest.{admits, dismisses, standing, left_by};
ghost use Rattle.shm_life.specs.Guest.{Admitted, Dismissed, IsNotAdmitted};

use crate::kernel::Kernel;
use crate::system::System;
use shm_base::{AdmitRefusal, DismissRefusal, HostMemory, Process};
use shm_pager_core::Pager;
use std::alloc::Global;

impl<P: Pager> Kernel<P> {
    fn admit(
        &mut self,
        alloc: Global,
        process: &Process,
    ) -> Result<Result<(), AdmitRefusal>, HostMemory>
        ensures outcome { IfOk result (λ r. admits self.old.flat process.now ≡ left_by r self.new.flat) }
        ensures refused { IfOk result (λ r. OnErr r (self.new ≡ self.old)) }
        ensures err { OnErr result (self.new ≡ self.old) }
        ensures granted { OnErr result (is_ok (admits self.old.flat process.now) ≡ true) }
        ensures new { OnErr result (is_some (standing process.now.pid self.old.flat.runners) ≡ false) }
        ensures memory { self.new.memory ≡ self.old.memory }
    {
        let most = self.limits.most_processes();
        self.spaces.admit(alloc, process, most)
    }

    fn dismiss(&mut self, pid: u32) -> Result<(), DismissRefusal>
        ensures outcome { dismisses self.old.flat pid ≡ left_by result self.new.flat }
        ensures refused { OnErr result (self.new ≡ self.old) }
        ensures memory { self.new.memory ≡ self.old.memory }
    {
        self.spaces.dismiss(pid)
    }
}

impl<P: Pager> System<P> {
    /// A process joins: live with its credentials, or as a child to be forked (fork(2)). If an ended process
    /// has its pid, the new one takes its place and its memory. Otherwise the machine takes memory for all
    /// pieces that the process may have. Errors: the refusals of [`AdmitRefusal`]; or the host refused
    /// memory, and nothing changed.
    pub fn admit(
        &mut self,
        alloc: Global,
        process: &Process,
    ) -> Result<Result<(), AdmitRefusal>, HostMemory>
        ensures ok { IfOk result (λ r. Admitted self.old process.now r self.new) }
        ensures err { OnErr result (IsNotAdmitted self.old process.now self.new) }
    {
        if let Err(refusal) = self.kernel.admit(alloc, process)? {
            return Ok(Err(refusal));
        }
        Ok(Ok(()))
    }

    /// A process that ended, or a child that is not born yet, leaves. Its pid can be used again, and its
    /// memory is returned. The last process takes its place.
    pub fn dismiss(&mut self, pid: u32) -> Result<(), DismissRefusal>
        ensures { Dismissed self.old pid result self.new }
    {
        self.kernel.dismiss(pid)?;
        Ok(())
    }

    /// Sets the time that calls note from now on, until another is given. With none it is again each call's
    /// place in the history.
    pub fn set_time(&mut self, time: Option<u64>)
        ensures { self.new ≡ record self.old { clock = time } }
    {
        self.clock = time;
    }
}

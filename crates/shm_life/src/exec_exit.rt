//! exec and exit remove all pieces of a process. Kept out of line, so that other calls do not pay for their
//! stack frames.
ghost use Rattle.shm_base.specs.declared.call.Call.TheVariants as call;
ghost use Rattle.shm_base.specs.declared.call.Reply.TheVariants.{Done};
ghost use Rattle.shm_attach.specs.Spaces.{IsCaller};
ghost use Rattle.shm_life.specs.MachineView.{Served};

use crate::kernel::Kernel;
use crate::sweep::after_detach;
use shm_attach::Caller;
use shm_pager_core::Pager;

impl<P: Pager> Kernel<P> {
    #[tactic(auto, using(crate::proofs::Running::kept_refl, crate::proofs::Running::pages_ended))]
    /// Detaches every piece (shmop(2)).
    #[inline(never)]
    pub(crate) fn exec(&mut self, time: u64, caller: &Caller)
        requires { IsCaller caller.now self.old.flat.runners }
        ensures { Served self.old time caller.now call.Exec Done self.new }
    {
        self.spaces.exec(caller);
        after_detach(
            &mut self.segments,
            &self.spaces,
            self.spaces.lost(),
            time,
            caller.pid,
        );
    }

    #[tactic(auto, using(crate::proofs::Running::kept_refl, crate::proofs::Running::pages_ended))]
    /// Detaches every piece, and ends the process.
    #[inline(never)]
    pub(crate) fn exit(&mut self, time: u64, caller: &Caller)
        requires { IsCaller caller.now self.old.flat.runners }
        ensures { Served self.old time caller.now call.Exit Done self.new }
    {
        self.spaces.exit(caller);
        after_detach(
            &mut self.segments,
            &self.spaces,
            self.spaces.lost(),
            time,
            caller.pid,
        );
    }
}

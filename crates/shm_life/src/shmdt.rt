//! shmdt removes what is left of an attach.
ghost use Rattle.shm_base.specs.declared.call.Call.TheVariants as call;
ghost use Rattle.shm_attach.specs.Spaces.{IsCaller};
ghost use Rattle.shm_life.specs.MachineView.{Served, replied, done};

use crate::kernel::Kernel;
use crate::sweep::after_detach;
use shm_attach::Caller;
use shm_base::Errno;
use shm_pager_core::Pager;

impl<P: Pager> Kernel<P> {
    #[tactic(auto, using(crate::proofs::Running::kept_refl, crate::proofs::Running::pages_rest))]
    /// Detaches what is left of an attach (shmop(2)). The lowest piece with this origin names the segment,
    /// and all pieces of that segment with this origin are removed (the origin is this profile's). Einval: no
    /// piece has this origin.
    pub(crate) fn shmdt(&mut self, time: u64, caller: &Caller, addr: u64) -> Result<(), Errno>
        requires { IsCaller caller.now self.old.flat.runners }
        ensures { Served self.old time caller.now (call.Shmdt addr) (replied done result) self.new }
    {
        let Some(seg) = self.spaces.detach(caller, addr) else {
            return Err(Errno::Einval);
        };
        after_detach(&mut self.segments, &self.spaces, &[seg], time, caller.pid);
        Ok(())
    }
}

//! swapoff takes a swap area away.
ghost use Rattle.std.specs.Prelude.{ℕ};
ghost use Rattle.shm_base.specs.declared.call.Call.TheVariants as call;
ghost use Rattle.shm_life.specs.MachineView.{Served, replied, done};

use crate::kernel::Kernel;
use shm_attach::Caller;
use shm_base::Errno;
use shm_pager_core::Pager;

impl<P: Pager> Kernel<P> {
    #[tactic(auto, using(crate::proofs::Running::kept_refl, crate::proofs::Running::pages_refused))]
    /// Takes a swap area away (swapoff(2)).
    ///
    /// - Eperm: the user is not 0.
    /// - Einval: there is no such area, or it is gone.
    /// - Enomem: the other areas have fewer slots than all segments have pages.
    /// - Eio: a pager failed; the area stays.
    pub(crate) fn swapoff(&mut self, caller: &Caller, area: u32) -> Result<(), Errno>
        ensures { (n : ℕ) → Served self.old n caller.now (call.Swapoff area) (replied done result) self.new }
    {
        if caller.cred.uid != 0 {
            return Err(Errno::Eperm);
        }
        let swap = self.segments.store().swap();
        let Some(size) = swap.size(area) else {
            return Err(Errno::Einval);
        };
        if swap.capacity() < self.segments.reserved() + u64::from(size) {
            return Err(Errno::Enomem);
        }
        if self.segments.move_off(area).is_err() {
            return Err(Errno::Eio);
        }
        Ok(())
    }
}

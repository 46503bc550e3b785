//! A second store in the same state.
ghost use Rattle.std.specs.Prelude.{◌≡◌, IfOk};

use crate::store::PageStore;
use shm_base::HostMemory;
use shm_pager_core::ClonePager;

impl<P: ClonePager> PageStore<P> {
    /// A copy of the store: the same bytes, each page in the same place, and pagers of its own that read and
    /// write as these will. It reserves memory as for this store, and does not walk frames and slots that
    /// were never used. HostMemory: the host refused memory.
    pub fn try_clone(&self) -> Result<PageStore<P>, HostMemory>
        ensures { IfOk result (λ copy. copy ≡ self.now) }
    {
        Ok(PageStore {
            segs: self.segs.try_clone()?,
            frames: self.frames.try_clone()?,
            hand: self.hand,
            skips: self.skips.try_clone()?,
            swap: self.swap.try_clone()?,
            ins: self.ins,
            outs: self.outs,
        })
    }
}

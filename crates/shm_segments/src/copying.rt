//! A copy of the segments, for a snapshot of a machine.
ghost use Rattle.std.specs.Prelude.{◌≡◌, IfOk};

use crate::segments::Segments;
use shm_base::HostMemory;
use shm_pager_core::ClonePager;

impl<P: ClonePager> Segments<P> {
    /// A copy of the segments, with their own memory and swap areas. HostMemory: the host refused memory.
    pub fn try_clone(&self) -> Result<Segments<P>, HostMemory>
        ensures { IfOk result (λ copy. copy ≡ self.now) }
    {
        Ok(Segments {
            table: self.table.try_clone()?,
            store: self.store.try_clone()?,
            reserved: self.reserved,
            locked: self.locked,
        })
    }
}

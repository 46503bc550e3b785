//! Adds swap areas while the store is in use.
ghost use Rattle.std.specs.Prelude.{◌≡◌, ◌<◌, length, OnErr, OnOk};
ghost use Rattle.shm_base.specs.declared.bounds.TheConstants.{MOST_AREAS};
ghost use Rattle.shm_pager_core.specs.Pages.{pager_seen};
ghost use Rattle.shm_slots.specs.View.{IsAreaSize, fresh, with_new};
ghost use Rattle.shm_fault.specs.Sound.{IsStoreSound};
ghost use Rattle.shm_fault.specs.Store.{held};

use crate::store::PageStore;
use shm_base::HostMemory;
use shm_pager_core::Pager;
use std::alloc::Global;

impl<P: Pager> PageStore<P> {
    /// One more swap area, with the next number; none of its slots is owned. No byte changes, and no page moves.
    /// HostMemory: the host refused memory, and nothing changed.
    pub fn add_area(&mut self, alloc: Global, pager: P) -> Result<(), HostMemory>
        requires few { length self.old.swap.areas < MOST_AREAS }
        requires size { IsAreaSize (length (P.content pager)) }
        ensures ok { let area = fresh (pager_seen P.content P.failed P.most P.calls pager) in
            OnOk result (self.new ≡ record self.old { swap = with_new self.old.swap area }) }
        ensures held { held self.new ≡ held self.old }
        ensures err { OnErr result (self.new ≡ self.old) }
        ensures sound { IsStoreSound self.new }
    {
        self.swap.add(alloc, pager)
    }
}

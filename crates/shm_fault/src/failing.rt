//! Failures that are added while the store is in use.
ghost use Rattle.std.specs.Prelude.{◌≡◌, OnErr, OnOk};
ghost use Rattle.shm_slots.specs.Failing.{FailsInSwap, IsRefusedIn};
ghost use Rattle.shm_slots.specs.View.{area_at, sizes};
ghost use Rattle.shm_fault.specs.Failing.{IsRefusedSlot, slot_failed};
ghost use Rattle.shm_fault.specs.Segs.{rec_by};
ghost use Rattle.shm_fault.specs.Sound.{IsStoreSound};
ghost use Rattle.shm_fault.specs.Store.{held};

use crate::store::PageStore;
use shm_base::PageRef;
use shm_pager_core::{ComingFailure, FailPager, FailRefused};

impl<P: FailPager> PageStore<P> {
    /// Makes a call of an area to come fail, as [`Swap::fail`](shm_slots::Swap::fail) does. No byte changes, and
    /// no page moves.
    pub fn fail(&mut self, area: u32, failure: &ComingFailure) -> Result<(), FailRefused>
        ensures ok { OnOk result (FailsInSwap failure.now area self.old.swap self.new.swap) }
        ensures rest { self.new ≡ record self.old { swap = self.new.swap } }
        ensures held { held self.new ≡ held self.old }
        ensures sizes { sizes self.new.swap ≡ sizes self.old.swap }
        ensures err { OnErr result (self.new ≡ self.old) }
        ensures cause { IsRefusedIn (area_at self.old.swap area) failure.now result }
        ensures sound { IsStoreSound self.new }
    {
        self.swap.fail(area, failure)
    }

    /// Makes each read of the slot in which a page lies fail until the slot is written or freed. No byte
    /// changes, and no page moves. `NotThere`: the page is in no slot. Refused so, or with `HostMemory`, nothing
    /// changes.
    pub fn fail_page(&mut self, page: PageRef) -> Result<(), FailRefused>
        ensures ok { let slot = (rec_by self.old.segs page).slot in
            OnOk result (self.new ≡ record self.old { swap = slot_failed slot self.old.swap }) }
        ensures held { held self.new ≡ held self.old }
        ensures sizes { sizes self.new.swap ≡ sizes self.old.swap }
        ensures err { OnErr result (self.new ≡ self.old) }
        ensures cause { IsRefusedSlot (rec_by self.old.segs page).slot result }
        ensures sound { IsStoreSound self.new }
    {
        let Some(slot) = self.segs.page(page).slot else {
            return Err(FailRefused::NotThere);
        };
        match self.swap.fail_slot(slot) {
            Ok(()) => Ok(()),
            Err(_) => Err(FailRefused::HostMemory),
        }
    }
}

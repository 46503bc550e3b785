//! Failures that are added while the segments are in use.
ghost use Rattle.std.specs.Prelude.{◌≡◌, OnErr, OnOk};
ghost use Rattle.shm_slots.specs.Failing.{FailsInSwap, IsRefusedIn};
ghost use Rattle.shm_slots.specs.View.{area_at, sizes};
ghost use Rattle.shm_fault.specs.Failing.{IsRefusedSlot, slot_failed};
ghost use Rattle.shm_fault.specs.Segs.{rec_by};
ghost use Rattle.shm_fault.specs.Store.{held};

use crate::segments::Segments;
use shm_base::PageRef;
use shm_pager_core::{ComingFailure, FailPager, FailRefused};

impl<P: FailPager> Segments<P> {
    /// Makes a call of an area to come fail, as [`PageStore::fail`](shm_fault::PageStore::fail) does.
    pub fn fail(&mut self, area: u32, failure: &ComingFailure) -> Result<(), FailRefused>
        ensures ok { OnOk result
            (FailsInSwap failure.now area self.old.memory.swap self.new.memory.swap) }
        ensures memory { self.new.memory ≡ record self.old.memory { swap = self.new.memory.swap } }
        ensures table { self.new.table ≡ self.old.table }
        ensures held { held self.new.memory ≡ held self.old.memory }
        ensures sizes { sizes self.new.memory.swap ≡ sizes self.old.memory.swap }
        ensures err { OnErr result (self.new ≡ self.old) }
        ensures cause { IsRefusedIn (area_at self.old.memory.swap area) failure.now result }
    {
        self.store.fail(area, failure)
    }

    /// Makes each read of the slot in which a page lies fail, as
    /// [`PageStore::fail_page`](shm_fault::PageStore::fail_page) does.
    pub fn fail_page(&mut self, page: PageRef) -> Result<(), FailRefused>
        ensures ok { let slot = (rec_by self.old.memory.segs page).slot in
            OnOk result (self.new.memory
            ≡ record self.old.memory { swap = slot_failed slot self.old.memory.swap }) }
        ensures memory { self.new.memory ≡ record self.old.memory { swap = self.new.memory.swap } }
        ensures table { self.new.table ≡ self.old.table }
        ensures held { held self.new.memory ≡ held self.old.memory }
        ensures sizes { sizes self.new.memory.swap ≡ sizes self.old.memory.swap }
        ensures err { OnErr result (self.new ≡ self.old) }
        ensures cause { IsRefusedSlot (rec_by self.old.memory.segs page).slot result }
    {
        self.store.fail_page(page)
    }
}

//! Failures of swap areas that the host adds to a running machine. No process calls this.
ghost use Rattle.std.specs.Prelude.{◌≡◌, OnErr, OnOk};
ghost use Rattle.shm_slots.specs.Failing.{FailsInSwap, IsRefusedIn};
ghost use Rattle.shm_slots.specs.View.{area_at};
ghost use Rattle.shm_fault.specs.Store.{held};
ghost use Rattle.shm_life.specs.Failing.{FailsPage, IsFailing, IsRefusedPage, page_failed};

use crate::kernel::Kernel;
use crate::system::System;
use shm_base::PageRef;
use shm_pager_core::{ComingFailure, FailPager, FailRefused};

/// Why reads of a page's slot can't be made to fail.
#[derive(Clone, Copy, Debug, PartialEq, Eq)]
pub enum PageNotFailed {
    /// No segment has the identifier.
    NoSegment,
    /// The segment has no such page.
    NoPage,
    /// The page is in no slot.
    NoSlot,
    /// The host refused memory.
    HostMemory,
}

impl<P: FailPager> Kernel<P> {
    fn fail(&mut self, area: u32, failure: &ComingFailure) -> Result<(), FailRefused>
        ensures ok { OnOk result
            (FailsInSwap failure.now area self.old.memory.swap self.new.memory.swap) }
        ensures rest { self.new
            ≡ record self.old { memory = record self.old.memory { swap = self.new.memory.swap } } }
        ensures held { held self.new.memory ≡ held self.old.memory }
        ensures err { OnErr result (self.new ≡ self.old) }
        ensures cause { IsRefusedIn (area_at self.old.memory.swap area) failure.now result }
    {
        self.segments.fail(area, failure)
    }

    fn fail_page(&mut self, page: PageRef) -> Result<(), PageNotFailed>
        ensures ok { OnOk result (self.new.memory.swap ≡ page_failed page self.old.memory) }
        ensures rest { self.new
            ≡ record self.old { memory = record self.old.memory { swap = self.new.memory.swap } } }
        ensures held { held self.new.memory ≡ held self.old.memory }
        ensures err { OnErr result (self.new ≡ self.old) }
        ensures cause { IsRefusedPage page self.old result }
    {
        let Some(found) = self.segments.find(page.seg) else {
            return Err(PageNotFailed::NoSegment);
        };
        if page.page >= found.pages() {
            return Err(PageNotFailed::NoPage);
        }
        match self.segments.fail_page(page) {
            Ok(()) => Ok(()),
            Err(FailRefused::NotThere) => Err(PageNotFailed::NoSlot),
            Err(FailRefused::HostMemory) => Err(PageNotFailed::HostMemory),
        }
    }
}

impl<P: FailPager> System<P> {
    /// Makes a call of a swap area to come fail; if it is lasting, each later one too. No byte changes, and no
    /// page moves. `NotThere`: the area is gone or never was, it does not have the side, or the call is 0.
    /// Refused so, or with `HostMemory`, nothing changes.
    pub fn fail(&mut self, area: u32, failure: &ComingFailure) -> Result<(), FailRefused>
        ensures { IsFailing area failure.now self.old result self.new }
    {
        self.kernel.fail(area, failure)
    }

    /// Makes each read of the slot in which a page lies fail, until the slot is written or freed. No byte
    /// changes, and no page moves. Refused with the first [`PageNotFailed`] that applies; then nothing changes.
    pub fn fail_page(&mut self, page: PageRef) -> Result<(), PageNotFailed>
        ensures { FailsPage page self.old result self.new }
    {
        self.kernel.fail_page(page)
    }
}

//! Removes swap areas, after moving their pages to the other areas.
ghost use Rattle.std.specs.Prelude.{◌≡◌, true};
ghost use Rattle.shm_slots.specs.View.{HasSlot, area_at};
ghost use Rattle.shm_fault.specs.Moving.{FitOutside, Clears, MovesOff};

use crate::page_tables::PageRec;
use crate::store::PageStore;
use crate::touched::{PagerFailed, Touched};
use shm_base::Slot;
use shm_pager_core::{Pager, PagerFault};

impl<P: Pager> PageStore<P> {
    // Makes a slot free, by moving its page: a resident page gives the slot back, and is dirty; any other
    // moves to another area.
    fn clear_slot(&mut self, slot: Slot) -> Result<(), PagerFault>
        requires there { HasSlot self.old.swap slot.area slot.slot }
        requires room { FitOutside self.old slot.area }
        ensures { Clears slot self.old self.new result }
    {
        let Some(page) = self.swap.owner(slot) else {
            return Ok(());
        };
        let Some(frame) = self.segs.page(page).frame else {
            let to = self.swap.relocate(page, slot)?;
            self.segs.set_page(
                page,
                PageRec {
                    frame: None,
                    slot: Some(to),
                },
            );
            return Ok(());
        };
        self.swap.give_slot(slot);
        self.frames.set_dirty(frame, true);
        self.segs.set_page(
            page,
            PageRec {
                frame: Some(frame),
                slot: None,
            },
        );
        Ok(())
    }

    /// Removes a swap area after its pages have moved, in the order of their slots. A resident page gives its
    /// slot back and is dirty; any other is read and written to the least free slot of the lowest-numbered
    /// other area that has one. Neither counts as a page that came in or went out. If a pager fails, the area
    /// stays, and so do the pages that have moved already. Precondition: the area is active, and the others
    /// have a slot for each page of each segment.
    pub fn move_off(&mut self, area: u32) -> Result<(), PagerFailed>
        requires there { (area_at self.old.swap area).here ≡ true }
        requires room { FitOutside self.old area }
        ensures { MovesOff area self.old self.new result }
    {
        let count = self.swap.size(area).unwrap_or(0);
        for slot in 0..count {
            let Ok(()) = self.clear_slot(Slot { area, slot }) else {
                return Err(PagerFailed {
                    touched: Touched::none(),
                });
            };
        }
        self.swap.turn_off(area);
        Ok(())
    }
}

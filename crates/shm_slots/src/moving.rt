//! Moves the page of a slot to another area.
ghost use Rattle.std.specs.Prelude.{◌≡◌};
ghost use Rattle.shm_slots.specs.View.{HasSlot, IsSwap, page_in};
ghost use Rattle.shm_slots.specs.Moving.{HasFreeOutside, Relocates};

use crate::swap::Swap;
use shm_base::{PAGE_BYTES, PageRef, Slot, zeros};
use shm_pager_core::{Pager, PagerFault};

impl<P: Pager> Swap<P> {
    // Writes a page to the least free slot of the lowest-numbered other area that has one, and gives its slot
    // back. If the write fails, it gives the new slot back.
    fn write_outside(
        &mut self,
        page: PageRef,
        from: Slot,
        bytes: &[u8; PAGE_BYTES],
    ) -> Result<Slot, PagerFault>
        requires there { HasSlot self.old from.area from.slot }
        requires room { HasFreeOutside self.old from.area }
        requires bytes { page_in self.old from.area from.slot ≡ bytes.now }
        requires sound { IsSwap self.old }
        ensures { Relocates page from self.old self.new result }
    {
        let Some(to) = self.take_outside(page, from.area) else {
            unreachable!();
        };
        match self.write_slot(to, bytes) {
            Ok(()) => {
                self.give_slot(from);
                Ok(to)
            }
            Err(fault) => {
                self.give_slot(to);
                Err(fault)
            }
        }
    }

    /// Moves a page from its slot to the least free slot of the lowest-numbered other area that has one. If a
    /// pager fails, the page stays. Out of line, so that other calls need no room for a page on their stack.
    #[inline(never)]
    pub fn relocate(&mut self, page: PageRef, from: Slot) -> Result<Slot, PagerFault>
        requires there { HasSlot self.old from.area from.slot }
        requires room { HasFreeOutside self.old from.area }
        ensures { Relocates page from self.old self.new result }
    {
        let mut bytes = zeros();
        self.read_slot(from, &mut bytes)?;
        self.write_outside(page, from, &bytes)
    }
}

//! Drops segments, and frees their frames and slots.
ghost use Rattle.std.specs.Prelude.{◌≡◌, ◌<◌, ◌≤◌, true};
ghost use Rattle.shm_fault.specs.Held.{is_held};
ghost use Rattle.shm_slots.specs.View.{IsSwap};
ghost use Rattle.shm_slots.specs.Cause.{IsSteady};
ghost use Rattle.shm_fault.specs.Segs.{count_by_id, HasPage};
ghost use Rattle.shm_fault.specs.Store.{held};
ghost use Rattle.shm_fault.specs.Dropping.{emptied, Given, FrameThere, SlotThere, Forgets, DropsOn, Drops};

use crate::page_tables::PageRec;
use crate::store::PageStore;
use shm_base::{FrameNo, PageRef, Slot};
use shm_frames::Frames;
use shm_pager_core::Pager;
use shm_slots::Swap;

// Makes a page's frame free, if it has one.
fn empty_frame(frames: &mut Frames, frame: Option<FrameNo>)
    requires { FrameThere frames.old frame }
    ensures { frames.new ≡ emptied frames.old frame }
{
    if let Some(frame) = frame {
        frames.empty(frame);
    }
}

// Gives a page's slot back, if it has one.
fn free_slot<P: Pager>(swap: &mut Swap<P>, slot: Option<Slot>)
    requires there { SlotThere swap.old slot }
    requires sound { IsSwap swap.old }
    ensures given { Given swap.old slot swap.new }
    ensures steady { IsSteady swap.old swap.new }
    ensures sound { IsSwap swap.new }
{
    if let Some(slot) = slot {
        swap.give_slot(slot);
    }
}

impl<P: Pager> PageStore<P> {
    // Takes a page out of its frame and its slot. Its bytes are zeros then.
    fn forget(&mut self, page: PageRef)
        requires { HasPage self.old.segs page }
        ensures { Forgets page self.old self.new }
    {
        let place = self.segs.page(page);
        if place == PageRec::NOWHERE {
            return;
        }
        empty_frame(&mut self.frames, place.frame);
        free_slot(&mut self.swap, place.slot);
        self.segs.set_page(page, PageRec::NOWHERE);
    }

    // Frees the frame and the slot of the first page of a segment, from `first` up to `last`, that has
    // either. Returns the number of the page after it; `last` if no page has one.
    fn forget_next(&mut self, first: PageRef, last: u32) -> u32
        requires more { first.page < last }
        requires there { last ≤ count_by_id self.old.segs first.seg }
        ensures on { first.page < result }
        ensures within { result ≤ last }
        ensures drops { DropsOn first.seg first.page result self.old self.new }
    {
        let page = self.segs.next_placed(first, last);
        if page == last {
            return last;
        }
        self.forget(PageRef {
            seg: first.seg,
            page,
        });
        page + 1
    }

    /// Drops a segment, and frees the frames and slots of its pages. No pager reads or writes a page, and
    /// nothing is counted. The bytes of other segments stay, and nothing else changes if no page of the
    /// segment has a frame or a slot. Precondition: the store has the segment.
    pub fn drop_segment(&mut self, seg: u32)
        requires there { is_held (held self.old) seg ≡ true }
        ensures { Drops seg self.old self.new }
    {
        let count = self.segs.count(seg);
        let mut page = 0;
        while page < count {
            page = self.forget_next(PageRef { seg, page }, count);
        }
        self.segs.remove(seg);
    }
}

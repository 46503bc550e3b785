//! Pages that come into a frame and leave it. Each step here keeps all bytes of all segments.
ghost use Rattle.std.specs.Prelude.{◌≡◌, ℕ, ◌+◌, ◌<◌, ◌≤◌, ◌^◌, true, false, length, Option, Some, None, is_ok, IfOk, OnOk, OnErr, IsSome, MatchOption};
ghost use Rattle.shm_base.specs.declared.bounds.TheConstants.{MOST_FRAMES};
ghost use Rattle.shm_slots.specs.View.{HasSlot};
ghost use Rattle.shm_frames.specs.Frame.{frame_at, OwnedBelow};
ghost use Rattle.shm_clock.specs.Turning.{CanTurn, FindsVictim};
ghost use Rattle.shm_fault.specs.Segs.{rec_by, HasPage};
ghost use Rattle.shm_fault.specs.Store.{slot_bytes};
ghost use Rattle.shm_fault.specs.Placing.{places, settled, referenced, after_visit, StopsAt};
ghost use Rattle.shm_fault.specs.Access.{Visited};
ghost use Rattle.shm_fault.specs.Counting.{counted};
ghost use Rattle.shm_fault.specs.Paging.{FillsFrom, NamesVictim, FindsSlot, Leaves, Loads, WritesBack, PagesOut, Cleans, Evicts, MakesRoom, ComesIn};
ghost use Rattle.shm_fault.specs.Goes.{Visits, IsSeenIn, OnlyMoves, IsSlotOf, referenced_at, unlocked, frame_by};

use crate::page_tables::{PageRec, PageTables};
use crate::store::PageStore;
use crate::touched::{PageMove, Touched};
use shm_base::{FrameNo, PageRef, Slot};
use shm_clock::victim;
use shm_frames::{Frames, Looks, Skips};
use shm_pager_core::{Pager, PagerFault};
use shm_slots::Swap;

// A frame that its page left, and whether the page was written for that.
#[derive(Clone, Copy)]
struct Evicted {
    frame: FrameNo,
    page: PageRef,
    written: bool,
}

// The frame whose page is evicted next, by the clock, among the pages of segments that are not locked. The
// hand skips blocks of locked pages.
fn choose(
    segs: &PageTables,
    frames: &mut Frames,
    hand: &mut FrameNo,
    skips: &mut Skips,
    pinned: Option<FrameNo>,
) -> FrameNo
    requires few { length frames.old ≤ MOST_FRAMES }
    requires turn { CanTurn (unlocked segs.now) pinned hand.old frames.old skips.old }
    ensures { FindsVictim (unlocked segs.now) pinned hand.old hand.new
        frames.old frames.new skips.new result }
{
    let eligible = |page: PageRef| !segs.is_locked(page.seg);
    victim(frames, hand, &eligible, pinned, &mut Looks::new(), skips)
}

// Fills a frame with a page's bytes: those of its slot, read straight into the frame, or zeros.
fn fill_from<P: Pager>(
    frames: &mut Frames,
    swap: &mut Swap<P>,
    frame: FrameNo,
    slot: Option<Slot>,
) -> Result<(), PagerFault>
    requires there { frame < length frames.old }
    requires slot { MatchOption slot (Unit {0}) (λ k. HasSlot swap.old k.area k.slot) }
    ensures { FillsFrom frame slot frames.old frames.new swap.old swap.new result }
{
    match slot {
        Some(slot) => swap.read_slot(slot, frames.bytes_mut(frame)),
        None => {
            frames.clear(frame);
            Ok(())
        }
    }
}

impl<P: Pager> PageStore<P> {
    // The slot of the page in a dirty frame. If it has none, it gets the lowest free slot of the first area
    // that has one.
    fn slot_for(&mut self, frame: FrameNo) -> Slot
        requires there { frame < length self.old.frames }
        requires owned { IsSome (frame_at self.old.frames frame).owner }
        requires dirty { (frame_at self.old.frames frame).dirty ≡ true }
        ensures { FindsSlot frame self.old self.new result }
    {
        let page = self.frames.resident_page(frame);
        let place = self.segs.page(page);
        if let Some(slot) = place.slot {
            return slot;
        }
        let Some(slot) = self.swap.take_slot(page) else {
            unreachable!();
        };
        self.segs.set_page(
            page,
            PageRec {
                frame: place.frame,
                slot: Some(slot),
            },
        );
        slot
    }

    // Writes a frame to the slot of its page. If that fails, the frame stays dirty.
    fn write_back(&mut self, frame: FrameNo, slot: Slot) -> Result<(), PagerFault>
        requires there { frame < length self.old.frames }
        requires owned { IsSome (frame_at self.old.frames frame).owner }
        requires dirty { (frame_at self.old.frames frame).dirty ≡ true }
        requires slot { IsSlotOf (frame_at self.old.frames frame).owner self.old.segs slot }
        ensures { WritesBack frame self.old self.new result }
    {
        self.swap.write_slot(slot, self.frames.bytes(frame))?;
        self.frames.set_dirty(frame, false);
        self.outs = self.outs.saturating_add(1);
        Ok(())
    }

    /// Writes a dirty frame to the slot of its page, or to the lowest free slot of the first area that has
    /// one. If the write fails, the frame stays dirty and the page keeps that slot.
    pub(crate) fn page_out(&mut self, frame: FrameNo) -> Result<(), PagerFault>
        requires there { frame < length self.old.frames }
        requires owned { IsSome (frame_at self.old.frames frame).owner }
        requires dirty { (frame_at self.old.frames frame).dirty ≡ true }
        ensures { PagesOut frame self.old self.new result }
    {
        let slot = self.slot_for(frame);
        self.write_back(frame, slot)
    }

    // Takes the page out of a clean frame.
    fn vacate(&mut self, frame: FrameNo) -> PageRef
        requires there { frame < length self.old.frames }
        requires owned { IsSome (frame_at self.old.frames frame).owner }
        requires clean { (frame_at self.old.frames frame).dirty ≡ false }
        ensures { Leaves frame self.old self.new result }
    {
        let page = self.frames.resident_page(frame);
        self.frames.empty(frame);
        self.segs.set_frame(page, None);
        page
    }

    // The frame whose page is evicted if none is free. Referenced bits may become clear, but not that of the
    // pinned frame.
    fn turn(&mut self, pinned: Option<FrameNo>) -> FrameNo
        requires full { OwnedBelow self.old.frames (length self.old.frames) }
        ensures { NamesVictim pinned self.old self.new result }
    {
        choose(
            &self.segs,
            &mut self.frames,
            &mut self.hand,
            &mut self.skips,
            pinned,
        )
    }

    // Writes a frame if it is dirty, and returns whether it was.
    fn clean(&mut self, frame: FrameNo) -> Result<bool, PagerFault>
        requires there { frame < length self.old.frames }
        requires owned { IsSome (frame_at self.old.frames frame).owner }
        ensures { Cleans frame self.old self.new result }
    {
        if !self.frames.is_dirty(frame) {
            return Ok(false);
        }
        self.page_out(frame)?;
        Ok(true)
    }

    // Makes a frame free: its page leaves it. If the page's write fails, the page stays. The hand is then
    // after that frame, also after a failure.
    fn evict(&mut self, pinned: Option<FrameNo>) -> Result<Evicted, PagerFault>
        requires full { OwnedBelow self.old.frames (length self.old.frames) }
        ensures { Evicts pinned self.old self.new result }
    {
        let frame = self.turn(pinned);
        let written = self.clean(frame)?;
        let page = self.vacate(frame);
        Ok(Evicted {
            frame,
            page,
            written,
        })
    }

    // Fills a free frame with a page's bytes. If the read fails, the frame stays free.
    fn load(&mut self, frame: FrameNo, slot: Option<Slot>) -> Result<(), PagerFault>
        requires there { frame < length self.old.frames }
        requires free { (frame_at self.old.frames frame).owner ≡ None }
        requires slot { MatchOption slot (Unit {0}) (λ k. HasSlot self.old.swap k.area k.slot) }
        ensures { Loads frame slot self.old self.new result }
    {
        fill_from(&mut self.frames, &mut self.swap, frame, slot)?;
        self.ins = self.ins.saturating_add(u64::from(slot.is_some()));
        Ok(())
    }

    // Gives a free frame that has a page's bytes to the page, which keeps its slot if it has one. The frame's
    // block is not skipped any more, because the page may be one that may go.
    fn settle(&mut self, frame: FrameNo, page: PageRef)
        requires there { frame < length self.old.frames }
        requires free { (frame_at self.old.frames frame).owner ≡ None }
        requires has { HasPage self.old.segs page }
        requires away { frame_by self.old page ≡ None }
        requires bytes { let slot = (rec_by self.old.segs page).slot in
            (frame_at self.old.frames frame).bytes ≡ slot_bytes self.old.swap slot }
        ensures came { OnlyMoves page (Some frame) self.old self.new }
        ensures bit { (frame_at self.new.frames frame).referenced ≡ true }
        ensures placed { places self.new ≡ settled page frame (places self.old) }
        ensures rest { self.new ≡ record self.old { segs = self.new.segs; frames = self.new.frames } }
        ensures visits { (pinned : Option ℕ) → Visits page pinned self.old self.new }
    {
        self.skips.forget(frame);
        self.frames.fill(frame, page);
        self.frames.set_referenced(frame, true);
        self.segs.set_frame(page, Some(frame));
    }

    // Brings a page into a free frame. If the read fails, the page stays where it is.
    fn come_in(
        &mut self,
        frame: FrameNo,
        page: PageRef,
        touched: &mut Touched,
    ) -> Result<(), PagerFault>
        requires there { frame < length self.old.frames }
        requires free { (frame_at self.old.frames frame).owner ≡ None }
        requires has { HasPage self.old.segs page }
        requires away { frame_by self.old page ≡ None }
        requires room { length touched.old.moved.items < 4 }
        requires small { touched.old.ins < 2 ^ 32 }
        ensures { ComesIn frame page self.old self.new touched.old touched.new result }
    {
        let slot = self.segs.page(page).slot;
        self.load(frame, slot)?;
        self.settle(frame, page);
        touched.ins += u64::from(slot.is_some());
        touched.moved.push(PageMove::Came(page, frame));
        Ok(())
    }

    // A free frame: the first one, or that of the page that is evicted.
    fn take_frame(
        &mut self,
        pinned: Option<FrameNo>,
        touched: &mut Touched,
    ) -> Result<FrameNo, PagerFault>
        requires room { length touched.old.moved.items < 4 }
        requires small { touched.old.outs < 2 ^ 32 }
        ensures { MakesRoom pinned self.old self.new touched.old touched.new result }
    {
        if let Some(frame) = self.frames.free_frame() {
            return Ok(frame);
        }
        let evicted = self.evict(pinned)?;
        touched.outs += u64::from(evicted.written);
        touched.moved.push(PageMove::Gone(evicted.page));
        Ok(evicted.frame)
    }

    // Brings in a page that is not resident.
    #[inline(never)]
    fn fault(
        &mut self,
        page: PageRef,
        pinned: Option<FrameNo>,
        touched: &mut Touched,
    ) -> Result<FrameNo, PagerFault>
        requires has { HasPage self.old.segs page }
        requires away { frame_by self.old page ≡ None }
        requires room { length touched.old.moved.items ≤ 2 }
        requires small { (touched.old.ins < 2 ^ 32) × (touched.old.outs < 2 ^ 32) }
        ensures { Visited page pinned None self.old self.new touched.old touched.new result }
    {
        let frame = self.take_frame(pinned, touched)?;
        self.come_in(frame, page, touched)?;
        Ok(frame)
    }

    // Sets the referenced bit of a resident page's frame.
    #[inline(always)]
    fn touch(&mut self, page: PageRef, frame: FrameNo)
        requires here { frame_by self.old page ≡ Some frame }
        ensures bit { referenced_at self.new frame ≡ true }
        ensures placed { places self.new ≡ referenced frame (places self.old) }
        ensures visits { (pinned : Option ℕ) → Visits page pinned self.old self.new }
        ensures rest { self.new ≡ record self.old { frames = self.new.frames } }
    {
        self.frames.set_referenced(frame, true);
    }

    /// Visits a page: it is resident afterwards, with its referenced bit set. `known` is its frame if it is
    /// resident, and the pinned frame stays as it is.
    #[inline(always)]
    pub(crate) fn visit(
        &mut self,
        page: PageRef,
        known: Option<FrameNo>,
        pinned: Option<FrameNo>,
        touched: &mut Touched,
    ) -> Result<FrameNo, PagerFault>
        requires has { HasPage self.old.segs page }
        requires known { known ≡ frame_by self.old page }
        requires room { length touched.old.moved.items ≤ 2 }
        requires small { (touched.old.ins < 2 ^ 32) × (touched.old.outs < 2 ^ 32) }
        ensures { Visited page pinned known self.old self.new touched.old touched.new result }
    {
        match known {
            Some(frame) => {
                self.touch(page, frame);
                Ok(frame)
            }
            None => self.fault(page, pinned, touched),
        }
    }
}

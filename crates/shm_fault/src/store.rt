//! The store: how it is made, its locks, and its counts.
ghost use Rattle.std.specs.Prelude.{◌≡◌, ◌≢◌, ℕ, ◌+◌, ◌-◌, ◌<◌, ◌≤◌, ◌^◌, true, false, length, map, min, replicate, None, IfOk, OnOk, OnErr};
ghost use Rattle.shm_fault.specs.Held.{is_held, pages_in_store, locked_pages_in_store, with_zeros, with_lock, IsIndexFree};
ghost use Rattle.shm_slots.specs.View.{swap_slots, owner_of, AreCountsOf};
ghost use Rattle.shm_slots.specs.Cause.{total};
ghost use Rattle.shm_frames.specs.Frame.{IsFrameBlank};
ghost use Rattle.shm_fault.specs.Segs.{count_by_id, find_seg, is_placed, rec_by, NowhereUpTo, with_seg, with_seg_lock};
ghost use Rattle.shm_fault.specs.Store.{fresh_store, held, frame_of, Still, resident, swapped, dirty, used};
ghost use Rattle.shm_base.specs.declared.bounds.TheConstants.{MOST_FRAMES};
ghost use Rattle.shm_fault.specs.Sound.{IsStoreSound};

use crate::page_tables::PageTables;
use crate::touched::PageTally;
use shm_base::{FrameNo, HostMemory, PageRef};
use shm_frames::{Frames, Skips};
use shm_pager_core::Pager;
use shm_slots::Swap;
use std::alloc::Global;
use std::marker::Model;

/// Pages of segments, over frames and swap.
pub struct PageStore<P: Pager> {
    pub(crate) segs: PageTables,
    pub(crate) frames: Frames,
    // Where the clock's hand is.
    pub(crate) hand: FrameNo,
    // The blocks of frames that the hand skips, because no page in them may go.
    pub(crate) skips: Skips,
    pub(crate) swap: Swap<P>,
    // Pager reads for faults, and pager writes for evictions and flushes.
    pub(crate) ins: u64,
    pub(crate) outs: u64,
}

impl<P: Pager> Drop for PageStore<P> {
    fn drop(self) {
        let PageStore {
            segs: _,
            frames: _,
            hand: _,
            skips: _,
            swap: _,
            ins: _,
            outs: _,
        } = self;
    }
}

impl<P: Pager> Model for PageStore<P> {
    ghost use Rattle.shm_fault.specs.Store.{StoreView};
    ghost use Rattle.shm_fault.specs.Sound.{IsStoreSound};
    ghost use Rattle.shm_fault.specs.Goes.{unlocked};
    ghost use Rattle.shm_clock.specs.Skips.{AreSkipped};

    ghost Value = { StoreView };

    ghost view = { λ s. record {
      segs = s.segs;
      frames = s.frames;
      hand = s.hand;
      swap = s.swap;
      ins = s.ins;
      outs = s.outs;
    } };

    ghost invariant = { λ s. IsStoreSound (record {
      segs = s.segs;
      frames = s.frames;
      hand = s.hand;
      swap = s.swap;
      ins = s.ins;
      outs = s.outs;
    }) × AreSkipped (unlocked s.segs) s.frames s.skips };
}

impl<P: Pager> PageStore<P> {
    /// A store without segments, over this number of frames and the swap, none of whose slots is owned. It
    /// reserves the memory of the frames, which is touched when a frame is first used.
    pub fn new(alloc: Global, frames: u32, swap: Swap<P>) -> Result<PageStore<P>, HostMemory>
        requires frames { (2 ≤ frames) × (frames ≤ MOST_FRAMES) }
        requires free { (area slot : ℕ) → owner_of swap area slot ≡ None }
        ensures fresh { IfOk result (λ s. s ≡ fresh_store s.frames swap) }
        ensures frames { IfOk result (λ s. (length s.frames ≡ frames) × ((f : ℕ) → IsFrameBlank s.frames f)) }
        ensures sound { IfOk result IsStoreSound }
    {
        let skips = Skips::new(alloc, frames)?;
        let frames = Frames::new(alloc, frames)?;
        Ok(PageStore {
            segs: PageTables::new(alloc),
            frames,
            hand: 0,
            skips,
            swap,
            ins: 0,
            outs: 0,
        })
    }

    /// The frame that a page is in; none if the page is not resident or does not exist.
    pub fn frame(&self, seg: u32, page: u32) -> Option<FrameNo>
        ensures { result ≡ frame_of self.now seg page }
    {
        self.segs.page(PageRef { seg, page }).frame
    }

    /// The first page of a segment, from `first` up to `last`, that is in a frame or a slot; `last` if there is none.
    /// Passes 256 pages at once where none of them was ever in either.
    pub fn next_placed(&self, first: PageRef, last: u32) -> u32
        requires { first.page ≤ last }
        ensures on { first.page ≤ result }
        ensures within { result ≤ last }
        ensures over { NowhereUpTo first.page result first.seg self.now.segs }
        ensures frames { (page : ℕ) → first.page ≤ page → page < result
            → frame_of self.now first.seg page ≡ None }
        ensures stop { let page = record first { page = result } in
            result < last → is_placed (rec_by self.now.segs page) ≡ true }
    {
        self.segs.next_placed(first, last)
    }

    /// Adds a segment of this many pages of zeros, which is not locked. It takes all memory that the segment
    /// will ever need. HostMemory: the host refused memory, and nothing changed. Precondition: no segment that
    /// is held has its index, and all pages together are at most the slots.
    pub fn add_segment(&mut self, seg: u32, pages: u32) -> Result<(), HostMemory>
        requires new { IsIndexFree (held self.old) seg }
        requires room { pages_in_store (held self.old) + pages ≤ swap_slots self.old.swap }
        ensures held { OnOk result (held self.new ≡ with_zeros (held self.old) seg pages) }
        ensures rest { let segs = with_seg self.old.segs seg pages in
            OnOk result (self.new ≡ record self.old { segs = segs }) }
        ensures still { Still self.old self.new }
        ensures err { OnErr result (self.new ≡ self.old) }
        ensures sound { IsStoreSound self.new }
    {
        self.segs.add(seg, pages)
    }

    /// Locks or unlocks a segment. No page moves: a page of a locked segment stays resident once it is.
    /// Precondition: there are at least 2 frames more than pages of locked segments.
    pub fn set_locked(&mut self, seg: u32, locked: bool)
        requires there { is_held (held self.old) seg ≡ true }
        requires few { let after = with_lock (held self.old) seg true in
            locked ≡ true → locked_pages_in_store after + 2 ≤ length self.old.frames }
        ensures only { self.new ≡ record self.old { segs = map (with_seg_lock seg locked) self.old.segs } }
        ensures held { held self.new ≡ with_lock (held self.old) seg locked }
        ensures still { Still self.old self.new }
        ensures sound { IsStoreSound self.new }
    {
        self.segs.set_locked(seg, locked);
        // Unlocked pages may go, so no block is skipped now.
        self.skips.forget_all();
    }

    /// How many pages are in a slot and in no frame. Walks all pages.
    pub fn swapped(&self) -> u32
        ensures { result ≡ swapped self.now }
    {
        self.segs.swapped()
    }

    /// Counts the pages in frames, the slots, and what the pagers did.
    pub fn tally(&self) -> PageTally
        ensures resident { result.resident ≡ resident self.now }
        ensures dirty { result.dirty ≡ dirty self.now }
        ensures slots { result.slots ≡ swap_slots self.now.swap }
        ensures used { result.used ≡ used self.now }
        ensures ins { result.ins ≡ self.now.ins }
        ensures outs { result.outs ≡ self.now.outs }
        ensures failures { result.failures ≡ min (total self.now.swap) (2 ^ 64 - 1) }
        ensures counted { AreCountsOf P.failed self.now.swap }
        ensures sound { IsStoreSound self.now }
    {
        PageTally {
            resident: self.frames.resident(),
            dirty: self.frames.dirty(),
            slots: self.swap.capacity(),
            used: self.swap.used(),
            ins: self.ins,
            outs: self.outs,
            failures: self.swap.failures(),
        }
    }
}

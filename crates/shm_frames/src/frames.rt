//! The frames, their owners and their bits.
//!
//! A table has an entry for each frame. The bytes of the frames are kept apart from it, so a walk over owners
//! and bits reads no page. Entries and bytes are made when a frame is first used; memory that is reserved for
//! other frames is not touched. The table keeps a bound below which no frame is free, and counts
//! frames that are owned, dirty, or on loan. A free frame has both bits clear, is not on loan, and has arbitrary bytes.
ghost use Rattle.std.specs.Prelude.{◌≡◌, ℕ, ◌+◌, ◌-◌, ◌<◌, ◌≤◌, ◌^◌, [], ◌∷◌, ◌++◌, length, get_or, set, position, count_by, vec_capacity, None, Some, IfOk, IfSome, IsSome, MatchOption, true};
ghost use Rattle.std.specs.Borrow.{sem};
ghost use Rattle.shm_base.specs.Stored.{padded};
ghost use Rattle.shm_base.specs.Page.{zero_page};

use crate::looks::Looks;
use shm_base::{FrameNo, HostMemory, PAGE_BYTES, PageRef, zeros};
use std::alloc::{AllocError, Global};
use std::marker::Model;

/// The owner and the bits of a frame.
#[derive(Clone, Copy)]
struct FrameState {
    owner: Option<PageRef>,
    referenced: bool,
    dirty: bool,
    lent: bool,
}

/// The frames of a machine. Contracts see a list of them, each with its owner, its bytes, its two bits, and
/// whether its page is on loan.
pub struct Frames {
    // The first frames: all those that were ever used. The others are free, and zeros.
    table: Vec<FrameState>,
    pages: Vec<[u8; PAGE_BYTES]>,
    count: u32,
    // No frame below this one is free.
    first_free: FrameNo,
    // How many frames are owned, how many are dirty, and how many have a page on loan.
    resident: u32,
    dirty: u32,
    lent: u32,
}

impl Drop for Frames {
    fn drop(self) {
        let Frames {
            table: _,
            pages: _,
            count: _,
            first_free: _,
            resident: _,
            dirty: _,
            lent: _,
        } = self;
    }
}

impl Model for Frames {
    ghost use Rattle.std.specs.Prelude.{◌≡◌, ◌≤◌, List, count_by, vec_capacity};
    ghost use Rattle.shm_frames.specs.Frame.{Frame};

    ghost Value = { List Frame };

    ghost use Rattle.shm_frames.specs.Table.{all_frames, AreUsed, IsFrameTable, is_on_loan};

    ghost view = { λ a. all_frames a.table.items a.pages.items a.count };

    ghost invariant = { λ a. AreUsed a.table.items a.pages.items a.count
        × (a.count ≤ vec_capacity a.table) × (a.count ≤ vec_capacity a.pages)
        × IsFrameTable a.table.items a.first_free a.resident a.dirty
        × (a.lent ≡ count_by is_on_loan a.table.items) };
}

impl FrameState {
    const FREE: FrameState = FrameState {
        owner: None,
        referenced: false,
        dirty: false,
        lent: false,
    };
}

ghost use Rattle.shm_frames.specs.Table.{free_entry, state_at, has_owner, UsedBelow, CleanFrom};

// The table's entry of a frame. A frame that was never used is free.
fn state_of(table: &Vec<FrameState>, frame: FrameNo) -> FrameState
    ensures { result ≡ state_at table.now.items frame }
{
    table
        .get(frame as usize)
        .copied()
        .unwrap_or(FrameState::FREE)
}

// One more frame is used, and zeros. Kept out of line, so that other calls do not pay for a page on their
// stack.
#[inline(never)]
fn push_blank(table: &mut Vec<FrameState>, pages: &mut Vec<[u8; PAGE_BYTES]>)
    requires entry { length table.old.items < vec_capacity table.old }
    requires bytes { length pages.old.items < vec_capacity pages.old }
    ensures table { table.new.items ≡ table.old.items ++ free_entry ∷ [] }
    ensures pages { pages.new.items ≡ pages.old.items ++ zero_page ∷ [] }
    ensures entries { vec_capacity table.new ≡ vec_capacity table.old }
    ensures rooms { vec_capacity pages.new ≡ vec_capacity pages.old }
{
    table.push_reserved(FrameState::FREE);
    pages.push_reserved(zeros());
}

// Extends the table up to this frame. Kept out of line, so that a frame in the table costs one comparison.
#[inline(never)]
fn extend(table: &mut Vec<FrameState>, pages: &mut Vec<[u8; PAGE_BYTES]>, frame: FrameNo)
    requires new { length table.old.items ≤ frame }
    requires beside { length pages.old.items ≡ length table.old.items }
    requires entries { frame < vec_capacity table.old }
    requires bytes { frame < vec_capacity pages.old }
    ensures table { table.new.items ≡ padded table.old.items (frame + 1) free_entry }
    ensures pages { pages.new.items ≡ padded pages.old.items (frame + 1) zero_page }
    ensures entries { vec_capacity table.new ≡ vec_capacity table.old }
    ensures rooms { vec_capacity pages.new ≡ vec_capacity pages.old }
{
    for _frame in table.len()..frame as usize + 1 {
        push_blank(table, pages);
    }
}

// Extends the table up to this frame, if it is not in it.
#[inline(always)]
fn reach(table: &mut Vec<FrameState>, pages: &mut Vec<[u8; PAGE_BYTES]>, frame: FrameNo)
    requires beside { length pages.old.items ≡ length table.old.items }
    requires entries { frame < vec_capacity table.old }
    requires bytes { frame < vec_capacity pages.old }
    ensures table { table.new.items ≡ padded table.old.items (frame + 1) free_entry }
    ensures pages { pages.new.items ≡ padded pages.old.items (frame + 1) zero_page }
    ensures entries { vec_capacity table.new ≡ vec_capacity table.old }
    ensures rooms { vec_capacity pages.new ≡ vec_capacity pages.old }
{
    if frame as usize >= table.len() {
        extend(table, pages, frame);
    }
}

// The first free frame: one of the table, else the first that was never used. No frame below `first` is free.
fn least_free(table: &Vec<FrameState>, first: FrameNo, resident: u32) -> FrameNo
    requires few { length table.now.items < 2 ^ 32 }
    requires used { UsedBelow table.now.items first }
    requires resident { resident ≡ count_by has_owner table.now.items }
    ensures within { result ≤ length table.now.items }
    ensures free { (state_at table.now.items result).owner ≡ None }
    ensures used { UsedBelow table.now.items result }
{
    let used = table.len();
    if resident as usize == used {
        return used as FrameNo;
    }
    for frame in first as usize..used {
        if table[frame].owner.is_none() {
            return frame as FrameNo;
        }
    }
    used as FrameNo
}

// The first dirty frame of the table from one on.
fn dirty_from(table: &Vec<FrameState>, from: FrameNo) -> Option<FrameNo>
    requires { length table.now.items < 2 ^ 32 }
    ensures some { IfSome result (λ f. (from ≤ f) × ((state_at table.now.items f).dirty ≡ true)) }
    ensures clean { CleanFrom table.now.items from (length table.now.items) result }
{
    for frame in from as usize..table.len() {
        if table[frame].dirty {
            return Some(frame as FrameNo);
        }
    }
    None
}

// A copy of the items, with room for `room` of them.
pub(crate) fn copied<T: Copy>(items: &Vec<T>, room: u32) -> Result<Vec<T>, AllocError>
    ensures items { IfOk result (λ copy. copy.items ≡ items.now.items) }
    ensures room { IfOk result (λ copy. room ≤ vec_capacity copy) }
{
    let mut copy = Vec::with_capacity(*items.allocator(), room as usize)?;
    copy.extend_from_slice(items)?;
    Ok(copy)
}

impl Frames {
    ghost use Rattle.shm_frames.specs.Frame.{frame_at, no_frame, is_free, resident_of, dirty_of, lent_of, FreeAreClear, OwnedBelow, IsLeastFree, IsFrameBlank, IsDirtyFrom, AreCleanUpTo};
    ghost use Rattle.shm_frames.specs.Lends.{lends_bytes};
    ghost use Rattle.shm_base.specs.declared.paging.TheConstants.{PAGE_BYTES};

    /// This many free frames. Reserves the memory for all of them, and touches none of it. HostMemory: the
    /// host refused memory.
    pub fn new(alloc: Global, count: u32) -> Result<Frames, HostMemory>
        ensures size { IfOk result (λ frames. length frames ≡ count) }
        ensures free { IfOk result (λ frames. (i : ℕ) → IsFrameBlank frames i) }
    {
        Ok(Frames {
            table: Vec::with_capacity(alloc, count as usize)?,
            pages: Vec::with_capacity(alloc, count as usize)?,
            count,
            first_free: 0,
            resident: 0,
            dirty: 0,
            lent: 0,
        })
    }

    /// A copy of the frames. Reserves the memory for all of them, as [`Frames::new`] does, and does not touch
    /// that of frames that were never used. HostMemory: the host refused memory.
    pub fn try_clone(&self) -> Result<Frames, HostMemory>
        ensures { IfOk result (λ copy. copy ≡ self.now) }
    {
        Ok(Frames {
            table: copied(&self.table, self.count)?,
            pages: copied(&self.pages, self.count)?,
            count: self.count,
            first_free: self.first_free,
            resident: self.resident,
            dirty: self.dirty,
            lent: self.lent,
        })
    }

    /// The number of frames.
    pub fn count(&self) -> u32
        ensures size { result ≡ length self.now }
        ensures clear { FreeAreClear self.now }
    {
        self.count
    }

    /// How many frames are owned.
    pub fn resident(&self) -> u64
        ensures count { result ≡ resident_of self.now }
        ensures few { result ≤ length self.now }
    {
        u64::from(self.resident)
    }

    /// How many frames are dirty.
    pub fn dirty(&self) -> u64
        ensures count { result ≡ dirty_of self.now }
        ensures few { result ≤ resident_of self.now }
    {
        u64::from(self.dirty)
    }

    /// How many frames have a page on loan.
    #[inline(always)]
    pub fn lent(&self) -> u64
        ensures { result ≡ lent_of self.now }
    {
        u64::from(self.lent)
    }

    /// The first free frame; none if each frame is owned. The frames do not change, only the place where the
    /// next search begins.
    pub fn free_frame(&mut self) -> Option<FrameNo>
        ensures value { result ≡ position is_free self.old }
        ensures least { MatchOption result (OwnedBelow self.old (length self.old)) (IsLeastFree self.old) }
        ensures same { self.new ≡ self.old }
    {
        let least = least_free(&self.table, self.first_free, self.resident);
        self.first_free = least;
        if least >= self.count {
            return None;
        }
        Some(least)
    }

    /// The owner of a frame; none if it is free.
    pub fn owner(&self, frame: FrameNo) -> Option<PageRef>
        requires { frame < length self.now }
        ensures { result ≡ (frame_at self.now frame).owner }
    {
        state_of(&self.table, frame).owner
    }

    /// The page in an owned frame.
    pub fn resident_page(&self, frame: FrameNo) -> PageRef
        requires there { frame < length self.now }
        requires owned { IsSome (frame_at self.now frame).owner }
        ensures { (frame_at self.now frame).owner ≡ Some result }
    {
        self.owner(frame).unwrap()
    }

    /// Gives a free frame to a page. The frame keeps its bytes, which the caller may have written before, and
    /// its bits are clear.
    pub fn fill(&mut self, frame: FrameNo, owner: PageRef)
        requires there { frame < length self.old }
        requires free { (frame_at self.old frame).owner ≡ None }
        ensures given { let before = frame_at self.old frame in
            self.new ≡ set self.old frame (record before { owner = Some owner }) }
        ensures blank { IsFrameBlank self.old frame }
    {
        reach(&mut self.table, &mut self.pages, frame);
        let entry = &mut self.table[frame as usize];
        entry.owner = Some(owner);
        self.resident += 1;
        if frame == self.first_free {
            self.first_free += 1;
        }
    }

    /// Makes a frame free, with both bits clear. It keeps its bytes.
    pub fn empty(&mut self, frame: FrameNo)
        requires { frame < length self.old }
        ensures { let before = frame_at self.old frame in
            self.new ≡ set self.old frame (record no_frame { bytes = before.bytes }) }
    {
        let was = state_of(&self.table, frame);
        if was.owner.is_none() {
            return;
        }
        self.table[frame as usize] = FrameState::FREE;
        self.resident -= 1;
        self.dirty -= u32::from(was.dirty);
        self.lent -= u32::from(was.lent);
        self.first_free = self.first_free.min(frame);
    }

    /// The bytes of an owned frame.
    pub fn bytes(&self, frame: FrameNo) -> &[u8; PAGE_BYTES]
        requires there { frame < length self.now }
        requires owned { IsSome (frame_at self.now frame).owner }
        ensures value { result.now ≡ (frame_at self.now frame).bytes }
        ensures whole { length result.now ≡ PAGE_BYTES }
    {
        let page = &self.pages[frame as usize];
        prove!(page.get(PAGE_BYTES - 1).is_some());
        page
    }

    /// The bytes of a frame, to write them. A page that comes in is read straight into a free frame.
    pub fn bytes_mut(&mut self, frame: FrameNo) -> &mut [u8; PAGE_BYTES]
        requires { frame < length self.old }
        ensures* writes_back { sem 𝓛 (lends_bytes self.entry frame result) }
        ensures value { result.now ≡ (frame_at self.old frame).bytes }
    {
        reach(&mut self.table, &mut self.pages, frame);
        &mut self.pages[frame as usize]
    }

    /// Fills a frame with zeros. A frame that was never used is written once, not twice.
    pub fn clear(&mut self, frame: FrameNo)
        requires { frame < length self.old }
        ensures { self.new ≡ set self.old frame (record (frame_at self.old frame) { bytes = zero_page }) }
    {
        if frame as usize >= self.pages.len() {
            reach(&mut self.table, &mut self.pages, frame);
            return;
        }
        self.pages[frame as usize] = zeros();
    }

    /// The referenced bit of a frame. Each look is counted.
    pub fn referenced(&self, frame: FrameNo, looks: &mut Looks) -> bool
        requires there { frame < length self.now }
        requires countable { looks.old < 2 ^ 64 - 1 }
        ensures bit { result ≡ (frame_at self.now frame).referenced }
        ensures counted { looks.new ≡ looks.old + 1 }
    {
        looks.add();
        state_of(&self.table, frame).referenced
    }

    /// Sets or clears the referenced bit of an owned frame.
    pub fn set_referenced(&mut self, frame: FrameNo, referenced: bool)
        requires there { frame < length self.old }
        requires owned { IsSome (frame_at self.old frame).owner }
        ensures { let before = frame_at self.old frame in
            self.new ≡ set self.old frame (record before { referenced = referenced }) }
    {
        let entry = &mut self.table[frame as usize];
        entry.referenced = referenced;
    }

    /// The dirty bit of a frame: its bytes changed since they were last read from a slot or written to one.
    pub fn is_dirty(&self, frame: FrameNo) -> bool
        requires { frame < length self.now }
        ensures { result ≡ (frame_at self.now frame).dirty }
    {
        state_of(&self.table, frame).dirty
    }

    /// Sets or clears the dirty bit of an owned frame.
    pub fn set_dirty(&mut self, frame: FrameNo, dirty: bool)
        requires there { frame < length self.old }
        requires owned { IsSome (frame_at self.old frame).owner }
        ensures { self.new ≡ set self.old frame (record (frame_at self.old frame) { dirty = dirty }) }
    {
        let entry = &mut self.table[frame as usize];
        self.dirty -= u32::from(entry.dirty);
        entry.dirty = dirty;
        self.dirty += u32::from(dirty);
    }

    /// Whether the page of a frame is on loan.
    pub fn is_lent(&self, frame: FrameNo) -> bool
        requires { frame < length self.now }
        ensures { result ≡ (frame_at self.now frame).lent }
    {
        state_of(&self.table, frame).lent
    }

    /// Notes that the page of an owned frame is on loan, or that it is not any more.
    pub fn set_lent(&mut self, frame: FrameNo, lent: bool)
        requires there { frame < length self.old }
        requires owned { IsSome (frame_at self.old frame).owner }
        ensures { self.new ≡ set self.old frame (record (frame_at self.old frame) { lent = lent }) }
    {
        let entry = &mut self.table[frame as usize];
        self.lent -= u32::from(entry.lent);
        entry.lent = lent;
        self.lent += u32::from(lent);
    }

    /// The first dirty frame from one on; none if there is none.
    pub fn next_dirty(&self, from: FrameNo) -> Option<FrameNo>
        ensures some { IfSome result (IsDirtyFrom self.now from) }
        ensures least { AreCleanUpTo self.now from result }
    {
        if self.dirty == 0 {
            return None;
        }
        dirty_from(&self.table, from)
    }
}

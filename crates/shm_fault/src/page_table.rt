//! The page table of one segment: whether it is locked, and where its pages are.
//!
//! Room for the records of all its pages is reserved when the table is made. Records are written in runs of 256, once
//! a page of the run is somewhere. So runs that nobody touches cost next to nothing, neither when the table is made
//! nor when it goes.
ghost use Rattle.std.specs.Prelude.{◌≡◌, ℕ, ◌<◌, ◌≤◌, length, count_by, set, true, IfOk};
ghost use Rattle.shm_fault.specs.Segs.{rec_at, no_page, new_seg, is_placed};
ghost use Rattle.shm_fault.specs.Store.{is_swapped};

use crate::page_tables::PageRec;
use shm_sparse::SparseVec;
use std::alloc::{AllocError, Global};
use std::marker::Model;

/// Whether a segment is locked, and where its pages are.
pub(crate) struct PageTable {
    id: u32,
    locked: bool,
    pages: SparseVec<PageRec>,
}

impl Drop for PageTable {
    fn drop(self) {
        let PageTable {
            id: _,
            locked: _,
            pages: _,
        } = self;
    }
}

impl Model for PageTable {
    ghost use Rattle.std.specs.Prelude.{◌≡◌};
    ghost use Rattle.shm_fault.specs.Segs.{SegRec, no_page};

    ghost Value = { SegRec };

    ghost view = { λ t. record { id = t.id; locked = t.locked; pages = t.pages.items } };

    ghost invariant = { λ t. t.pages.other ≡ no_page };
}

impl Clone for PageTable {
    ghost is_clone = { λ table copy. copy ≡ table };

    fn clone(&self) -> Result<PageTable, AllocError> {
        Ok(PageTable {
            id: self.id,
            locked: self.locked,
            pages: self.pages.clone()?,
        })
    }
}

// Whether a page is in a frame or a slot.
fn is_placed(page: PageRec) -> bool
    ensures { result ≡ is_placed page }
{
    page.frame.is_some() || page.slot.is_some()
}

// Whether a page is in a slot and in no frame.
fn is_swapped(page: PageRec) -> bool
    ensures { result ≡ is_swapped page }
{
    page.frame.is_none() && page.slot.is_some()
}

impl PageTable {
    /// The table of a segment of this many pages, all nowhere, which is not locked.
    pub(crate) fn new(alloc: Global, id: u32, count: u32) -> Result<PageTable, AllocError>
        ensures { IfOk result (λ table. table ≡ new_seg id count) }
    {
        Ok(PageTable {
            id,
            locked: false,
            pages: SparseVec::new(alloc, count, PageRec::NOWHERE)?,
        })
    }

    /// The segment's identifier.
    pub(crate) fn id(&self) -> u32
        ensures { result ≡ self.now.id }
    {
        self.id
    }

    /// Whether the segment is locked.
    pub(crate) fn is_locked(&self) -> bool
        ensures { result ≡ self.now.locked }
    {
        self.locked
    }

    /// Locks or unlocks the segment.
    pub(crate) fn set_locked(&mut self, locked: bool)
        ensures { self.new ≡ record self.old { locked = locked } }
    {
        self.locked = locked;
    }

    /// The number of pages.
    pub(crate) fn count(&self) -> u32
        ensures { result ≡ length self.now.pages }
    {
        self.pages.len()
    }

    /// The first page from `first` up to `last` that is somewhere; `last` if there is none.
    pub(crate) fn next_placed(&self, first: u32, last: u32) -> u32
        requires { first ≤ last }
        ensures on { first ≤ result }
        ensures within { result ≤ last }
        ensures over { (page : ℕ) → first ≤ page → page < result → rec_at self.now.pages page ≡ no_page }
        ensures stop { result < last → is_placed (rec_at self.now.pages result) ≡ true }
    {
        let mut page = self.pages.next_stored(first, last);
        while page < last && !is_placed(self.page(page)) {
            page = self.pages.next_stored(page + 1, last);
        }
        page
    }

    /// How many pages are in a slot and in no frame. Walks those that may be somewhere.
    pub(crate) fn swapped(&self) -> u32
        ensures { result ≡ count_by is_swapped self.now.pages }
    {
        let end = self.pages.len();
        let mut count = 0;
        let mut page = self.next_placed(0, end);
        while page < end {
            if is_swapped(self.page(page)) {
                count += 1;
            }
            page = self.next_placed(page + 1, end);
        }
        count
    }

    /// Where a page is.
    #[inline(always)]
    pub(crate) fn page(&self, page: u32) -> PageRec
        ensures { result ≡ rec_at self.now.pages page }
    {
        self.pages.get(page as usize)
    }

    /// Notes where a page is.
    pub(crate) fn set_page(&mut self, page: u32, rec: PageRec)
        requires { page < length self.old.pages }
        ensures { self.new ≡ record self.old { pages = set self.old.pages page rec } }
    {
        self.pages.set(page as usize, rec);
    }
}

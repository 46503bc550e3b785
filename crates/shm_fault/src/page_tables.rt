//! The page tables of the segments that the store holds: where each of their pages is.
//!
//! A segment is its index: an identifier is index + 32768 * sequence, and the table of a segment is at its index.
//! The tables grow by appending. They are seen as the list of the segments in order of their indexes.
ghost use Rattle.std.specs.Prelude.{◌≡◌, ◌≢◌, ◌+◌, ◌<◌, ◌≤◌, ◌%◌, ◌^◌, [], length, sum_by, map, true, None, Some, IfSome, IfNone, IfOk, OnOk, OnErr};
ghost use Rattle.shm_base.specs.Stored.{padded};
ghost use Rattle.shm_base.specs.declared.bounds.TheConstants.{INDEXES};
ghost use Rattle.shm_fault.specs.Segs.{find_seg, rec_by, count_by_id, locked_by, page_count, HasPage, is_placed, NowhereUpTo, with_rec, with_seg_lock, with_seg, but, IsIndexFree};
ghost use Rattle.shm_fault.specs.Entries.{present, AreIndexed};
ghost use Rattle.shm_fault.specs.Store.{swapped_pages};

use crate::page_table::PageTable;
use shm_base::{FrameNo, HostMemory, INDEXES, PageRef, Slot};
use std::alloc::{AllocError, Global};
use std::marker::Model;

/// Where a page is: in a frame, in a slot, in both, or in neither; then its bytes are zeros. The slot of a
/// page in a dirty frame may hold any bytes.
#[derive(Clone, Copy, Debug, PartialEq, Eq)]
pub struct PageRec {
    pub frame: Option<FrameNo>,
    pub slot: Option<Slot>,
}

/// The page tables of segments, by index.
pub(crate) struct PageTables {
    tables: Vec<Option<PageTable>>,
}

impl Drop for PageTables {
    fn drop(self) {
        let PageTables { tables: _ } = self;
    }
}

impl Model for PageTables {
    ghost use Rattle.std.specs.Prelude.{List};
    ghost use Rattle.shm_fault.specs.Segs.{SegRec};

    ghost Value = { List SegRec };

    ghost use Rattle.shm_fault.specs.Entries.{present, AreIndexed};

    ghost view = { λ s. present s.tables.items };

    ghost invariant = { λ s. AreIndexed 0 s.tables.items };
}

impl PageRec {
    /// A page that is nowhere: all its bytes are zero.
    pub(crate) const NOWHERE: PageRec = PageRec {
        frame: None,
        slot: None,
    };
}

// The index of a segment.
fn place_of(id: u32) -> usize
    ensures { result ≡ id % INDEXES }
{
    (id % INDEXES) as usize
}

// The table of a segment.
fn found(tables: &Vec<Option<PageTable>>, id: u32) -> Option<&PageTable>
    requires { AreIndexed 0 tables.now.items }
    ensures some { IfSome result (λ table. find_seg (present tables.now.items) id ≡ Some table.now) }
    ensures none { IfNone result (find_seg (present tables.now.items) id ≡ None) }
{
    match tables.get(place_of(id)) {
        Some(Some(table)) if table.id() == id => Some(table),
        _ => None,
    }
}

// Appends indexes without a segment, up to this one.
fn reach(tables: &mut Vec<Option<PageTable>>, place: usize) -> Result<(), AllocError>
    ensures items { tables.new.items ≡ padded tables.old.items (length tables.new.items) None }
    ensures ok { OnOk result (place < length tables.new.items) }
{
    while tables.len() <= place {
        tables.push(None)?;
    }
    Ok(())
}

impl PageTables {
    /// No segment.
    pub(crate) fn new(alloc: Global) -> PageTables
        ensures { result ≡ [] }
    {
        PageTables {
            tables: Vec::new(alloc),
        }
    }

    /// A copy of the page tables.
    pub(crate) fn try_clone(&self) -> Result<PageTables, AllocError>
        ensures { IfOk result (λ copy. copy ≡ self.now) }
    {
        Ok(PageTables {
            tables: self.tables.clone()?,
        })
    }

    /// How many pages are in a slot and in no frame. Walks all pages.
    pub(crate) fn swapped(&self) -> u32
        requires { sum_by page_count self.now < 2 ^ 32 }
        ensures { result ≡ sum_by swapped_pages self.now }
    {
        let mut count = 0;
        for table in &self.tables {
            if let Some(table) = table {
                count += table.swapped();
            }
        }
        count
    }

    /// One more segment, not locked, whose pages are nowhere. No segment has its index.
    pub(crate) fn add(&mut self, id: u32, pages: u32) -> Result<(), HostMemory>
        requires new { IsIndexFree self.old id }
        ensures ok { OnOk result (self.new ≡ with_seg self.old id pages) }
        ensures err { OnErr result (self.new ≡ self.old) }
    {
        let table = PageTable::new(*self.tables.allocator(), id, pages)?;
        let place = place_of(id);
        reach(&mut self.tables, place)?;
        self.tables[place] = Some(table);
        Ok(())
    }

    /// Takes a segment out.
    pub(crate) fn remove(&mut self, id: u32)
        requires { find_seg self.old id ≢ None }
        ensures { self.new ≡ but id self.old }
    {
        self.tables[place_of(id)] = None;
    }

    /// Where a page is.
    pub(crate) fn page(&self, page: PageRef) -> PageRec
        ensures { result ≡ rec_by self.now page }
    {
        match found(&self.tables, page.seg) {
            Some(table) => table.page(page.page),
            None => PageRec::NOWHERE,
        }
    }

    /// The number of pages of a segment; 0 if there is no such segment.
    pub(crate) fn count(&self, id: u32) -> u32
        ensures { result ≡ count_by_id self.now id }
    {
        match found(&self.tables, id) {
            Some(table) => table.count(),
            None => 0,
        }
    }

    /// Whether a segment is locked.
    pub(crate) fn is_locked(&self, id: u32) -> bool
        ensures { result ≡ locked_by self.now id }
    {
        match found(&self.tables, id) {
            Some(table) => table.is_locked(),
            None => false,
        }
    }

    /// The first page of a segment, from `first` up to `last`, that is somewhere; `last` if there is none.
    pub(crate) fn next_placed(&self, first: PageRef, last: u32) -> u32
        requires { first.page ≤ last }
        ensures on { first.page ≤ result }
        ensures within { result ≤ last }
        ensures over { NowhereUpTo first.page result first.seg self.now }
        ensures stop { let page = record first { page = result } in
            result < last → is_placed (rec_by self.now page) ≡ true }
    {
        match found(&self.tables, first.seg) {
            Some(table) => table.next_placed(first.page, last),
            None => last,
        }
    }

    /// Notes where a page is.
    pub(crate) fn set_page(&mut self, page: PageRef, rec: PageRec)
        requires { HasPage self.old page }
        ensures { self.new ≡ with_rec self.old page rec }
    {
        let Some(table) = &mut self.tables[place_of(page.seg)] else {
            unreachable!();
        };
        table.set_page(page.page, rec);
    }

    /// Notes the frame that a page is in, or that it is in none. The page keeps its slot.
    pub(crate) fn set_frame(&mut self, page: PageRef, frame: Option<FrameNo>)
        requires { HasPage self.old page }
        ensures { self.new ≡ with_rec self.old page (record (rec_by self.old page) { frame = frame }) }
    {
        let slot = self.page(page).slot;
        self.set_page(page, PageRec { frame, slot });
    }

    /// Locks or unlocks a segment.
    pub(crate) fn set_locked(&mut self, id: u32, locked: bool)
        requires { find_seg self.old id ≢ None }
        ensures { self.new ≡ map (with_seg_lock id locked) self.old }
    {
        let Some(table) = &mut self.tables[place_of(id)] else {
            unreachable!();
        };
        table.set_locked(locked);
    }
}

//! The frames of the pages of a segment: its translations.
//!
//! Room for the frames of all pages is reserved when a segment is attached. Frames are written in runs of 256, once a
//! page of the run is resident. So runs that nobody touches cost next to nothing.
ghost use Rattle.std.specs.Prelude.{◌≡◌, ℕ, ◌+◌, ◌-◌, ◌^◌, ◌<◌, ◌≤◌, Option, Some, length, [], OnOk, OnErr};
ghost use Rattle.shm_fault.specs.Store.{frame_of};
ghost use Rattle.shm_attach.specs.Table.{frame_in, TrueTable, with_frame};

use shm_base::{FrameNo, HostMemory, PageRef};
use shm_fault::PageStore;
use shm_pager_core::Pager;
use shm_sparse::SparseVec;
use std::alloc::{AllocError, Global};
use std::marker::Model;

/// How many pieces a segment has, and the frames of its first pages; none for a page that is not resident.
pub(crate) struct Table {
    seg: u32,
    count: u32,
    frames: SparseVec<Option<FrameNo>>,
}

impl Drop for Table {
    fn drop(self) {
        let Table {
            seg: _,
            count: _,
            frames: _,
        } = self;
    }
}

impl Model for Table {
    ghost use Rattle.std.specs.Prelude.{◌≡◌, None};
    ghost use Rattle.shm_attach.specs.Table.{TableView};

    ghost Value = { TableView };

    ghost view = { λ t. record { seg = t.seg; count = t.count; frames = t.frames.items } };

    ghost invariant = { λ t. t.frames.other ≡ None };
}

impl Clone for Table {
    ghost is_clone = { λ table copy. copy ≡ table };

    fn clone(&self) -> Result<Table, AllocError> {
        Ok(Table {
            seg: self.seg,
            count: self.count,
            frames: self.frames.clone()?,
        })
    }
}

impl Table {
    /// A table with one piece of a segment, and no page.
    pub(crate) fn new(alloc: Global, seg: u32) -> Table
        ensures { result ≡ record { seg = seg; count = 1; frames = [] } }
    {
        Table {
            seg,
            count: 1,
            frames: SparseVec::empty(alloc, None),
        }
    }

    /// The number of pieces.
    pub(crate) fn count(&self) -> u32
        ensures { result ≡ self.now.count }
    {
        self.count
    }

    /// Replaces `gone` pieces by `parts` others, and returns how many there are now.
    pub(crate) fn replace(&mut self, gone: u32, parts: u32) -> u32
        requires gone { gone ≤ self.old.count }
        requires fits { self.old.count + parts < 2 ^ 32 }
        ensures count { result ≡ self.old.count - gone + parts }
        ensures rest { self.new ≡ record self.old { count = result } }
    {
        self.count = self.count - gone + parts;
        self.count
    }

    /// Extends the table to this many pages, by the frames that they have in the store. Asks the store only for pages
    /// that are in a frame or a slot.
    pub(crate) fn extend<P: Pager>(
        &mut self,
        store: &PageStore<P>,
        pages: u32,
    ) -> Result<(), HostMemory>
        ensures rest { self.new ≡ record self.old { frames = self.new.frames } }
        ensures more { length self.old.frames ≤ length self.new.frames }
        ensures pages { OnOk result (pages ≤ length self.new.frames) }
        ensures err { OnErr result (self.new ≡ self.old) }
        ensures translated { let at = frame_of store.now in
            TrueTable at self.old → TrueTable at self.new }
    {
        let seg = self.seg;
        let known = self.frames.len();
        if pages <= known {
            return Ok(());
        }
        self.frames.extend(pages)?;
        let mut page = store.next_placed(PageRef { seg, page: known }, pages);
        while page < pages {
            self.frames.set(page as usize, store.frame(seg, page));
            let next = PageRef {
                seg,
                page: page + 1,
            };
            page = store.next_placed(next, pages);
        }
        Ok(())
    }

    /// The frame of one of the pages.
    #[inline(always)]
    pub(crate) fn frame(&self, page: usize) -> Option<FrameNo>
        ensures { result ≡ frame_in (Some self.now) page }
    {
        // Not `get`: that would load the frame from one of two addresses, and an access would take eight
        // instructions more.
        match self.frames.stored(page) {
            Some(frame) => *frame,
            None => None,
        }
    }

    /// Notes the frame of a page of the segment.
    pub(crate) fn set(&mut self, page: PageRef, frame: Option<FrameNo>)
        requires { page.seg ≡ self.old.seg }
        ensures rest { self.new ≡ record self.old { frames = self.new.frames } }
        ensures pages { length self.new.frames ≡ length self.old.frames }
        ensures translated { (at : ℕ → ℕ → Option ℕ) → TrueTable at self.old
            → TrueTable (with_frame page frame at) self.new }
    {
        if page.page < self.frames.len() {
            self.frames.set(page.page as usize, frame);
        }
    }
}

//! The attach counts, and the frames of the pages of attached segments. The pieces of a segment share one
//! table, and each has its key, so a move of a page is noted in one place. A segment without pieces has no
//! table.
ghost use Rattle.std.specs.Prelude.{◌≡◌, ◌↔◌, ℕ, ◌+◌, ◌^◌, ◌<◌, ◌≤◌, true, [], Option, Some, IfOk, OnOk, OnErr};
ghost use Rattle.slab.specs.Slab.{get, ContainsKey};
ghost use Rattle.shm_fault.specs.Steps.{moved};
ghost use Rattle.shm_fault.specs.Store.{frame_of};
ghost use Rattle.shm_attach.specs.Spaces.{IsOnlyAt};
ghost use Rattle.shm_attach.specs.Views.{some_if};
ghost use Rattle.shm_attach.specs.Table.{frame_in, seg_in, size_in, AllTrue};
ghost use Rattle.shm_attach.specs.Tables.{counted, key_of, AreSameTables, OneTableEach};
ghost use Rattle.shm_attach.specs.Tables.{KeepCounts, KeepCounted, KeepTables, KeepFrames, Notes};

use crate::keys::Keys;
use crate::table::Table;
use shm_base::{FrameNo, HostMemory, PageRef};
use shm_fault::{PageMove, PageStore};
use shm_pager_core::Pager;
use slab::Slab;
use std::alloc::{AllocError, Global};

/// The tables of the attached segments, and the key of each.
pub(crate) struct Tables {
    alloc: Global,
    keys: Keys,
    slab: Slab<Table>,
}

impl Drop for Tables {
    fn drop(self) {
        let Tables {
            alloc: _,
            keys: _,
            slab: _,
        } = self;
    }
}

impl Tables {
    /// No pieces and no tables.
    #[tactic(auto, unfolding(crate::specs::Keys::key_at))]
    pub(crate) fn new(alloc: Global) -> Tables
        ensures none { (id : ℕ) → counted result id ≡ 0 }
        ensures slots { result.slab.slots ≡ [] }
        ensures tied { OneTableEach result }
    {
        Tables {
            alloc,
            keys: Keys::new(alloc),
            slab: Slab::new(alloc),
        }
    }

    /// A copy of the tables under the same keys.
    pub(crate) fn try_clone(&self) -> Result<Tables, AllocError>
        ensures { IfOk result (λ copy. AreSameTables self.now copy) }
    {
        let keys = self.keys.try_clone()?;
        let slab = self.slab.clone()?;
        Ok(Tables {
            alloc: self.alloc,
            keys,
            slab,
        })
    }

    /// The key of a segment's table.
    pub(crate) fn key(&self, seg: u32) -> Option<usize>
        ensures { result ≡ key_of self.now seg }
    {
        self.keys.find(seg)
    }

    /// Whether no other segment with a segment's index has pieces.
    pub(crate) fn is_only_at(&self, seg: u32) -> bool
        requires { OneTableEach self.now }
        ensures { (result ≡ true) ↔ IsOnlyAt seg (counted self.now) }
    {
        self.keys.is_only_at(seg)
    }

    /// The number of pieces of a segment.
    pub(crate) fn count(&self, seg: u32) -> u32
        ensures { result ≡ counted self.now seg }
    {
        let Some(key) = self.key(seg) else {
            return 0;
        };
        match self.slab.get(key) {
            Some(table) => table.count(),
            None => 0,
        }
    }

    /// The frame of a page of the segment whose table has this key.
    #[inline(always)]
    pub(crate) fn frame(&self, key: usize, page: usize) -> Option<FrameNo>
        requires { ContainsKey self.now.slab key }
        ensures { result ≡ frame_in (get self.now.slab key) page }
    {
        self.slab[key].frame(page)
    }

    // Extends a table to this many pages of its segment.
    fn extend<P: Pager>(
        &mut self,
        store: &PageStore<P>,
        key: usize,
        pages: u32,
    ) -> Result<(), HostMemory>
        requires tied { OneTableEach self.old }
        ensures counts { KeepCounts self.old self.new }
        ensures seg { (k : ℕ) → seg_in (get self.new.slab k) ≡ seg_in (get self.old.slab k) }
        ensures pages { (id : ℕ) → seg_in (get self.old.slab key) ≡ Some id
            → OnOk result (pages ≤ size_in (get self.new.slab key)) }
        ensures tables { KeepTables self.old.slab self.new.slab }
        ensures translated { let at = frame_of store.now in
            AllTrue at self.old.slab → AllTrue at self.new.slab }
        ensures tied { OneTableEach self.new }
        ensures err { OnErr result (self.new.slab.slots ≡ self.old.slab.slots) }
    {
        match self.slab.get_mut(key) {
            Some(table) => table.extend(store, pages),
            None => Ok(()),
        }
    }

    /// Reserves a segment's table for a piece that is still to come: counts it as one, gives the table the
    /// first `pages` pages, and returns its key. Takes all memory first.
    pub(crate) fn reserve<P: Pager>(
        &mut self,
        store: &PageStore<P>,
        seg: u32,
        pages: u32,
    ) -> Result<usize, HostMemory>
        requires fits { counted self.old seg + 1 < 2 ^ 32 }
        requires only { IsOnlyAt seg (counted self.old) }
        requires tied { OneTableEach self.old }
        ensures counts { let more = λ (id : ℕ). some_if id seg 1 in
            OnOk result ((id : ℕ) → counted self.new id ≡ counted self.old id + more id) }
        ensures seg { IfOk result (λ key. seg_in (get self.new.slab key) ≡ Some seg) }
        ensures pages { IfOk result (λ key. pages ≤ size_in (get self.new.slab key)) }
        ensures tables { KeepTables self.old.slab self.new.slab }
        ensures translated { let at = frame_of store.now in
            AllTrue at self.old.slab → AllTrue at self.new.slab }
        ensures tied { OneTableEach self.new }
        ensures slots { OnErr result (self.new.slab.slots ≡ self.old.slab.slots) }
        ensures err { OnErr result (KeepCounts self.old self.new) }
    {
        if let Some(key) = self.key(seg) {
            self.extend(store, key, pages)?;
            self.replace(seg, key, 0, 1);
            return Ok(key);
        }
        let mut table = Table::new(self.alloc, seg);
        table.extend(store, pages)?;
        self.slab.reserve(1)?;
        self.keys.reserve(seg)?;
        let key = self.slab.vacant_key();
        self.keys.put(seg, key);
        self.slab.insert_reserved(table);
        Ok(key)
    }

    /// Replaces `gone` pieces of a segment, whose table has this key, by `parts` others. Removes the table if
    /// none is left. Takes no memory.
    pub(crate) fn replace(&mut self, seg: u32, key: usize, gone: u32, parts: u32)
        requires own { seg_in (get self.old.slab key) ≡ Some seg }
        requires gone { gone ≤ counted self.old seg }
        requires fits { counted self.old seg + parts < 2 ^ 32 }
        requires tied { OneTableEach self.old }
        ensures counts { (id : ℕ) → counted self.new id + some_if id seg gone
            ≡ counted self.old id + some_if id seg parts }
        ensures tables { KeepCounted self.old self.new }
        ensures translated { KeepFrames self.old.slab self.new.slab }
        ensures tied { OneTableEach self.new }
    {
        let Some(table) = self.slab.get_mut(key) else {
            return;
        };
        if table.replace(gone, parts) == 0 {
            self.keys.remove(seg);
            self.slab.try_remove(key);
        }
    }

    /// Removes pieces of a segment. Takes no memory.
    pub(crate) fn release(&mut self, seg: u32, gone: u32)
        requires gone { gone ≤ counted self.old seg }
        requires fits { counted self.old seg < 2 ^ 32 }
        requires tied { OneTableEach self.old }
        ensures counts { (id : ℕ) → counted self.new id + some_if id seg gone ≡ counted self.old id }
        ensures tables { KeepCounted self.old self.new }
        ensures translated { KeepFrames self.old.slab self.new.slab }
        ensures tied { OneTableEach self.new }
    {
        if let Some(key) = self.key(seg) {
            self.replace(seg, key, gone, 0);
        }
    }

    // Notes the frame of a page of the segment whose table has this key.
    #[inline(always)]
    fn set_at(&mut self, key: usize, page: PageRef, frame: Option<FrameNo>)
        requires own { seg_in (get self.old.slab key) ≡ Some page.seg }
        requires tied { OneTableEach self.old }
        ensures { Notes page frame self.old self.new }
    {
        if let Some(table) = self.slab.get_mut(key) {
            table.set(page, frame);
        }
    }

    // Notes the frame of a page. Kept out of line, so that accesses to resident pages do not pay for it.
    #[inline(never)]
    fn set(&mut self, page: PageRef, frame: Option<FrameNo>)
        requires { OneTableEach self.old }
        ensures { Notes page frame self.old self.new }
    {
        if let Some(key) = self.key(page.seg) {
            self.set_at(key, page, frame);
        }
    }

    /// Notes the frames of pages that moved, in order, each in its segment's table. Takes no memory.
    #[inline(always)]
    pub(crate) fn note(&mut self, moves: &[PageMove])
        requires { OneTableEach self.old }
        ensures counts { KeepCounts self.old self.new }
        ensures tables { KeepTables self.old.slab self.new.slab }
        ensures translated { (at : ℕ → ℕ → Option ℕ) → AllTrue at self.old.slab
            → AllTrue (λ seg page. moved moves.now seg page (at seg page)) self.new.slab }
        ensures tied { OneTableEach self.new }
    {
        for entry in moves {
            match *entry {
                PageMove::Gone(page) => self.set(page, None),
                PageMove::Came(page, frame) => self.set(page, Some(frame)),
            }
        }
    }
}

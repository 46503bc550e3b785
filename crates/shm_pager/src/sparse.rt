//! Pages in memory, where pages of zeros take no memory.
ghost use Rattle.std.specs.Prelude.{◌≡◌, ◌≢◌, ◌+◌, ◌<◌, ◌≤◌, ◌↔◌, [], length, set, get_or, replicate, vec_capacity, None, Some, IsTrue, IsOk, IfOk, MatchOption, OnErr};
ghost use Rattle.shm_base.specs.Page.{zero_page};
ghost use Rattle.shm_pager_core.specs.Pages.{last_count};
ghost use Rattle.shm_base.specs.Stored.{padded};

use shm_base::{HostMemory, PAGE_BYTES, zeros};
use shm_pager_core::{ClonePager, Pager, PagerFault};
use std::alloc::{AllocError, Global};
use std::marker::Model;

/// The memory of a page. The page is zeroed before its memory is returned, wherever that happens.
struct Room {
    page: Box<[u8; PAGE_BYTES]>,
}

impl Model for Room {
    ghost use Rattle.std.specs.Prelude.{ℕ, List};

    ghost Value = { List ℕ };

    ghost view = { λ r. r.page.value };
}

impl Room {
    fn new(alloc: Global, page: &[u8; PAGE_BYTES]) -> Result<Room, AllocError>
        ensures { IfOk result (λ r. r ≡ page.now) }
    {
        Ok(Room {
            page: Box::new(alloc, *page)?,
        })
    }

    fn fill(&mut self, page: &[u8; PAGE_BYTES])
        ensures { self.new ≡ page.now }
    {
        *self.page = *page;
    }

    // Returns the memory, which holds only zeros by now.
    fn release(self)
        requires { self ≡ zero_page }
    {
        let Room { page: _ } = self;
    }
}

impl Drop for Room {
    fn drop(mut self) {
        self.fill(&zeros());
        self.release();
    }
}

/// Pages in memory, with an allocation for each that is not all zeros. A read never fails. A write fails only
/// if it needs memory and the allocator has none. A page of zeros that is written returns the slot's memory.
pub struct SparsePager {
    alloc: Global,
    // The slots up to the last that was written; later ones hold zeros.
    pages: Vec<Option<Room>>,
    slots: u32,
    failed: u64,
}

impl Model for SparsePager {
    ghost use Rattle.std.specs.Prelude.{◌≤◌, length, map, vec_capacity};
    ghost use Rattle.shm_base.specs.Page.{zero_page};
    ghost use Rattle.shm_base.specs.Stored.{padded};
    ghost use Rattle.shm_pager.specs.Sparse.{SparseView, page_behind, NoZeros};

    ghost Value = { SparseView };

    ghost view = { λ s. record {
      pages = padded (map page_behind s.pages.items) s.slots zero_page;
      failed = s.failed;
    } };

    ghost invariant = { λ s. (length s.pages.items ≤ s.slots) × (s.slots ≤ vec_capacity s.pages)
        × NoZeros s.pages.items };
}

fn is_zero(page: &[u8; PAGE_BYTES]) -> bool
    ensures { IsTrue result ↔ (page.now ≡ zero_page) }
{
    page.iter().all(|&byte| byte == 0)
}

// Extends the table up to this slot.
fn reach(pages: &mut Vec<Option<Room>>, slot: u32)
    requires { slot < vec_capacity pages.old }
    ensures items { pages.new.items ≡ padded pages.old.items (slot + 1) None }
    ensures capacity { vec_capacity pages.new ≡ vec_capacity pages.old }
{
    for _i in pages.len()..slot as usize + 1 {
        pages.push_reserved(None);
    }
}

// The slot's page, unless it is all zeros.
fn room_at(pages: &Vec<Option<Room>>, slot: u32) -> Option<&Room>
    ensures { let held = get_or pages.now.items slot None in
        MatchOption result (held ≡ None) (λ room. held ≡ Some room.now) }
{
    pages.get(slot as usize)?.as_ref()
}

// Makes a slot hold zeros.
fn clear(pages: &mut Vec<Option<Room>>, slot: u32)
    ensures items { pages.new.items ≡ set pages.old.items slot None }
    ensures capacity { vec_capacity pages.new ≡ vec_capacity pages.old }
{
    if let Some(place) = pages.get_mut(slot as usize) {
        *place = None;
    }
}

// A copy of a page's memory, if there is any.
fn copied_room(alloc: Global, place: &Option<Room>) -> Result<Option<Room>, AllocError>
    ensures { IfOk result (λ copy. copy ≡ place.now) }
{
    match place {
        Some(room) => Ok(Some(Room::new(alloc, &room.page)?)),
        None => Ok(None),
    }
}

// A copy of all pages, in a table that has room for each slot.
fn copied_rooms(
    alloc: Global,
    pages: &Vec<Option<Room>>,
    slots: u32,
) -> Result<Vec<Option<Room>>, AllocError>
    requires { length pages.now.items ≤ slots }
    ensures items { IfOk result (λ copy. copy.items ≡ pages.now.items) }
    ensures room { IfOk result (λ copy. slots ≤ vec_capacity copy) }
{
    let mut copy = Vec::with_capacity(alloc, slots as usize)?;
    for place in pages {
        copy.push_reserved(copied_room(alloc, place)?);
    }
    Ok(copy)
}

#[tactic(auto, using(crate::proofs::Rooms::rooms))]
impl SparsePager {
    /// A pager with zeros in each slot. It reserves a place in its table for each, and touches none.
    /// AllocError: the host refused memory.
    pub fn new(alloc: Global, slots: u32) -> Result<SparsePager, AllocError>
        ensures { IfOk result (λ p. p ≡ record { pages = replicate slots zero_page; failed = 0 }) }
    {
        Ok(SparsePager {
            alloc,
            pages: Vec::with_capacity(alloc, slots as usize)?,
            slots,
            failed: 0,
        })
    }

    // Returns the memory, which holds no page by now.
    fn release(self)
        requires { self.pages ≡ replicate (length self.pages) zero_page }
    {
        let SparsePager {
            alloc: _,
            pages: _,
            slots: _,
            failed: _,
        } = self;
    }
}

#[tactic(auto, using(crate::proofs::Rooms::rooms))]
impl Pager for SparsePager {
    ghost content = { λ p. p.pages };

    ghost failed = { λ p. p.failed };

    /// A write may fail as often as the host refuses memory.
    ghost most = { λ _. last_count };

    ghost calls = { λ _. [] };

    fn slots(&self) -> u32 {
        self.slots
    }

    fn failures(&self) -> u64 {
        self.failed
    }

    /// Fails only if a page that is not all zeros would replace zeros, and there is no memory for it. The
    /// slot keeps its zeros.
    fn write(&mut self, slot: u32, page: &[u8; PAGE_BYTES]) -> Result<(), PagerFault>
        requires there { slot < length self.old.pages }
        requires countable { self.old.failed < last_count }
        ensures ok { IfOk result (λ _.
            self.new ≡ record self.old { pages = set self.old.pages slot page.now }) }
        ensures err { OnErr result (self.new ≡ record self.old { failed = self.old.failed + 1 }) }
        ensures cause { OnErr result
            ((get_or self.old.pages slot [] ≡ zero_page) × (page.now ≢ zero_page)) }
    {
        if is_zero(page) {
            clear(&mut self.pages, slot);
            return Ok(());
        }
        reach(&mut self.pages, slot);
        let place = &mut self.pages[slot as usize];
        if let Some(room) = place {
            room.fill(page);
            return Ok(());
        }
        match Room::new(self.alloc, page) {
            Ok(room) => {
                *place = Some(room);
                Ok(())
            }
            Err(_) => {
                self.failed += 1;
                Err(PagerFault)
            }
        }
    }

    fn read(&mut self, slot: u32, page: &mut [u8; PAGE_BYTES]) -> Result<(), PagerFault>
        requires { slot < length self.old.pages }
        ensures served { IsOk result }
        ensures content { self.new ≡ self.old }
        ensures page { get_or self.old.pages slot [] ≡ page.new }
    {
        match room_at(&self.pages, slot) {
            Some(room) => *page = *room.page,
            None => *page = zeros(),
        }
        Ok(())
    }

    /// Afterwards the slot holds zeros, and takes no memory.
    fn discard(&mut self, slot: u32)
        requires { slot < length self.old.pages }
        ensures { self.new ≡ record self.old { pages = set self.old.pages slot zero_page } }
    {
        clear(&mut self.pages, slot);
    }

    fn wipe(&mut self)
        ensures { self.new ≡ record self.old { pages = replicate (length self.old.pages) zero_page } }
    {
        for place in self.pages.iter_mut() {
            *place = None;
        }
    }
}

impl ClonePager for SparsePager {
    /// Reserves a place for each slot, as [`SparsePager::new`] does, and visits those up to the last that was
    /// written.
    fn try_clone(&self) -> Result<SparsePager, HostMemory> {
        Ok(SparsePager {
            alloc: self.alloc,
            pages: copied_rooms(self.alloc, &self.pages, self.slots)?,
            slots: self.slots,
            failed: self.failed,
        })
    }
}

impl Drop for SparsePager {
    fn drop(mut self) {
        self.wipe();
        self.release();
    }
}

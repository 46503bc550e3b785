//! How many pages of a segment are in frames, and how many only in slots (/proc/sysvipc/shm).
ghost use Rattle.std.specs.Prelude.{◌≡◌, ◌≤◌, count_by, length};
ghost use Rattle.shm_fault.specs.Sound.{IsStoreSound};
ghost use Rattle.shm_life.specs.Residency.{ShowsPages, is_away, resident_below, swapped_of};

use crate::system::System;
use shm_base::PageRef;
use shm_fault::PageStore;
use shm_pager_core::Pager;

/// Where the pages of a segment are. Those that were never touched are in no frame and in no slot.
#[derive(Clone, Copy, Debug, PartialEq, Eq)]
pub struct SegmentPages {
    /// Pages in frames.
    pub resident: u64,
    /// Pages only in slots.
    pub swapped: u64,
}

// How many of the pages of a segment, of which there are this many, are in frames. Walks those in frames or slots.
fn resident_of<P: Pager>(store: &PageStore<P>, seg: u32, pages: u32) -> u64
    ensures { result ≡ resident_below store.now seg pages }
{
    let mut count = 0;
    let mut page = store.next_placed(PageRef { seg, page: 0 }, pages);
    while page < pages {
        if store.frame(seg, page).is_some() {
            count += 1;
        }
        let next = PageRef {
            seg,
            page: page + 1,
        };
        page = store.next_placed(next, pages);
    }
    count
}

// Whether the owner of a slot is a page of a segment that is in no frame.
fn is_away<P: Pager>(store: &PageStore<P>, seg: u32, owner: &Option<PageRef>) -> bool
    ensures { result ≡ is_away store.now seg owner.now }
{
    match owner {
        Some(page) => page.seg == seg && store.frame(page.seg, page.page).is_none(),
        None => false,
    }
}

// How many of these owners are pages of a segment that are in no frame.
fn away_among<P: Pager>(store: &PageStore<P>, seg: u32, owners: &[Option<PageRef>]) -> u64
    ensures value { result ≡ count_by (is_away store.now seg) owners.now }
    ensures few { result ≤ length owners.now }
{
    let mut count = 0;
    for owner in owners {
        if is_away(store, seg, owner) {
            count += 1;
        }
    }
    count
}

// How many slots have a page of a segment that is in no frame. Walks all slots that were ever used.
fn swapped_of<P: Pager>(store: &PageStore<P>, seg: u32) -> u64
    requires { IsStoreSound store.now }
    ensures { result ≡ swapped_of store.now seg }
{
    let mut count = 0;
    for area in 0..store.swap().areas() {
        count += away_among(store, seg, store.swap().owners(area));
    }
    count
}

impl<P: Pager> System<P> {
    /// Where the pages of a segment are. None if no segment has the identifier. Walks the pages of the segment
    /// that are in a frame or a slot, and all slots that were ever used.
    pub fn pages_of(&self, seg: u32) -> Option<SegmentPages>
        ensures { ShowsPages self.now.machine self.now.memory seg result }
    {
        let found = self.kernel.segments.find(seg)?;
        let store = self.store();
        Some(SegmentPages {
            resident: resident_of(store, seg, found.pages()),
            swapped: swapped_of(store, seg),
        })
    }
}

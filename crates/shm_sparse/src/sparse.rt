//! A list of which most items are alike: the others are stored in runs.
ghost use Rattle.std.specs.Prelude.{◌≡◌, ◌≢◌, ◌^◌, ℕ, ◌+◌, ◌-◌, ◌*◌, ◌<◌, ◌≤◌, ◌/◌, ◌++◌, [], length, get_or, replicate, set, IfOk, IfSome, IfNone, OnOk, OnErr, vec_capacity};
ghost use Rattle.shm_sparse.specs.Sparse.{AreRuns, extended, item_at, no_place, place_at, room_for, run_length, runs_for};

use std::alloc::{AllocError, Global};
use std::marker::Model;

/// How many items are stored together.
const RUN: usize = 256;

/// The place of a run that is not stored.
const NO_PLACE: u32 = u32::MAX;

/// A list of items that are all alike until they are set. Items are stored in runs of 256, from the time that one of
/// the run is set. Room for all runs is reserved when the list is made or extended, so that setting an item takes no
/// memory. Room that is not used costs nothing. A run that is not stored takes four bytes if a later one is stored.
pub struct SparseVec<T: Copy> {
    count: u32,
    other: T,
    // For each of the first runs its place among the stored ones. Later runs are not stored.
    runs: Vec<u32>,
    stored: Vec<T>,
}

impl<T: Copy> Drop for SparseVec<T> {
    fn drop(self) {
        let SparseVec {
            count: _,
            other: _,
            runs: _,
            stored: _,
        } = self;
    }
}

impl<T: Copy> Model for SparseVec<T> {
    ghost use Rattle.std.specs.Prelude.{◌≤◌, ◌<◌, ◌*◌, ◌^◌, length, vec_capacity};
    ghost use Rattle.shm_sparse.specs.Sparse.{AreRuns, IsShort, SparseView, items_of, room_for, runs_for};

    ghost Value = { SparseView T };

    ghost view = { λ v. record { other = v.other; items = items_of v.other v.runs.items v.stored.items v.count } };

    ghost invariant = { λ v. AreRuns v.runs.items (length v.stored.items)
        × (length v.runs.items ≤ runs_for v.count)
        × (runs_for v.count ≤ vec_capacity v.runs)
        × (room_for v.count ≤ vec_capacity v.stored)
        × (v.count < 2 ^ 32)
        × IsShort v.other v.runs.items v.stored.items v.count };
}

impl<T: Copy> Clone for SparseVec<T> {
    ghost is_clone = { λ list copy. copy ≡ list };

    fn clone(&self) -> Result<SparseVec<T>, AllocError> {
        Ok(SparseVec {
            count: self.count,
            other: self.other,
            runs: copy_with_room(&self.runs, runs_for(self.count))?,
            stored: copy_with_room(&self.stored, room_for(self.count))?,
        })
    }
}

// How many runs this many items have.
fn runs_for(count: u32) -> usize
    ensures { result ≡ runs_for count }
{
    (count as usize + RUN - 1) / RUN
}

// Room for the items that can be stored. Without a second run these are the items, and no others follow them.
fn room_for(count: u32) -> usize
    ensures { result ≡ room_for count }
{
    if count as usize <= RUN {
        return count as usize;
    }
    runs_for(count) * RUN
}

// A copy of a vector, with room for this many items.
fn copy_with_room<T: Copy>(items: &Vec<T>, room: usize) -> Result<Vec<T>, AllocError>
    ensures items { IfOk result (λ copy. copy.items ≡ items.now.items) }
    ensures room { IfOk result (λ copy. room ≤ vec_capacity copy) }
{
    let mut copy = Vec::with_capacity(*items.allocator(), room)?;
    copy.extend_from_slice(items)?;
    Ok(copy)
}

// The first stored run from `from` on.
fn next_run(runs: &[u32], from: usize) -> Option<usize>
    ensures some { IfSome result (λ next. (run : ℕ) → from ≤ run → run < next
        → place_at runs.now run ≡ no_place) }
    ensures there { IfSome result (λ next. next < length runs.now) }
    ensures none { IfNone result ((run : ℕ) → from ≤ run → place_at runs.now run ≡ no_place) }
{
    for run in from..runs.len() {
        if runs[run] != NO_PLACE {
            return Some(run);
        }
    }
    None
}

// Appends items that are `other`, until there are at least this many.
fn fill<T: Copy>(items: &mut Vec<T>, count: usize, other: T)
    requires { count ≤ vec_capacity items.old }
    ensures items { items.new.items ≡ items.old.items ++ replicate (count - length items.old.items) other }
    ensures room { vec_capacity items.old ≤ vec_capacity items.new }
{
    if items.len() < count {
        let Ok(()) = items.resize(count, other) else {
            unreachable!();
        };
    }
}

// Stores the first item of a run, if it is not stored yet, and returns the run's place.
fn store_run<T: Copy>(runs: &mut Vec<u32>, stored: &mut Vec<T>, other: T, run: usize) -> u32
    requires there { run < length runs.old.items }
    requires runs { AreRuns runs.old.items (length stored.old.items) }
    requires room { run_length * length runs.old.items < vec_capacity stored.old + run_length }
    requires few { length runs.old.items < no_place }
    ensures place { place_at runs.new.items run ≡ result }
    ensures stored { result ≢ no_place }
    ensures runs { AreRuns runs.new.items (length stored.new.items) }
    ensures count { length runs.new.items ≡ length runs.old.items }
    ensures place_room { vec_capacity runs.old ≤ vec_capacity runs.new }
    ensures room { vec_capacity stored.old ≤ vec_capacity stored.new }
    ensures same { (index : ℕ) → item_at other runs.new.items stored.new.items index
        ≡ item_at other runs.old.items stored.old.items index }
{
    let known = runs[run];
    if known != NO_PLACE {
        return known;
    }
    let place = (stored.len() + RUN - 1) / RUN;
    fill(stored, place * RUN + 1, other);
    runs[run] = place as u32;
    place as u32
}

impl<T: Copy> SparseVec<T> {
    /// A list of this many items, all `other`. Takes the same time for any number of items.
    pub fn new(alloc: Global, count: u32, other: T) -> Result<SparseVec<T>, AllocError>
        ensures { IfOk result (λ v. v ≡ record { other = other; items = replicate count other }) }
    {
        Ok(SparseVec {
            count,
            other,
            runs: Vec::with_capacity(alloc, runs_for(count))?,
            stored: Vec::with_capacity(alloc, room_for(count))?,
        })
    }

    /// A list without items. Takes no memory.
    pub fn empty(alloc: Global, other: T) -> SparseVec<T>
        ensures { result ≡ record { other = other; items = [] } }
    {
        SparseVec {
            count: 0,
            other,
            runs: Vec::new(alloc),
            stored: Vec::new(alloc),
        }
    }

    /// Makes the list at least this long; its new items are `other`.
    pub fn extend(&mut self, count: u32) -> Result<(), AllocError>
        ensures ok { OnOk result (self.new ≡ extended self.old count) }
        ensures err { OnErr result (self.new ≡ self.old) }
    {
        if count <= self.count {
            return Ok(());
        }
        self.runs.reserve_exact(runs_for(count) - self.runs.len())?;
        self.stored
            .reserve_exact(room_for(count).saturating_sub(self.stored.len()))?;
        self.count = count;
        Ok(())
    }

    /// The number of items.
    pub fn len(&self) -> u32
        ensures { result ≡ length self.now.items }
    {
        self.count
    }

    /// The item at an index; `other` from the end on.
    pub fn get(&self, index: usize) -> T
        ensures { result ≡ get_or self.now.items index self.now.other }
    {
        match self.stored(index) {
            Some(item) => *item,
            None => self.other,
        }
    }

    /// The item at an index if it is stored. An item that is not stored is `other`.
    #[inline(always)]
    pub fn stored(&self, index: usize) -> Option<&T>
        ensures some { IfSome result (λ item. item.now ≡ get_or self.now.items index self.now.other) }
        ensures none { IfNone result (get_or self.now.items index self.now.other ≡ self.now.other) }
    {
        let place = self.runs.get(index / RUN)?;
        self.stored.get(*place as usize * RUN + index % RUN)
    }

    /// Sets the item at an index.
    pub fn set(&mut self, index: usize, item: T)
        requires { index < length self.old.items }
        ensures { self.new ≡ record self.old { items = set self.old.items index item } }
    {
        let run = index / RUN;
        fill(&mut self.runs, run + 1, NO_PLACE);
        let place = store_run(&mut self.runs, &mut self.stored, self.other, run);
        let at = place as usize * RUN + index % RUN;
        fill(&mut self.stored, at + 1, self.other);
        self.stored[at] = item;
    }

    /// The first index from `first` up to `last` that is in a stored run; `last` if there is none. Passes a run that
    /// is not stored at once.
    pub fn next_stored(&self, first: u32, last: u32) -> u32
        requires { first ≤ last }
        ensures on { first ≤ result }
        ensures within { result ≤ last }
        ensures over { (index : ℕ) → first ≤ index → index < result
            → get_or self.now.items index self.now.other ≡ self.now.other }
    {
        match next_run(&self.runs, first as usize / RUN) {
            Some(run) => (run * RUN).max(first as usize).min(last as usize) as u32,
            None => last,
        }
    }
}

//! The keys of the tables of attached segments, by the segments' indexes.
ghost use Rattle.std.specs.Prelude.{◌≡◌, ◌≢◌, ◌↔◌, ℕ, ◌%◌, ◌<◌, true, nat_eq, if◌then◌else◌, [], length, Some, None, IsSome, IfOk, OnOk};
ghost use Rattle.shm_base.specs.declared.bounds.TheConstants.{INDEXES};
ghost use Rattle.shm_attach.specs.Keys.{entry_at, key_at};

use shm_base::INDEXES;
use std::alloc::{AllocError, Global};
use std::marker::Model;

/// A segment and the key of its table.
#[derive(Clone, Copy)]
pub(crate) struct Keyed {
    pub(crate) seg: u32,
    pub(crate) key: usize,
}

/// The key of each attached segment's table, at the segment's index. Contracts see the list.
pub(crate) struct Keys {
    entries: Vec<Option<Keyed>>,
}

impl Drop for Keys {
    fn drop(self) {
        let Keys { entries: _ } = self;
    }
}

impl Model for Keys {
    ghost use Rattle.std.specs.Prelude.{List, Option};
    ghost use Rattle.shm_attach.specs.declared.keys.Keyed.{Keyed};
    ghost use Rattle.shm_attach.specs.Keys.{AreInPlace};

    ghost Value = { List (Option Keyed) };

    ghost view = { λ k. k.entries.items };

    ghost invariant = { λ k. AreInPlace k.entries.items };
}

fn place_of(seg: u32) -> usize
    ensures { result ≡ seg % INDEXES }
{
    (seg % INDEXES) as usize
}

// The entry at a segment's index.
#[inline(always)]
fn entry_of(entries: &Vec<Option<Keyed>>, seg: u32) -> Option<Keyed>
    ensures { result ≡ entry_at entries.now.items (seg % INDEXES) }
{
    entries.get(place_of(seg)).copied().flatten()
}

// Makes the list reach this index.
fn grow(entries: &mut Vec<Option<Keyed>>, index: usize) -> Result<(), AllocError>
    requires { index < INDEXES }
    ensures room { OnOk result (index < length entries.new.items) }
    ensures same { (i : ℕ) → entry_at entries.new.items i ≡ entry_at entries.old.items i }
{
    for _ in entries.len()..index + 1 {
        entries.push(None)?;
    }
    Ok(())
}

impl Keys {
    /// No keys.
    pub(crate) fn new(alloc: Global) -> Keys
        ensures { result ≡ [] }
    {
        Keys {
            entries: Vec::new(alloc),
        }
    }

    /// A copy.
    pub(crate) fn try_clone(&self) -> Result<Keys, AllocError>
        ensures { IfOk result (λ copy. copy ≡ self.now) }
    {
        let entries = Vec::from_slice(*self.entries.allocator(), &self.entries)?;
        Ok(Keys { entries })
    }

    /// The key of a segment's table.
    #[tactic(auto, unfolding(crate::specs::Keys::key_at))]
    #[inline(always)]
    pub(crate) fn find(&self, seg: u32) -> Option<usize>
        ensures { result ≡ key_at self.now seg }
    {
        match entry_of(&self.entries, seg) {
            Some(keyed) if keyed.seg == seg => Some(keyed.key),
            _ => None,
        }
    }

    /// Whether no other segment with a segment's index has a key.
    pub(crate) fn is_only_at(&self, seg: u32) -> bool
        ensures { (result ≡ true) ↔ ((id : ℕ) → id % INDEXES ≡ seg % INDEXES → id ≢ seg
            → key_at self.now id ≡ None) }
    {
        match entry_of(&self.entries, seg) {
            Some(keyed) => keyed.seg == seg,
            None => true,
        }
    }

    /// Makes room for a segment. The host may refuse memory.
    pub(crate) fn reserve(&mut self, seg: u32) -> Result<(), AllocError>
        ensures room { OnOk result (seg % INDEXES < length self.new) }
        ensures keys { (id : ℕ) → key_at self.new id ≡ key_at self.old id }
    {
        grow(&mut self.entries, place_of(seg))
    }

    /// Puts the key of a segment's table, for which there is room.
    pub(crate) fn put(&mut self, seg: u32, key: usize)
        requires room { seg % INDEXES < length self.old }
        requires free { (id : ℕ) → id % INDEXES ≡ seg % INDEXES → key_at self.old id ≡ None }
        ensures { (id : ℕ) → key_at self.new id ≡ (if nat_eq seg id then Some key else key_at self.old id) }
    {
        self.entries[place_of(seg)] = Some(Keyed { seg, key });
    }

    /// Takes out the key of a segment's table.
    pub(crate) fn remove(&mut self, seg: u32)
        requires { IsSome (key_at self.old seg) }
        ensures { (id : ℕ) → key_at self.new id ≡ (if nat_eq seg id then None else key_at self.old id) }
    {
        self.entries[place_of(seg)] = None;
    }
}

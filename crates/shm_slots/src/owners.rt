//! The owner of each slot of an area, and the least free slot.
ghost use Rattle.std.specs.Prelude.{◌≡◌, ◌<◌, ◌≤◌, ◌^◌, ℕ, [], length, nat_lt, is_some, set, get_or, replicate, vec_capacity, Some, None, IfOk};
ghost use Rattle.shm_base.specs.Stored.{padded};
ghost use Rattle.shm_base.specs.Numbers.{is_taken};
ghost use Rattle.shm_slots.specs.Owners.{IsLeastFree, FoundLeast, used_count};

use shm_base::{Numbers, PageRef};
use std::alloc::{AllocError, Global};
use std::marker::Model;

/// The owners of an area's slots. A slot that was never owned has no entry.
pub(crate) struct Owners {
    // The first slots. All later ones are free, because the least free slot is taken first.
    slots: Vec<Option<PageRef>>,
    count: u32,
    // A number is taken while its slot is owned.
    numbers: Numbers,
    used: usize,
}

impl Drop for Owners {
    fn drop(self) {
        let Owners {
            slots: _,
            count: _,
            numbers: _,
            used: _,
        } = self;
    }
}

impl Model for Owners {
    ghost use Rattle.std.specs.Prelude.{◌<◌, ◌≤◌, ◌^◌, List, Option, None, length, vec_capacity};
    ghost use Rattle.shm_base.specs.declared.paging.PageRef.{PageRef};
    ghost use Rattle.shm_base.specs.Stored.{padded};
    ghost use Rattle.shm_slots.specs.Owners.{AreOwnersSound};

    ghost Value = { List (Option PageRef) };

    ghost view = { λ o. padded o.slots.items o.count None };

    ghost invariant = { λ o. (length o.slots.items ≤ o.count) × (o.count ≤ vec_capacity o.slots)
        × (o.count < 2 ^ 32)
        × AreOwnersSound (padded o.slots.items o.count None) o.numbers o.used };
}

// Sets the owner of a slot: of the first one without an entry, or of one that has an entry.
fn put_owner(slots: &mut Vec<Option<PageRef>>, slot: u32, owner: PageRef)
    requires within { slot ≤ length slots.old.items }
    requires room { slot < vec_capacity slots.old }
    ensures items { (count : ℕ) → slot < count → length slots.old.items ≤ count
        → padded slots.new.items count None ≡ set (padded slots.old.items count None) slot (Some owner) }
    ensures fit { (count : ℕ) → slot < count → length slots.old.items ≤ count
        → length slots.new.items ≤ count }
    ensures capacity { vec_capacity slots.new ≡ vec_capacity slots.old }
{
    if slot as usize == slots.len() {
        slots.push_reserved(Some(owner));
    } else {
        slots[slot as usize] = Some(owner);
    }
}

// The numbers below `used` are taken, and there is room for those below `room`.
fn taken_below(alloc: Global, used: u32, room: u32) -> Result<Numbers, AllocError>
    requires { used ≤ room }
    ensures taken { IfOk result (λ numbers. (i : ℕ) → is_taken numbers i ≡ nat_lt i used) }
    ensures room { IfOk result (λ numbers. room ≤ numbers.room) }
{
    let mut numbers = Numbers::new(alloc);
    numbers.reserve(room)?;
    for _number in 0..used {
        numbers.take();
    }
    Ok(numbers)
}

// Returns the numbers of the free slots.
fn give_free(numbers: &mut Numbers, slots: &Vec<Option<PageRef>>)
    requires few { length slots.now.items < 2 ^ 32 }
    requires taken { (i : ℕ) → is_taken numbers.old i ≡ nat_lt i (length slots.now.items) }
    ensures taken { (i : ℕ) → is_taken numbers.new i ≡ is_some (get_or slots.now.items i None) }
    ensures room { numbers.new.room ≡ numbers.old.room }
{
    for slot in 0..slots.len() {
        if slots[slot].is_none() {
            numbers.give(slot as u32);
        }
    }
}

impl Owners {
    /// This many free slots. Reserves room for each owner, and touches none of it.
    pub(crate) fn new(alloc: Global, count: u32) -> Result<Owners, AllocError>
        ensures { IfOk result (λ o. o ≡ replicate count None) }
    {
        let mut numbers = Numbers::new(alloc);
        numbers.reserve(count)?;
        Ok(Owners {
            slots: Vec::with_capacity(alloc, count as usize)?,
            count,
            numbers,
            used: 0,
        })
    }

    /// A copy of the owners. Reserves room for each; visits only the slots that were ever owned.
    pub(crate) fn try_clone(&self) -> Result<Owners, AllocError>
        ensures { IfOk result (λ copy. copy ≡ self.now) }
    {
        let alloc = *self.slots.allocator();
        let mut slots = Vec::with_capacity(alloc, self.count as usize)?;
        slots.extend_from_slice(&self.slots)?;
        let mut numbers = taken_below(alloc, slots.len() as u32, self.count)?;
        give_free(&mut numbers, &slots);
        Ok(Owners {
            slots,
            count: self.count,
            numbers,
            used: self.used,
        })
    }

    /// How many slots are owned.
    pub(crate) fn used(&self) -> u32
        ensures { result ≡ used_count self.now }
    {
        self.used as u32
    }

    /// The owner of a slot.
    pub(crate) fn get(&self, slot: u32) -> Option<PageRef>
        requires { slot < length self.now }
        ensures { result ≡ get_or self.now slot None }
    {
        self.slots.get(slot as usize).copied().flatten()
    }

    /// The owners of the first slots: all those that were ever owned. The slots after them are free.
    pub(crate) fn entries(&self) -> &[Option<PageRef>]
        ensures few { length result.now ≤ length self.now }
        ensures owners { self.now ≡ padded result.now (length self.now) None }
    {
        self.slots.as_slice()
    }

    /// The least free slot.
    pub(crate) fn least_free(&self) -> Option<u32>
        ensures { FoundLeast self.now result }
    {
        let slot = self.numbers.least();
        if slot >= self.count {
            return None;
        }
        Some(slot)
    }

    /// Gives the least free slot an owner.
    pub(crate) fn take(&mut self, slot: u32, owner: PageRef)
        requires { IsLeastFree self.old slot }
        ensures { self.new ≡ set self.old slot (Some owner) }
    {
        put_owner(&mut self.slots, slot, owner);
        self.numbers.take();
        self.used += 1;
    }

    /// Frees a slot.
    pub(crate) fn give(&mut self, slot: u32)
        requires { slot < length self.old }
        ensures { self.new ≡ set self.old slot None }
    {
        if self.get(slot).is_some() {
            self.slots[slot as usize] = None;
            self.used -= 1;
            self.numbers.give(slot);
        }
    }

    /// Removes all slots.
    pub(crate) fn clear(&mut self)
        ensures { self.new ≡ [] }
    {
        self.slots.clear();
        self.count = 0;
        self.numbers.clear();
        self.used = 0;
    }
}

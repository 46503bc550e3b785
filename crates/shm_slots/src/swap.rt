//! All swap areas. A slot has one owner or none. Areas and slots have numbers, which do not change when
//! another area is dropped.
ghost use Rattle.std.specs.Prelude.{◌≡◌, ◌+◌, ◌<◌, ◌≤◌, ◌&&◌, [], length, set, map, min, true, false, not, Some, None, All, is_ok, IfOk, IfErr, OnErr, OnOk, IfNone, EachIndex};
ghost use Rattle.shm_pager_core.specs.Pages.{pager_seen, last_count};
ghost use Rattle.shm_slots.specs.View.{is_spent};

use crate::area::Area;
use shm_base::{HostMemory, PAGE_BYTES, PageRef, Slot};
use shm_pager_core::{ClonePager, ComingFailure, FailPager, FailRefused, Pager, PagerFault};
use std::alloc::Global;
use std::marker::Model;

/// Up to eight swap areas, each of up to 2^28 slots.
#[derive(Drop)]
pub struct Swap<P: Pager> {
    areas: Vec<Area<P>>,
    never_spent: bool,
}

impl<P: Pager> Model for Swap<P> {
    ghost use Rattle.shm_slots.specs.View.{SwapView, IsSwap};

    ghost Value = { SwapView };

    ghost view = { λ s. record { areas = s.areas.items; never_spent = s.never_spent } };

    ghost invariant = { λ s. IsSwap (record { areas = s.areas.items; never_spent = s.never_spent }) };
}

// Whether no area was ever spent, including this one in its present state.
fn stays_unspent<P: Pager>(never_spent: bool, area: &Area<P>) -> bool
    ensures { result ≡ (never_spent && not (is_spent area.now)) }
{
    never_spent && !area.is_spent()
}

// The same after a call of the area's pager. If that did not fail, the area's count is as before, and is not
// asked for.
fn unspent_after<P: Pager>(failed: bool, never_spent: bool, area: &Area<P>) -> bool
    requires { failed ≡ false → (never_spent && not (is_spent area.now)) ≡ never_spent }
    ensures { result ≡ (never_spent && not (is_spent area.now)) }
{
    if !failed {
        return never_spent;
    }
    stays_unspent(never_spent, area)
}

impl<P: Pager> Swap<P> {
    ghost use Rattle.shm_slots.specs.View.{SwapView, new_swap, with_new, fresh, area_at, with_area, off, HasSlot, owner_of, page_in, with_calls_at, with_slot_page, without_slot, FoundFree, Takes, OneArea, SameSlots, AfterReadFault, AfterWriteFault, size_of, sizes, swap_slots, used_in, used_slots, IsAreaSize, IsSwap, AreCountsOf};
    ghost use Rattle.shm_slots.specs.Cause.{total, had_cause, Counts, GoesOn, IsSteady};
    ghost use Rattle.shm_base.specs.declared.bounds.TheConstants.{MOST_AREAS};
    ghost use Rattle.shm_base.specs.Stored.{padded};

    /// A swap over these pagers, which become the areas 0, 1 and so on. No slot is owned. A pager that is
    /// spent when it is passed in counts as a spent area. HostMemory: the host refused memory.
    pub fn new(alloc: Global, pagers: Vec<P>) -> Result<Swap<P>, HostMemory>
        requires areas { (1 ≤ length pagers.items) × (length pagers.items ≤ MOST_AREAS) }
        requires sizes { All (λ p. IsAreaSize (length (P.content p))) pagers.items }
        ensures { IfOk result (λ s.
            s ≡ new_swap (map (λ p. fresh (pager_seen P.content P.failed P.most P.calls p)) pagers.items)) }
    {
        let mut areas = Vec::with_capacity(alloc, pagers.len())?;
        let mut never_spent = true;
        for pager in pagers {
            let area = Area::new(alloc, pager)?;
            never_spent = stays_unspent(never_spent, &area);
            areas.push(area)?;
        }
        Ok(Swap { areas, never_spent })
    }

    /// One more area, with the next number; none of its slots is owned. The other areas stay as they are. The
    /// count is at its last value if the pager is spent when it is passed in. HostMemory: the host refused
    /// memory, and nothing changed.
    pub fn add(&mut self, alloc: Global, pager: P) -> Result<(), HostMemory>
        requires few { length self.old.areas < MOST_AREAS }
        requires size { IsAreaSize (length (P.content pager)) }
        ensures ok { let area = fresh (pager_seen P.content P.failed P.most P.calls pager) in
            OnOk result (self.new ≡ with_new self.old area) }
        ensures err { OnErr result (self.new ≡ self.old) }
        ensures sound { OnOk result (IsSwap self.new) }
    {
        let area = Area::new(alloc, pager)?;
        let never_spent = stays_unspent(self.never_spent, &area);
        self.areas.push(area)?;
        self.never_spent = never_spent;
        Ok(())
    }

    /// The number of slots of all active areas.
    pub fn capacity(&self) -> u64
        ensures { result ≡ swap_slots self.now }
    {
        let mut total: u64 = 0;
        for area in &self.areas {
            total += u64::from(area.size().unwrap_or(0));
        }
        total
    }

    /// How many slots are owned.
    pub fn used(&self) -> u64
        ensures { result ≡ used_slots self.now }
    {
        let mut total: u64 = 0;
        for area in &self.areas {
            total += u64::from(area.owners().used());
        }
        total
    }

    /// The number of slots of an area, if it is active.
    pub fn size(&self, area: u32) -> Option<u32>
        ensures { result ≡ size_of (area_at self.now area) }
    {
        self.areas.get(area as usize)?.size()
    }

    /// The number of areas, those that are gone included.
    pub fn areas(&self) -> u32
        ensures { result ≡ length self.now.areas }
    {
        self.areas.len() as u32
    }

    /// The owners of the first slots of an area: all those that were ever owned. The slots after them are
    /// free. An area that is gone has none.
    pub fn owners(&self, area: u32) -> &[Option<PageRef>]
        ensures few { length result.now ≤ length (area_at self.now area).owners }
        ensures owners { let owners = (area_at self.now area).owners in
            owners ≡ padded result.now (length owners) None }
    {
        match self.areas.get(area as usize) {
            Some(area) => area.owners().entries(),
            None => &[],
        }
    }

    #[tactic(auto, unfolding(crate::specs::Cause::total))]
    /// How many failures the pagers have counted since they were passed in, those that are gone included. The
    /// sum stops at `u64::MAX`. All counts are counts of pagers, so pagers of a type that never fails give 0.
    pub fn failures(&self) -> u64
        ensures value { result ≡ min (total self.now) last_count }
        ensures counted { AreCountsOf P.failed self.now }
        ensures sound { IsSwap self.now }
    {
        let mut total: u64 = 0;
        for area in &self.areas {
            total = total.saturating_add(area.rise());
        }
        total
    }

    /// Whether no area, active or gone, was ever spent: a spent area's count is at `u64::MAX`.
    pub fn never_spent(&self) -> bool
        ensures value { result ≡ self.now.never_spent }
        ensures sound { IsSwap self.now }
    {
        // Each read and write updates this, so no pager is called here.
        self.never_spent
    }

    /// The owner of a slot.
    pub fn owner(&self, slot: Slot) -> Option<PageRef>
        requires { HasSlot self.now slot.area slot.slot }
        ensures { result ≡ owner_of self.now slot.area slot.slot }
    {
        self.areas[slot.area as usize].owners().get(slot.slot)
    }

    /// Gives an owner the least free slot of the first area that has one. None if all slots are owned.
    pub fn take_slot(&mut self, owner: PageRef) -> Option<Slot>
        ensures found { FoundFree self.old None result }
        ensures taken { Takes owner self.old result self.new }
        ensures full { IfNone result (used_slots self.old ≡ swap_slots self.old) }
        ensures steady { IsSteady self.old self.new }
        ensures sound { IsSwap self.new }
    {
        self.take_free(owner, None)
    }

    /// As [`Swap::take_slot`], but never takes a slot of this area.
    pub fn take_outside(&mut self, owner: PageRef, area: u32) -> Option<Slot>
        ensures found { FoundFree self.old (Some area) result }
        ensures taken { Takes owner self.old result self.new }
        ensures full { let without = area_at self.old area in
            IfNone result
            (used_slots self.old + length without.pages ≡ swap_slots self.old + used_in without) }
        ensures steady { IsSteady self.old self.new }
        ensures sound { IsSwap self.new }
    {
        self.take_free(owner, Some(area))
    }

    fn take_free(&mut self, owner: PageRef, left_out: Option<u32>) -> Option<Slot>
        ensures found { FoundFree self.old left_out result }
        ensures taken { Takes owner self.old result self.new }
        ensures steady { IsSteady self.old self.new }
        ensures sound { IsSwap self.new }
    {
        let slot = self.first_free(left_out)?;
        self.areas[slot.area as usize].take(slot.slot, owner);
        Some(slot)
    }

    // The least free slot of the first area that has one; one area may be left out.
    fn first_free(&self, left_out: Option<u32>) -> Option<Slot>
        ensures { FoundFree self.now left_out result }
    {
        for i in 0..self.areas.len() {
            let area = i as u32;
            if left_out == Some(area) {
                continue;
            }
            if let Some(slot) = self.areas[i].owners().least_free() {
                return Some(Slot { area, slot });
            }
        }
        None
    }

    /// Writes a page to a slot. After an error the slot's page is unknown.
    #[tactic(auto, using(crate::proofs::Changes::area_within, crate::proofs::Changes::slot_within))]
    pub fn write_slot(&mut self, slot: Slot, page: &[u8; PAGE_BYTES]) -> Result<(), PagerFault>
        requires { HasSlot self.old slot.area slot.slot }
        ensures ok { IfOk result (λ _.
            self.new ≡ with_slot_page self.old slot page.now (area_at self.new slot.area).calls) }
        ensures err { IfErr result (λ _.
            AfterWriteFault slot.slot (area_at self.old slot.area) (area_at self.new slot.area)) }
        ensures cause { OnErr result (had_cause self.old self.new ≡ true) }
        ensures failures { Counts (is_ok result) self.old self.new }
        ensures others { OneArea slot.area self.old self.new }
        ensures goes_on { GoesOn self.old self.new }
        ensures sizes { sizes self.new ≡ sizes self.old }
        ensures sound { IsSwap self.new }
    {
        let area = &mut self.areas[slot.area as usize];
        let result = area.write(slot.slot, page);
        self.never_spent = unspent_after(result.is_err(), self.never_spent, area);
        result
    }

    /// Reads the page in a slot. After an error the buffer's bytes are unknown.
    #[tactic(auto, using(crate::proofs::Changes::area_within, crate::proofs::Changes::slot_within))]
    pub fn read_slot(&mut self, slot: Slot, page: &mut [u8; PAGE_BYTES]) -> Result<(), PagerFault>
        requires { HasSlot self.old slot.area slot.slot }
        ensures ok { IfOk result (λ _.
            self.new ≡ with_calls_at self.old slot.area (area_at self.new slot.area).calls) }
        ensures page { IfOk result (λ _. page_in self.old slot.area slot.slot ≡ page.new) }
        ensures err { IfErr result (λ _.
            AfterReadFault (area_at self.old slot.area) (area_at self.new slot.area)) }
        ensures cause { OnErr result (had_cause self.old self.new ≡ true) }
        ensures failures { Counts (is_ok result) self.old self.new }
        ensures kept { SameSlots self.old self.new }
        ensures others { OneArea slot.area self.old self.new }
        ensures goes_on { GoesOn self.old self.new }
        ensures sizes { sizes self.new ≡ sizes self.old }
        ensures sound { IsSwap self.new }
    {
        let area = &mut self.areas[slot.area as usize];
        let result = area.read(slot.slot, page);
        self.never_spent = unspent_after(result.is_err(), self.never_spent, area);
        result
    }

    /// Frees a slot, and tells its pager that the page is no longer needed. Afterwards the slot's page is
    /// unknown.
    pub fn give_slot(&mut self, slot: Slot)
        requires { HasSlot self.old slot.area slot.slot }
        ensures given { self.new ≡ without_slot self.old slot (page_in self.new slot.area slot.slot) }
        ensures steady { IsSteady self.old self.new }
        ensures sound { IsSwap self.new }
    {
        self.areas[slot.area as usize].give(slot.slot);
    }

    /// Drops an area's pager. The area keeps its number and its count of failures. None of its slots may be
    /// owned.
    pub fn turn_off(&mut self, area: u32)
        requires there { area < length self.old.areas }
        requires free { let owners = (area_at self.old area).owners in
            EachIndex owners (λ slot. owner_of self.old area slot ≡ None) }
        ensures gone { self.new ≡ with_area self.old area (off (area_at self.old area)) }
        ensures goes_on { GoesOn self.old self.new }
        ensures failures { total self.new ≡ total self.old }
        ensures sizes { sizes self.new ≡ set (sizes self.old) area None }
        ensures sound { IsSwap self.new }
    {
        self.areas[area as usize].turn_off();
    }
}

impl<P: ClonePager> Swap<P> {
    /// A copy of the areas, each with its own copy of its pager. Slots that were never used are not visited.
    /// HostMemory: the host refused memory.
    pub fn try_clone(&self) -> Result<Swap<P>, HostMemory>
        ensures { IfOk result (λ copy. copy ≡ self.now) }
    {
        let mut areas = Vec::with_capacity(*self.areas.allocator(), self.areas.len())?;
        for area in &self.areas {
            areas.push(area.try_clone()?)?;
        }
        Ok(Swap {
            areas,
            never_spent: self.never_spent,
        })
    }
}

impl<P: FailPager> Swap<P> {
    ghost use Rattle.shm_slots.specs.Failing.{FailsInSwap, IsRefusedIn, with_bad};
    ghost use Rattle.shm_slots.specs.View.{HasSlot, IsSwap, SameSlots, area_at, sizes, with_area};

    /// Makes a call of an area to come fail. Calls no pager, and no page changes. `NotThere`: the area is gone
    /// or never was, its pager does not have the side, or the call is 0. Refused so, or with `HostMemory`,
    /// nothing changes.
    pub fn fail(&mut self, area: u32, failure: &ComingFailure) -> Result<(), FailRefused>
        ensures ok { OnOk result (FailsInSwap failure.now area self.old self.new) }
        ensures err { OnErr result (self.new ≡ self.old) }
        ensures cause { IsRefusedIn (area_at self.old area) failure.now result }
        ensures kept { SameSlots self.old self.new }
        ensures sizes { sizes self.new ≡ sizes self.old }
        ensures sound { IsSwap self.new }
    {
        if area as usize >= self.areas.len() {
            return Err(FailRefused::NotThere);
        }
        self.areas[area as usize].fail(failure)
    }

    /// Makes each read of a slot fail until the slot is written or freed. Calls no pager, and no page changes.
    /// HostMemory: the host refused memory, and nothing changed.
    pub fn fail_slot(&mut self, slot: Slot) -> Result<(), HostMemory>
        requires { HasSlot self.old slot.area slot.slot }
        ensures ok { OnOk result
            (self.new ≡ with_area self.old slot.area (with_bad slot.slot (area_at self.old slot.area))) }
        ensures err { OnErr result (self.new ≡ self.old) }
        ensures kept { SameSlots self.old self.new }
        ensures sizes { sizes self.new ≡ sizes self.old }
        ensures sound { IsSwap self.new }
    {
        self.areas[slot.area as usize].fail_slot(slot.slot)
    }
}

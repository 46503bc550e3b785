//! Slots taken, returned and turned off; failures counted; calls of pagers, and their drops.
ghost use Rattle.std.specs.Prelude.{◌≡◌};
ghost use Rattle.shm_slots.specs.View.{HasSlot};

use crate::paging::{is_area, two_rams};
use shm_base::{HostMemory, PageRef, Slot};
use shm_pager::{FusePager, RamPager};
use shm_pager_core::{AnyPager, Pager};
use shm_pager_tests::{CountedRam, Counter, fuse, fuse_at};
use shm_slots::Swap;
use std::alloc::{AllocError, Global};
use std::process::Abort;
use std::test::Fail;

const P: [u8; 4096] = [0x50; 4096];

// The name of some page.
fn page(page: u32) -> PageRef {
    PageRef { seg: 9, page }
}

fn swap_of<X: Pager>(
    rt: &impl Abort,
    alloc: Global,
    pagers: Vec<X>,
) -> Result<Swap<X>, HostMemory> {
    assert!(rt; 1 <= pagers.len() && pagers.len() <= 8);
    assert!(rt; pagers.iter().all(|pager| is_area(pager)));
    Swap::new(alloc, pagers)
}

// A slot that the swap has.
fn slot_in<X: Pager>(rt: &impl Abort, swap: &Swap<X>, area: u32, slot: u32) -> Slot
    ensures there { HasSlot swap.now area slot }
    ensures value { result ≡ record { area = area; slot = slot } }
{
    let size = swap.size(area).unwrap_or(0);
    assert!(rt; slot < size);
    Slot { area, slot }
}

fn owner<X: Pager>(rt: &impl Abort, swap: &Swap<X>, slot: Slot) -> Option<PageRef> {
    swap.owner(slot_in(rt, swap, slot.area, slot.slot))
}

// Whether the page can be written to the first slot of an area.
fn writes<X: Pager>(rt: &impl Abort, swap: &mut Swap<X>, area: u32) -> bool {
    let slot = slot_in(rt, swap, area, 0);
    swap.write_slot(slot, &P).is_ok()
}

// Whether the first slot of an area has the page if it can be read; if not, whether the read fails.
fn reads<X: Pager>(rt: &impl Abort, swap: &mut Swap<X>, area: u32, is_done: bool) -> bool {
    let slot = slot_in(rt, swap, area, 0);
    let mut page = [0; 4096];
    let read = swap.read_slot(slot, &mut page);
    if is_done {
        read.is_ok() && page == P
    } else {
        read.is_err()
    }
}

fn give<X: Pager>(rt: &impl Abort, swap: &mut Swap<X>, slot: Slot) {
    let slot = slot_in(rt, swap, slot.area, slot.slot);
    swap.give_slot(slot);
}

// Turns an area off, after checking that each of its slots is free.
fn turn_off<X: Pager>(rt: &impl Abort, swap: &mut Swap<X>, area: u32) {
    let size = swap.size(area).unwrap_or(0);
    assert!(rt; size > 0);
    for slot in 0..size {
        let slot = slot_in(rt, swap, area, slot);
        assert_eq!(rt; swap.owner(slot), None);
    }
    assert!(rt; swap.never_spent());
    swap.turn_off(area);
}

// A question to a swap, with the expected answer.
#[derive(Clone, Copy)]
enum Wish {
    Take(Option<Slot>),
    TakeOutside(u32, Option<Slot>),
    Give(Slot),
    TurnOff(u32),
    /// The number of slots of an area, or of all.
    Size(u32, Option<u32>),
    Capacity(u64),
    /// The page is written to the first slot of an area, or read there. A pager may fail.
    Write(u32, bool),
    Read(u32, bool),
    /// How many failures are counted, and whether no area was ever spent.
    Failures(u64, bool),
}

const FIRST: Slot = Slot { area: 0, slot: 0 };

const SECOND: Slot = Slot { area: 0, slot: 1 };

const OTHER: Slot = Slot { area: 1, slot: 0 };

const LAST: Slot = Slot { area: 1, slot: 1 };

// Whether the slot that was taken for this page is the expected one, and has that owner.
fn is_taken<X: Pager>(
    rt: &impl Abort,
    swap: &Swap<X>,
    number: u32,
    taken: Option<Slot>,
    want: Option<Slot>,
) -> bool {
    match taken {
        Some(slot) => want == taken && owner(rt, swap, slot) == Some(page(number)),
        None => want.is_none(),
    }
}

// Asks for this page, and returns whether the answer is the expected one. A slot that is returned has no
// owner.
fn answers<X: Pager>(rt: &impl Abort, swap: &mut Swap<X>, number: u32, wish: Wish) -> bool {
    match wish {
        Wish::Take(want) => {
            let taken = swap.take_slot(page(number));
            is_taken(rt, swap, number, taken, want)
        }
        Wish::TakeOutside(area, want) => {
            let taken = swap.take_outside(page(number), area);
            is_taken(rt, swap, number, taken, want)
        }
        Wish::Give(slot) => {
            give(rt, swap, slot);
            owner(rt, swap, slot).is_none()
        }
        Wish::TurnOff(area) => {
            turn_off(rt, swap, area);
            true
        }
        Wish::Size(area, size) => swap.size(area) == size,
        Wish::Capacity(slots) => swap.capacity() == slots,
        Wish::Write(area, is_done) => writes(rt, swap, area) == is_done,
        Wish::Read(area, is_done) => reads(rt, swap, area, is_done),
        Wish::Failures(failures, never_spent) => {
            swap.failures() == failures && swap.never_spent() == never_spent
        }
    }
}

// Asks in order, and checks how many slots are used afterwards.
fn ask_all<X: Pager>(rt: &impl Abort, swap: &mut Swap<X>, wishes: &[(Wish, u64)]) {
    let mut number = 0u32;
    for &(wish, used) in wishes {
        assert!(rt; answers(rt, swap, number, wish), "ask {number}");
        assert!(rt; swap.used() == used, "ask {number}");
        number = number.wrapping_add(1);
    }
}

// The same with a swap over these pagers.
fn asked<X: Pager>(
    rt: &impl Abort,
    alloc: Global,
    pagers: Vec<X>,
    wishes: &[(Wish, u64)],
) -> Result<(), HostMemory> {
    let mut swap = swap_of(rt, alloc, pagers)?;
    ask_all(rt, &mut swap, wishes);
    Ok(())
}

const LEAST_FIRST: &[(Wish, u64)] = &[
    (Wish::Capacity(3), 0),
    (Wish::Take(Some(FIRST)), 1),
    (Wish::Take(Some(SECOND)), 2),
    (Wish::Take(Some(OTHER)), 3),
    (Wish::Take(None), 3),
    (Wish::Give(SECOND), 2),
    (Wish::TakeOutside(0, None), 2),
    (Wish::TakeOutside(1, Some(SECOND)), 3),
    (Wish::Give(OTHER), 2),
    (Wish::Give(FIRST), 1),
    (Wish::TakeOutside(0, Some(OTHER)), 2),
    (Wish::Take(Some(FIRST)), 3),
    (Wish::Capacity(3), 3),
];

#[test]
fn the_least_free_slot_is_taken(rt: HostRuntime) -> Result<(), Fail> {
    let alloc = rt.alloc();
    asked(&rt, alloc, two_rams(alloc, 2, 1)?, LEAST_FIRST)?;
    Ok(())
}

const AREA_GONE: &[(Wish, u64)] = &[
    (Wish::TurnOff(0), 0),
    (Wish::Size(0, None), 0),
    (Wish::Size(1, Some(3)), 0),
    (Wish::Size(7, None), 0),
    (Wish::Capacity(3), 0),
    (Wish::TakeOutside(1, None), 0),
    (Wish::Take(Some(OTHER)), 1),
];

#[test]
fn numbers_stay_when_an_area_is_turned_off(rt: HostRuntime) -> Result<(), Fail> {
    let alloc = rt.alloc();
    asked(&rt, alloc, two_rams(alloc, 2, 3)?, AREA_GONE)?;
    Ok(())
}

// Two areas of one slot each: their writes with these numbers fail, and they have counted this many failures.
fn two_fuses(
    alloc: Global,
    first: (&[u64], u64),
    other: (&[u64], u64),
) -> Result<Vec<FusePager<RamPager>>, AllocError> {
    let first = fuse_at(alloc, 1, &[], first.0, first.1)?;
    let other = fuse_at(alloc, 1, &[], other.0, other.1)?;
    Ok(vec![in alloc; first, other]?)
}

const SPENT_ON_THE_WAY: &[(Wish, u64)] = &[
    (Wish::Failures(0, true), 0),
    (Wish::Write(0, false), 0),
    (Wish::Failures(1, false), 0),
    (Wish::Write(0, false), 0),
    (Wish::Failures(1, false), 0),
    (Wish::Read(0, false), 0),
    (Wish::Failures(1, false), 0),
    (Wish::Write(1, true), 0),
    (Wish::Failures(1, false), 0),
    (Wish::Read(1, true), 0),
    (Wish::Failures(1, false), 0),
    (Wish::Write(1, false), 0),
    (Wish::Failures(2, false), 0),
];

#[test]
fn a_spent_area_is_not_called(rt: HostRuntime) -> Result<(), Fail> {
    let alloc = rt.alloc();
    let pagers = two_fuses(alloc, (&[1], u64::MAX - 1), (&[2], 5))?;
    asked(&rt, alloc, pagers, SPENT_ON_THE_WAY)?;
    Ok(())
}

const SPENT_BEFORE: &[(Wish, u64)] = &[(Wish::Failures(0, false), 0)];

#[test]
fn a_pager_may_be_spent_from_the_start(rt: HostRuntime) -> Result<(), Fail> {
    let alloc = rt.alloc();
    let pagers = two_fuses(alloc, (&[], 0), (&[], u64::MAX))?;
    asked(&rt, alloc, pagers, SPENT_BEFORE)?;
    Ok(())
}

// Two pagers that report to these counters. The first has counted this many failures.
fn two_counted(
    alloc: Global,
    (first, other): (&Counter, &Counter),
    slots: u32,
    failures: u64,
) -> Result<Vec<CountedRam>, AllocError> {
    Ok(vec![in alloc;
        first.ram(alloc, slots, failures)?,
        other.ram(alloc, slots, 0)?,
    ]?)
}

// Turns the first area off, and drops the swap.
fn turned_off<X: Pager>(
    rt: &impl Abort,
    alloc: Global,
    pagers: Vec<X>,
    counter: &Counter,
) -> Result<(), HostMemory> {
    let mut swap = swap_of(rt, alloc, pagers)?;
    turn_off(rt, &mut swap, 0);
    assert!(rt; counter.wipes() == 0 && counter.drops() == 1);
    Ok(())
}

#[test]
fn pagers_are_dropped_once(rt: HostRuntime) -> Result<(), Fail> {
    let alloc = rt.alloc();
    let counter = Counter::new(alloc)?;
    let pagers = two_counted(alloc, (&counter, &counter), 1, 0)?;
    turned_off(&rt, alloc, pagers, &counter)?;
    assert!(rt; counter.wipes() == 0 && counter.drops() == 2);
    Ok(())
}

// How many slots were discarded, and which was the last.
fn discards(counter: &Counter) -> (u64, u64) {
    (counter.asks().2, counter.last_discarded())
}

// Takes the four slots of two areas, and returns the second of each.
fn give_second_slots<X: Pager>(
    rt: &impl Abort,
    alloc: Global,
    pagers: Vec<X>,
    first: &Counter,
    other: &Counter,
) -> Result<(), HostMemory> {
    let mut swap = swap_of(rt, alloc, pagers)?;
    for number in 0..4 {
        assert!(rt; swap.take_slot(page(number)).is_some());
    }
    give(rt, &mut swap, LAST);
    assert!(rt; discards(first) == (0, 0) && discards(other) == (1, 1));
    give(rt, &mut swap, SECOND);
    assert!(rt; discards(first) == (1, 1) && discards(other) == (1, 1));
    Ok(())
}

// The same if the area's pager is spent: it is no longer read or written, but its slots are discarded.
#[test]
fn a_freed_slot_is_discarded(rt: HostRuntime) -> Result<(), Fail> {
    let alloc = rt.alloc();
    let first = Counter::new(alloc)?;
    let other = Counter::new(alloc)?;
    let pagers = two_counted(alloc, (&first, &other), 2, u64::MAX)?;
    give_second_slots(&rt, alloc, pagers, &first, &other)?;
    Ok(())
}

fn two_boxes(alloc: Global) -> Result<Vec<AnyPager>, AllocError> {
    let fused: AnyPager = Box::new(alloc, fuse(alloc, 1, &[], &[])?)?;
    let ram: AnyPager = Box::new(alloc, RamPager::new(alloc, 1)?)?;
    Ok(vec![in alloc; fused, ram]?)
}

// A page is written to a slot and read again.
const KEPT: &[(Wish, u64)] = &[
    (Wish::Take(Some(FIRST)), 1),
    (Wish::Write(0, true), 1),
    (Wish::Read(0, true), 1),
];

#[test]
fn boxed_pagers_keep_a_page(rt: HostRuntime) -> Result<(), Fail> {
    let alloc = rt.alloc();
    asked(&rt, alloc, two_boxes(alloc)?, KEPT)?;
    Ok(())
}

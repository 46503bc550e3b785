//! Boxes that count their drops: those of a start that is refused, and those of areas that a swapoff takes
//! away. Each is dropped once, and none early. The test of starts also passes if the host refuses memory: `rt
//! try --test --fail-alloc N -- boxes::a_refused_start` makes the N-th allocation fail.
use crate::histories::{Ask, Row, Want, answers, opened_by};
use crate::starts::ROWS;
use shm_base::{Errno, HostMemory, Limits, Process};
use shm_history::{System, World};
use shm_pager::{FusePager, SparsePager};
use shm_pager_core::{AnyPager, Pager};
use shm_pager_tests::Counter;
use std::alloc::{AllocError, Global};
use std::process::Abort;
use std::test::Fail;

// A box of a pager; these reads of it fail.
fn boxed(
    alloc: Global,
    counter: &Counter,
    slots: u32,
    reads: &[u64],
) -> Result<AnyPager, AllocError> {
    let pager = counter.pager(SparsePager::new(alloc, slots)?)?;
    let fuse = FusePager::new(pager, reads.to_vec(alloc)?, Vec::new(alloc));
    let boxed: AnyPager = Box::new(alloc, fuse)?;
    Ok(boxed)
}

fn boxes(alloc: Global, counter: &Counter, areas: &[u32]) -> Result<Vec<AnyPager>, HostMemory> {
    let mut boxes: Vec<AnyPager> = Vec::new(alloc);
    for slots in areas {
        boxes.push(boxed(alloc, counter, *slots, &[])?)?;
    }
    Ok(boxes)
}

// How many boxes had been dropped when the start was refused; none if it was not.
fn dropped<P: Pager>(
    alloc: Global,
    pagers: Vec<P>,
    processes: &[Process],
    counter: &Counter,
) -> Option<u64> {
    let limits = Limits::new(65536, 16, 64, 4, 1).ok()?;
    match System::start(alloc, limits, pagers, processes) {
        Ok(_) => None,
        Err(_) => Some(counter.drops()),
    }
}

// Starts over counted boxes. Returns whether a refused start has dropped each once, and drops no more later.
fn drops_each(alloc: Global, areas: &[u32], processes: &[Process]) -> Result<bool, HostMemory> {
    let counter = Counter::new(alloc)?;
    let Ok(boxes) = boxes(alloc, &counter, areas) else {
        return Ok(counter.drops() == counter.made());
    };
    let refused = dropped(alloc, boxes, processes, &counter);
    let made = counter.made();
    Ok(refused.unwrap_or(made) == made && counter.drops() == made && made == areas.len() as u64)
}

#[test]
fn a_refused_start_drops_each_box_once(rt: HostRuntime) -> Result<(), Fail> {
    for (at, row) in ROWS.iter().enumerate() {
        let is_so = drops_each(rt.alloc(), row.0, row.1);
        assert!(rt; is_so.unwrap_or(true), "at row {at}");
    }
    Ok(())
}

/// A page is in the first area when its read fails. The next swapoff takes the area away, and a second area
/// must stay.
const SWAPOFFS: &[(Row, u64)] = &[
    ((Ask::Get(12288), Want::Id(0)), 0),
    ((Ask::At(0), Want::Addr(0x40000000)), 0),
    ((Ask::Store(0x40000000, &[1]), Want::Done), 0),
    ((Ask::Store(0x40001000, &[2]), Want::Done), 0),
    ((Ask::Store(0x40002000, &[3]), Want::Done), 0),
    ((Ask::Swapoff(2), Want::Refused(Errno::Einval)), 0),
    ((Ask::Swapoff(0), Want::Refused(Errno::Eio)), 0),
    ((Ask::Swapoff(0), Want::Done), 1),
    ((Ask::Swapoff(0), Want::Refused(Errno::Einval)), 1),
    ((Ask::Swapoff(1), Want::Refused(Errno::Enomem)), 1),
    ((Ask::Load(0x40000000, 1), Want::Bytes(&[1])), 1),
    ((Ask::Exit, Want::Done), 1),
];

fn boxes_of_two(
    alloc: Global,
    first: &Counter,
    other: &Counter,
) -> Result<Vec<AnyPager>, HostMemory> {
    Ok(vec![in alloc; boxed(alloc, first, 8, &[1])?, boxed(alloc, other, 8, &[])?]?)
}

// Makes the calls. The first area's box is dropped when its swapoff succeeds, and the other's never.
fn drops_when_answered<P: Pager>(
    rt: &impl Abort,
    world: &mut World<P>,
    first: &Counter,
    other: &Counter,
) {
    for (at, row) in SWAPOFFS.iter().enumerate() {
        assert!(rt; answers(rt, world, &row.0), "at row {at}");
        assert!(rt; first.drops() == row.1, "at row {at}");
        assert_eq!(rt; other.drops(), 0);
    }
}

fn turns_off<P: Pager>(
    rt: &impl Abort,
    alloc: Global,
    pagers: Vec<P>,
    first: &Counter,
    other: &Counter,
) -> Result<(), Fail> {
    let limits = Limits::new(65536, 16, 64, 2, 0).ok().ok_or("they hold")?;
    let mut world = opened_by(alloc, 0, limits, pagers)?;
    drops_when_answered(rt, &mut world, first, other);
    Ok(())
}

#[test]
fn a_swapoff_drops_the_box_once(rt: HostRuntime) -> Result<(), Fail> {
    let alloc = rt.alloc();
    let (first, other) = (Counter::new(alloc)?, Counter::new(alloc)?);
    let boxes = boxes_of_two(alloc, &first, &other)?;
    turns_off(&rt, alloc, boxes, &first, &other)?;
    assert_eq!(rt; (first.drops(), other.drops()), (1, 1));
    Ok(())
}

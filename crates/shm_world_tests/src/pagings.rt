//! How often each pager is called: one read for each page that comes back from its slot, one write for each
//! page that is written out, one discard for each slot that is returned, and nothing else.
use crate::histories::{Ask, Row, Want, answers, opened_by};
use Ask::{At, Exit, Get, Load, Rmid, Store, Swapoff};
use Want::{Addr, Bytes, Done, Id, Refused};
use shm_base::{Errno, Limits};
use shm_history::World;
use shm_pager_tests::{CountedRam, Counter};
use std::alloc::{AllocError, Global};
use std::process::Abort;
use std::test::Fail;

/// Reads, writes and discards.
type Counts = (u64, u64, u64);

/// A call, its reply, and how often the pagers of the first and the second area were called until then.
type Asking = (Row, Counts, Counts);

/// Four pages in two frames, over areas of one slot and of eight. The hand begins at the first frame. Every
/// page that is touched is referenced, so the hand clears both bits in one round, and takes the frame where
/// it began.
const PAGINGS: &[Asking] = &[
    ((Get(16384), Id(0)), (0, 0, 0), (0, 0, 0)),
    ((At(0), Addr(0x40000000)), (0, 0, 0), (0, 0, 0)),
    // A page without a slot is zeros: nothing is read.
    ((Store(0x40000000, &[1]), Done), (0, 0, 0), (0, 0, 0)),
    ((Store(0x40001000, &[2]), Done), (0, 0, 0), (0, 0, 0)),
    // Page 0 goes to the only slot of the first area.
    ((Store(0x40002000, &[3]), Done), (0, 1, 0), (0, 0, 0)),
    // Page 1 goes to slot 0 of the second area, as the first is full.
    ((Load(0x40003000, 1), Bytes(&[0])), (0, 1, 0), (0, 1, 0)),
    // Page 2 goes to slot 1, and page 0 is read; it keeps its slot.
    ((Load(0x40000000, 1), Bytes(&[1])), (1, 1, 0), (0, 2, 0)),
    // A resident page needs no pager.
    ((Store(0x40000000, &[9]), Done), (1, 1, 0), (0, 2, 0)),
    // Page 3 is clean and has no slot: it is dropped. Page 1 is read.
    ((Load(0x40001000, 1), Bytes(&[2])), (1, 1, 0), (1, 2, 0)),
    // Page 0 is resident: its slot is returned, and nothing is read or written.
    ((Swapoff(0), Done), (1, 1, 1), (1, 2, 0)),
    // Page 0 goes to slot 2, and page 2 is read.
    ((Load(0x40002000, 1), Bytes(&[3])), (1, 1, 1), (2, 3, 0)),
    (
        (Store(0x50000000, &[1]), Refused(Errno::Sigsegv)),
        (1, 1, 1),
        (2, 3, 0),
    ),
    // The segment is marked, and destroyed with its last piece: its three slots are returned.
    ((Rmid(0), Done), (1, 1, 1), (2, 3, 0)),
    ((Exit, Done), (1, 1, 1), (2, 3, 3)),
];

/// The same until page 0 is out: then swapoff reads it, and writes it to slot 1 of the second area.
const A_MOVE: &[Asking] = &[
    ((Get(16384), Id(0)), (0, 0, 0), (0, 0, 0)),
    ((At(0), Addr(0x40000000)), (0, 0, 0), (0, 0, 0)),
    ((Store(0x40000000, &[1]), Done), (0, 0, 0), (0, 0, 0)),
    ((Store(0x40001000, &[2]), Done), (0, 0, 0), (0, 0, 0)),
    ((Store(0x40002000, &[3]), Done), (0, 1, 0), (0, 0, 0)),
    ((Load(0x40003000, 1), Bytes(&[0])), (0, 1, 0), (0, 1, 0)),
    ((Swapoff(0), Done), (1, 1, 1), (0, 2, 0)),
    // Page 2 goes to slot 2, and page 0 is read from slot 1.
    ((Load(0x40000000, 1), Bytes(&[1])), (1, 1, 1), (1, 3, 0)),
];

// Makes the calls, and checks both pagers' counts after each.
fn asks(
    rt: &impl Abort,
    world: &mut World<CountedRam>,
    rows: &[Asking],
    first: &Counter,
    other: &Counter,
) {
    for (at, row) in rows.iter().enumerate() {
        assert!(rt; answers(rt, world, &row.0), "at row {at}");
        assert!(rt; first.asks() == row.1, "of the first area, at row {at}");
        assert!(rt; other.asks() == row.2, "of the second area, at row {at}");
    }
}

fn pagers(alloc: Global, first: &Counter, other: &Counter) -> Result<Vec<CountedRam>, AllocError> {
    Ok(vec![in alloc; first.ram(alloc, 1, 0)?, other.ram(alloc, 8, 0)?]?)
}

fn asks_over(
    rt: &impl Abort,
    alloc: Global,
    pagers: Vec<CountedRam>,
    rows: &[Asking],
    first: &Counter,
    other: &Counter,
) -> Result<(), Fail> {
    let limits = Limits::new(65536, 16, 8, 2, 0).ok().ok_or("they hold")?;
    let mut world = opened_by(alloc, 0, limits, pagers)?;
    asks(rt, &mut world, rows, first, other);
    Ok(())
}

fn asks_over_two(rt: &impl Abort, alloc: Global, rows: &[Asking]) -> Result<(), Fail> {
    let (first, other) = (Counter::new(alloc)?, Counter::new(alloc)?);
    let pagers = pagers(alloc, &first, &other)?;
    asks_over(rt, alloc, pagers, rows, &first, &other)
}

#[test]
fn each_page_calls_its_pager_once(rt: HostRuntime) -> Result<(), Fail> {
    asks_over_two(&rt, rt.alloc(), PAGINGS)
}

#[test]
fn a_move_calls_each_pager_once(rt: HostRuntime) -> Result<(), Fail> {
    asks_over_two(&rt, rt.alloc(), A_MOVE)
}

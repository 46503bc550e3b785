//! Worked rows for the kinds of pagers, with their expected results. Also tests that each pager is dropped
//! once, and wiped.
use crate::counting::{CountedRam, Counter};
use crate::failing::{fuse, fuse_at};
use shm_base::zeros;
use shm_pager::{FusePager, MirrorCause, MirrorPager, RamPager, SparsePager};
use shm_pager_core::{AnyPager, Pager, try_read, try_write};
use std::alloc::{AllocError, Global};
use std::process::Abort;
use std::test::Fail;

// Whether the pager takes a page of this byte.
fn write<X: Pager>(rt: &impl Abort, pager: &mut X, slot: u32, byte: u8) -> bool {
    assert!(rt; slot < pager.slots());
    try_write(pager, slot, &[byte; 4096]).is_ok()
}

// Whether a page of this byte is read; if there is none, whether the read fails.
fn reads<X: Pager>(rt: &impl Abort, pager: &mut X, slot: u32, byte: Option<u8>) -> bool {
    assert!(rt; slot < pager.slots());
    let mut page = zeros();
    let read = try_read(pager, slot, &mut page);
    match byte {
        Some(byte) => read.is_ok() && page == [byte; 4096],
        None => read.is_err(),
    }
}

fn discard<X: Pager>(rt: &impl Abort, pager: &mut X, slot: u32) {
    assert!(rt; slot < pager.slots());
    pager.discard(slot);
}

/// A write of a page of one byte to a slot, and whether it succeeds; a read of a slot, and the byte of its
/// page, none if it fails; a discard of a slot; or a wipe.
#[derive(Clone, Copy)]
pub(crate) enum Access {
    Write(u32, u8, bool),
    Read(u32, Option<u8>),
    Discard(u32),
    Wipe,
}

use Access::{Discard, Read, Wipe, Write};

// Makes an access, and returns whether its result is the expected one.
pub(crate) fn answers<X: Pager>(rt: &impl Abort, pager: &mut X, access: Access) -> bool {
    match access {
        Write(slot, byte, is_taken) => write(rt, pager, slot, byte) == is_taken,
        Read(slot, byte) => reads(rt, pager, slot, byte),
        Discard(slot) => {
            discard(rt, pager, slot);
            true
        }
        Wipe => {
            pager.wipe();
            true
        }
    }
}

// Makes these accesses in order. Afterwards the pager has counted this many failures.
pub(crate) fn accessed<X: Pager>(
    rt: &impl Abort,
    pager: &mut X,
    accesses: &[Access],
    failures: u64,
) {
    for (number, &access) in accesses.iter().enumerate() {
        assert!(rt; answers(rt, pager, access), "access {number}");
    }
    assert_eq!(rt; pager.failures(), failures);
}

// The same with a pager that is dropped afterwards.
pub(crate) fn accessed_once<X: Pager>(
    rt: &impl Abort,
    mut pager: X,
    accesses: &[Access],
    failures: u64,
) {
    accessed(rt, &mut pager, accesses, failures);
}

fn mirror<X: Pager, Y: Pager>(alloc: Global, left: X, right: Y) -> Result<MirrorPager<X, Y>, Fail> {
    Ok(MirrorPager::new(alloc, left, right).map_err(|e| e.cause)?)
}

// The same as `accessed_once` with the mirror of these sides.
fn mirrored<X: Pager, Y: Pager>(
    rt: &impl Abort,
    alloc: Global,
    (left, right): (X, Y),
    accesses: &[Access],
    failures: u64,
) -> Result<(), Fail> {
    accessed_once(rt, mirror(alloc, left, right)?, accesses, failures);
    Ok(())
}

const SCORCHED: &[Access] = &[
    Write(0, 0x50, false),
    Read(0, Some(0xa5)),
    Write(0, 0x50, true),
    Read(0, Some(0x50)),
];

#[test]
fn a_fuse_scorches_the_slot(rt: HostRuntime) -> Result<(), Fail> {
    accessed_once(&rt, fuse(rt.alloc(), 2, &[], &[1])?, SCORCHED, 1);
    Ok(())
}

const TAKEN_ON_ONE_SIDE: &[Access] = &[
    Write(0, 0x50, true),
    Write(0, 0x51, true),
    Read(0, Some(0x51)),
];

#[test]
fn a_mirror_reads_the_side_that_took_the_page(rt: HostRuntime) -> Result<(), Fail> {
    let alloc = rt.alloc();
    let right = RamPager::new(alloc, 1)?;
    let left = fuse(alloc, 1, &[], &[2])?;
    mirrored(&rt, alloc, (left, right), TAKEN_ON_ONE_SIDE, 0)
}

const FAILED_ON_BOTH_SIDES: &[Access] = &[Write(0, 0x50, true), Read(0, None), Read(0, Some(0x50))];

#[test]
fn a_mirror_fails_where_its_one_good_side_does(rt: HostRuntime) -> Result<(), Fail> {
    let alloc = rt.alloc();
    let left = fuse(alloc, 1, &[], &[1])?;
    let right = fuse(alloc, 1, &[1], &[])?;
    mirrored(&rt, alloc, (left, right), FAILED_ON_BOTH_SIDES, 1)
}

const READ_BACK: &[Access] = &[Read(0, Some(0)), Write(0, 0x50, true), Read(0, Some(0x50))];

#[test]
fn a_sparse_pager_reads_back(rt: HostRuntime) -> Result<(), Fail> {
    accessed_once(&rt, SparsePager::new(rt.alloc(), 1)?, READ_BACK, 0);
    Ok(())
}

// Why there is no mirror of these sides, and the numbers of slots of those that are returned.
fn refused<X: Pager, Y: Pager>(
    alloc: Global,
    left: X,
    right: Y,
) -> Option<(MirrorCause, u32, u32)> {
    match MirrorPager::new(alloc, left, right) {
        Ok(_) => None,
        Err(refused) => {
            let (left, right) = (refused.left.slots(), refused.right.slots());
            Some((refused.cause, left, right))
        }
    }
}

#[test]
fn a_mirror_of_unequal_sides_is_refused(rt: HostRuntime) -> Result<(), Fail> {
    let alloc = rt.alloc();
    let refused = refused(alloc, RamPager::new(alloc, 1)?, RamPager::new(alloc, 2)?);
    assert!(rt; refused == Some((MirrorCause::Unequal, 1, 2)));
    Ok(())
}

// A fuse whose first write fails, over a pager that can count no further failure.
fn over_a_spent_pager(alloc: Global) -> Result<FusePager<FusePager<RamPager>>, AllocError> {
    let spent = fuse_at(alloc, 1, &[], &[], u64::MAX)?;
    Ok(FusePager::new(spent, Vec::new(alloc), [1].to_vec(alloc)?))
}

const NOT_CALLED: &[Access] = &[Write(0, 0x50, false), Read(0, None)];

const TOLD: &[Access] = &[
    Write(0, 0x50, true),
    Read(0, Some(0x50)),
    Discard(0),
    Read(0, None),
    Wipe,
    Read(0, Some(0)),
];

// The pager alone, and then as the left side of a mirror.
fn alone_and_mirrored<X: Pager>(rt: &impl Abort, alloc: Global, mut pager: X) -> Result<(), Fail> {
    accessed(rt, &mut pager, NOT_CALLED, 2);
    let right = RamPager::new(alloc, 1)?;
    mirrored(rt, alloc, (pager, right), TOLD, 1)
}

// Fuses and mirrors do not read or write a spent pager, but discard its slots and wipe it.
#[test]
fn a_spent_pager_is_not_called(rt: HostRuntime) -> Result<(), Fail> {
    let alloc = rt.alloc();
    alone_and_mirrored(&rt, alloc, over_a_spent_pager(alloc)?)
}

const RUN: &[Access] = &[
    Write(0, 0x50, true),
    Write(1, 0x51, true),
    Discard(0),
    Read(1, Some(0x51)),
    Write(1, 0, true),
    Read(1, Some(0)),
    Write(1, 0x50, true),
    Wipe,
    Read(0, Some(0)),
    Read(1, Some(0)),
];

// What every kind does, through its trait alone: it takes pages, returns them and is wiped.
fn runs<X: Pager>(rt: &impl Abort, pager: X) {
    assert_eq!(rt; pager.slots(), 2);
    accessed_once(rt, pager, RUN, 0);
}

fn in_a_fuse<X: Pager>(alloc: Global, inner: X) -> FusePager<X> {
    FusePager::new(inner, Vec::new(alloc), Vec::new(alloc))
}

#[test]
fn each_kind_runs(rt: HostRuntime) -> Result<(), Fail> {
    let alloc = rt.alloc();
    runs(&rt, RamPager::new(alloc, 2)?);
    runs(&rt, SparsePager::new(alloc, 2)?);
    runs(&rt, in_a_fuse(alloc, SparsePager::new(alloc, 2)?));
    let (left, right) = (RamPager::new(alloc, 2)?, SparsePager::new(alloc, 2)?);
    runs(&rt, mirror(alloc, left, right)?);
    let boxed: AnyPager = Box::new(alloc, RamPager::new(alloc, 2)?)?;
    runs(&rt, boxed);
    Ok(())
}

/// What contains the pagers that count: a fuse whose pager has this many failures, a box, or a mirror whose
/// right side has this many slots and failures.
#[derive(Clone, Copy)]
enum Behind {
    Fuse(u64),
    Boxed,
    Mirror(u32, u64),
}

fn boxed(alloc: Global, inner: CountedRam) -> Result<AnyPager, AllocError> {
    let boxed: AnyPager = Box::new(alloc, inner)?;
    Ok(boxed)
}

fn drop_in_a_fuse<X: Pager>(alloc: Global, inner: X) {
    drop(in_a_fuse(alloc, inner));
}

// Returns whether there was a mirror.
fn drop_in_a_mirror<X: Pager>(alloc: Global, left: X, right: X) -> bool {
    let mirror = MirrorPager::new(alloc, left, right);
    mirror.is_ok()
}

// Drops pagers of one slot inside this. Returns whether it was made.
fn is_made(alloc: Global, counter: &Counter, behind: Behind) -> Result<bool, AllocError> {
    let inner = counter.ram(alloc, 1, 0)?;
    match behind {
        Behind::Fuse(_) => drop_in_a_fuse(alloc, inner),
        Behind::Boxed => drop_in_a_fuse(alloc, boxed(alloc, inner)?),
        Behind::Mirror(slots, failures) => {
            return Ok(drop_in_a_mirror(alloc, inner, counter.ram(alloc, slots, failures)?));
        }
    }
    Ok(true)
}

// A mirror that gets no memory returns both sides, so each is dropped once all the same.
const DROPS: &[(&str, Behind, u64, u64)] = &[
    ("a fuse", Behind::Fuse(0), 1, 1),
    ("a box in a fuse", Behind::Boxed, 1, 1),
    ("a mirror", Behind::Mirror(1, 0), 2, 2),
    ("the sides of a refused mirror", Behind::Mirror(2, 0), 0, 2),
];

#[test]
fn each_drop_runs_once_and_wipes(rt: HostRuntime) -> Result<(), Fail> {
    for &(name, behind, wipes, drops) in DROPS {
        let counter = Counter::new(rt.alloc())?;
        let wipes = if is_made(rt.alloc(), &counter, behind)? {
            wipes
        } else {
            0
        };
        assert!(rt;
            (counter.wipes(), counter.drops()) == (wipes, drops),
            "{name}"
        );
    }
    Ok(())
}

fn discard_once<X: Pager>(rt: &impl Abort, mut pager: X, slot: u32) {
    discard(rt, &mut pager, slot);
}

// Discards the last slot of this, which has as many slots as the pager inside.
fn discard_through(
    rt: &impl Abort,
    alloc: Global,
    counter: &Counter,
    behind: Behind,
    slot: u32,
) -> Result<(), Fail> {
    let slots = slot.wrapping_add(1);
    match behind {
        Behind::Fuse(failures) => {
            let inner = counter.ram(alloc, slots, failures)?;
            discard_once(rt, in_a_fuse(alloc, inner), slot);
        }
        Behind::Boxed => discard_once(rt, boxed(alloc, counter.ram(alloc, slots, 0)?)?, slot),
        Behind::Mirror(others, failures) => {
            let left = counter.ram(alloc, slots, 0)?;
            let right = counter.ram(alloc, others, failures)?;
            discard_once(rt, mirror(alloc, left, right)?, slot);
        }
    }
    Ok(())
}

// How often a slot is discarded, and which was the last. One of the mirror's sides is spent.
const DISCARDS: &[(&str, Behind, u32, (u64, u64))] = &[
    ("a fuse", Behind::Fuse(0), 1, (1, 1)),
    ("a spent pager in a fuse", Behind::Fuse(u64::MAX), 1, (1, 1)),
    ("a box", Behind::Boxed, 2, (1, 2)),
    (
        "both sides of a mirror",
        Behind::Mirror(2, u64::MAX),
        1,
        (2, 1),
    ),
];

// No contract can say this, since the bytes of a discarded slot are unknown.
#[test]
fn a_discard_reaches_the_inner_pagers(rt: HostRuntime) -> Result<(), Fail> {
    for &(name, behind, slot, discards) in DISCARDS {
        let counter = Counter::new(rt.alloc())?;
        discard_through(&rt, rt.alloc(), &counter, behind, slot)?;
        assert!(rt;
            (counter.asks().2, counter.last_discarded()) == discards,
            "{name}"
        );
    }
    Ok(())
}

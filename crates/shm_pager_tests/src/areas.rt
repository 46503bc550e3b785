//! Areas of each kind: which of a mirror's sides a failing call belongs to, what a discard leaves, and copies.
use crate::pagers::{Access, accessed, accessed_once, answers};
use Access::{Discard, Read, Wipe, Write};
use shm_base::HostMemory;
use shm_pager::{AreaKind, AreaPager, Failing};
use shm_pager_core::{ClonePager, Pager};
use std::alloc::{AllocError, Global};
use std::process::Abort;
use std::test::Fail;

/// The reads and writes of a side that fail.
type Calls = (&'static [u64], &'static [u64]);

fn failing(alloc: Global, (reads, writes): Calls) -> Result<Failing, AllocError> {
    Ok(Failing {
        reads: reads.to_vec(alloc)?,
        writes: writes.to_vec(alloc)?,
    })
}

// An area of two slots whose sides fail these calls.
fn area(alloc: Global, kind: AreaKind, left: Calls, right: Calls) -> Result<AreaPager, HostMemory> {
    let (left, right) = (failing(alloc, left)?, failing(alloc, right)?);
    AreaPager::new(alloc, kind, 2, left, right)
}

/// An area with the calls that fail on each side; accesses to it; and how many failures it has counted then.
type Accessed = (&'static str, AreaKind, Calls, Calls, &'static [Access], u64);

const NONE: Calls = (&[], &[]);

// A mirrored area has no good side for a discarded slot; the other kinds have zeros there.
const AREAS: &[Accessed] = &[
    (
        "other reads",
        AreaKind::Mirror,
        (&[1], &[]),
        (&[2], &[]),
        &[Write(0, 7, true), Read(0, Some(7)), Read(0, Some(7))],
        0,
    ),
    (
        "the same read",
        AreaKind::Mirror,
        (&[1], &[]),
        (&[1], &[]),
        &[Write(0, 7, true), Read(0, None), Read(0, Some(7))],
        1,
    ),
    (
        "the same write",
        AreaKind::Mirror,
        (&[], &[1]),
        (&[], &[1]),
        &[Write(0, 7, false), Read(0, None), Read(0, None)],
        3,
    ),
    (
        "a write on the left, a read on the right",
        AreaKind::Mirror,
        (&[], &[1]),
        (&[1], &[]),
        &[Write(0, 7, true), Read(0, None), Read(0, Some(7))],
        1,
    ),
    (
        "a discard in memory",
        AreaKind::Ram,
        NONE,
        NONE,
        &[Write(0, 7, true), Discard(0), Read(0, Some(0))],
        0,
    ),
    (
        "a discard of a sparse page",
        AreaKind::Sparse,
        NONE,
        NONE,
        &[Write(0, 7, true), Discard(0), Read(0, Some(0))],
        0,
    ),
    (
        "a discard in a mirror",
        AreaKind::Mirror,
        NONE,
        NONE,
        &[Write(0, 7, true), Discard(0), Read(0, None)],
        1,
    ),
];

#[test]
fn an_area_fails_as_listed(rt: HostRuntime) -> Result<(), Fail> {
    for &(name, kind, left, right, accesses, failures) in AREAS {
        let mut area = area(rt.alloc(), kind, left, right)?;
        for (number, &access) in accesses.iter().enumerate() {
            assert!(rt; answers(&rt, &mut area, access), "{name}, access {number}");
        }
        assert_eq!(rt; area.failures(), failures, "{name}");
    }
    Ok(())
}

/// An area of two slots; the accesses to it before it is copied; and those to both afterwards, after which
/// each has counted this many failures.
struct Copied {
    kind: AreaKind,
    left: Calls,
    right: Calls,
    before: &'static [Access],
    area: &'static [Access],
    copy: &'static [Access],
    failures: u64,
}

// What will fail in the area fails in the copy. The last side of the mirror that is good for a slot stays the
// last.
const COPIES: &[Copied] = &[
    Copied {
        kind: AreaKind::Ram,
        left: (&[2], &[2]),
        right: NONE,
        before: &[Write(0, 0x50, true), Read(0, Some(0x50))],
        area: &[Read(0, None), Write(0, 0x51, false), Read(0, Some(0xa5))],
        copy: &[
            Write(1, 0x52, false),
            Read(0, None),
            Read(0, Some(0x50)),
            Read(1, Some(0xa5)),
        ],
        failures: 2,
    },
    Copied {
        kind: AreaKind::Sparse,
        left: NONE,
        right: NONE,
        before: &[Write(1, 0x50, true)],
        area: &[Write(1, 0x51, true), Wipe, Read(1, Some(0))],
        copy: &[
            Read(0, Some(0)),
            Read(1, Some(0x50)),
            Write(0, 0x52, true),
            Read(0, Some(0x52)),
        ],
        failures: 0,
    },
    Copied {
        kind: AreaKind::Mirror,
        left: (&[], &[1]),
        right: (&[2], &[]),
        before: &[Write(0, 0x50, true)],
        area: &[Read(0, Some(0x50)), Read(0, None)],
        copy: &[Read(0, Some(0x50)), Discard(0), Read(0, None)],
        failures: 1,
    },
];

// A copy of a pager. If the host refuses memory, the pager is unchanged, and is copied again.
fn copy_of<X: ClonePager>(pager: &X) -> Result<X, HostMemory> {
    match pager.try_clone() {
        Ok(copy) => Ok(copy),
        Err(_) => pager.try_clone(),
    }
}

fn change_independently<X: ClonePager>(
    rt: &impl Abort,
    pager: &mut X,
    case: &Copied,
) -> Result<(), HostMemory> {
    accessed(rt, pager, case.before, 0);
    let copy = copy_of(pager)?;
    accessed(rt, pager, case.area, case.failures);
    accessed_once(rt, copy, case.copy, case.failures);
    Ok(())
}

#[test]
fn an_area_of_each_kind_and_its_copy_are_independent(rt: HostRuntime) -> Result<(), Fail> {
    for case in COPIES {
        let mut area = area(rt.alloc(), case.kind, case.left, case.right)?;
        change_independently(&rt, &mut area, case)?;
    }
    Ok(())
}

//! Unmap and protect, the list of processes, and a copy of all of them. The test of copies also passes if the
//! host refuses memory for a copy: `rt try --test --fail-alloc N -- mapping::a_copy` makes the N-th
//! allocation fail.
use crate::attaching::{Act, answers_all, bare_store, family, in_a_family};
use shm_attach::{Life, Listed, Spaces};
use shm_base::{Cred, Errno, HostMemory, PageRef};
use shm_fault::{PageMove, PageStore};
use shm_pager::RamPager;
use std::process::Abort;

// A border moves if a part joins its neighbour; whole pieces do not join. A segment is noted if there are
// more pieces afterwards.
const PROTECTED: &[Act] = &[
    Act::Attach(0, 0x50000000, 8, true),
    Act::Protect(0x50001000, 0x2000, false, None),
    Act::Lost(&[0]),
    Act::Count(0, 3),
    Act::Fails(1, 0x50000000, 0x8000, true, Some(0x50001000)),
    Act::Fails(1, 0x50000000, 0x8000, false, None),
    Act::Protect(0x50001000, 0x1000, true, None),
    Act::Lost(&[]),
    Act::Count(0, 3),
    Act::Fails(1, 0x50000000, 0x8000, true, Some(0x50002000)),
    Act::Protect(0x50001000, 0x2000, true, None),
    Act::Count(0, 3),
    Act::Fails(1, 0x50000000, 0x8000, true, None),
    Act::Protect(0x50000000, 0x8000, false, None),
    Act::Count(0, 3),
    Act::Protect(0x50006000, 1, true, None),
    Act::Lost(&[0]),
    Act::Count(0, 5),
    Act::Protect(0x50005000, 0x1000, true, None),
    Act::Count(0, 5),
    Act::Fails(1, 0x50005000, 0x2000, true, None),
    Act::Fails(1, 0x50005000, 0x2001, true, Some(0x50007000)),
    Act::Protect(0x50007000, 0x1000, false, None),
    Act::Lost(&[]),
    Act::Detach(0x50000000, Some(0)),
    Act::Count(0, 0),
];

// A protect that stops at a hole, or at a piece that may not be written, has changed everything below it.
const STOPPED: &[Act] = &[
    Act::Attach(0, 0x50000000, 8, true),
    Act::Protect(0x50000800, 0, false, Some(Errno::Einval)),
    Act::Protect(0x50000000, 0, false, None),
    Act::Protect(0x60000000, 1, false, Some(Errno::Enomem)),
    Act::Protect(0x50000000, u64::MAX, false, Some(Errno::Enomem)),
    Act::Count(0, 1),
    Act::Fails(1, 0x50000000, 0x8000, true, None),
    Act::Protect(0x50000000, 0x9000, false, Some(Errno::Enomem)),
    Act::Fails(1, 0x50007000, 1, true, Some(0x50007000)),
    Act::Protect(0x50000000, 0x8000, true, None),
    Act::Protect(0x50004000, 0x4000, false, None),
    Act::Attach(0, 0x50008000, 8, false),
    Act::Count(0, 3),
    Act::Protect(0x50006000, 0x4000, true, Some(Errno::Eacces)),
    Act::Lost(&[0]),
    Act::Count(0, 4),
    Act::Fails(1, 0x50005fff, 1, true, Some(0x50005fff)),
    Act::Fails(1, 0x50006000, 0x3000, true, Some(0x50008000)),
    Act::Fails(1, 0x50006000, 0xa001, false, Some(0x50010000)),
];

// The segments of the first piece and of the last are noted in order, and those of an earlier call are
// forgotten.
const SPLIT: &[Act] = &[
    Act::Attach(0, 0x50000000, 2, true),
    Act::Attach(1, 0x50002000, 1, true),
    Act::Attach(0, 0x50003000, 2, true),
    Act::Protect(0x50001000, 0x3000, false, None),
    Act::Lost(&[0, 0]),
    Act::Protect(0x50001800, 0x1000, false, Some(Errno::Einval)),
    Act::Lost(&[]),
];

const UNMAPPED: &[Act] = &[
    Act::Attach(0, 0x50000000, 8, true),
    Act::Attach(1, 0x50008000, 1, true),
    Act::Unmap(0x60000000, 0x60001000, None),
    Act::Lost(&[]),
    Act::Unmap(0x50001000, 0x50002000, None),
    Act::Lost(&[0]),
    Act::Count(0, 2),
    Act::Fails(1, 0x50000000, 0x8000, false, Some(0x50001000)),
    Act::Fails(1, 0x50002000, 0x6000, true, None),
    Act::Unmap(0x4ffff000, 0x50001000, None),
    Act::Count(0, 1),
    Act::Unmap(0x50001000, 0x50009000, None),
    Act::Lost(&[0, 1]),
    Act::Count(0, 0),
    Act::Count(1, 0),
];

// With at most two pieces, the middle of one can be neither protected nor, next to another hole, unmapped.
const OF_TWO_PIECES: &[Act] = &[
    Act::Attach(0, 0x50000000, 8, true),
    Act::Protect(0x50001000, 0x1000, false, Some(Errno::Enomem)),
    Act::Count(0, 1),
    Act::Fails(1, 0x50001000, 1, true, None),
    Act::Unmap(0x50001000, 0x50002000, None),
    Act::Unmap(0x50003000, 0x50004000, Some(Errno::Enomem)),
    Act::Lost(&[0]),
    Act::Count(0, 2),
    Act::Fails(1, 0x50002000, 0x6000, true, None),
    Act::Protect(0x50000000, 0x1000, false, None),
    Act::Count(0, 2),
];

#[test]
fn too_many_pieces_are_refused(rt: HostRuntime) -> Result<(), HostMemory> {
    let store = bare_store(rt.alloc())?;
    let mut spaces = family(rt.alloc(), 2)?;
    answers_all(&rt, &mut spaces, &store, "of two pieces", OF_TWO_PIECES);
    Ok(())
}

// No piece is at the last address, and a process that is not live has none.
const OUTSIDE: &[Act] = &[
    Act::Attach(0, 0x7fffffffe000, 1, true),
    Act::Fails(1, 0x7fffffffe000, 0x1001, true, Some(0x7ffffffff000)),
    Act::Fails(1, u64::MAX, 2, false, Some(u64::MAX)),
    Act::Fails(1, u64::MAX, 0, true, None),
    Act::Fails(2, 0x7fffffffe000, 1, false, Some(0x7fffffffe000)),
    Act::Fails(3, 5, 1, false, Some(5)),
    Act::Fails(3, 5, 0, false, None),
];

const TRIALS: &[(&str, &[Act])] = &[
    ("parts of an attach are protected", PROTECTED),
    ("split pieces are noted", SPLIT),
    ("a protection stops at the first refusal", STOPPED),
    ("ranges are unmapped", UNMAPPED),
    ("accesses fail outside of pieces", OUTSIDE),
];

#[test]
fn mappings_change_as_stated(rt: HostRuntime) -> Result<(), HostMemory> {
    for (name, acts) in TRIALS {
        in_a_family(&rt, rt.alloc(), name, acts)?;
    }
    Ok(())
}

const CRED: Cred = Cred { uid: 100, gid: 100 };

fn is_listed(spaces: &Spaces, index: u32, pid: u32, life: Life) -> bool {
    spaces.process_at(index) == Some(Listed { pid, life })
}

fn lists(rt: &impl Abort, spaces: &mut Spaces, store: &PageStore<RamPager>) {
    assert!(rt; spaces.process_count() == 2);
    assert!(rt; is_listed(spaces, 0, 1, Life::Live(CRED)));
    assert!(rt; is_listed(spaces, 1, 2, Life::Unborn));
    assert!(rt; spaces.process_at(2).is_none());
    answers_all(rt, spaces, store, "an exit", &[Act::Exit(1, &[])]);
    assert!(rt; spaces.process_count() == 2);
    assert!(rt; is_listed(spaces, 0, 1, Life::Ended));
}

#[test]
fn processes_are_listed_in_order(rt: HostRuntime) -> Result<(), HostMemory> {
    let store = bare_store(rt.alloc())?;
    let mut spaces = family(rt.alloc(), 256)?;
    lists(&rt, &mut spaces, &store);
    Ok(())
}

const FIRST: PageRef = PageRef { seg: 0, page: 0 };

const SECOND: PageRef = PageRef { seg: 0, page: 1 };

const BEFORE: &[Act] = &[
    Act::Attach(1, 0x40000000, 1, true),
    Act::Attach(0, 0x50000000, 2, true),
    Act::Note(&[PageMove::Came(FIRST, 5)]),
    Act::Detach(0x40000000, Some(1)),
    Act::Unmap(0x50001000, 0x50002000, None),
];

const AS_IT_WAS: &[Act] = &[
    Act::Count(0, 1),
    Act::Count(1, 0),
    Act::Lost(&[0]),
    Act::User(1, Some(100)),
    Act::Fails(1, 0x50000000, 0x2000, true, Some(0x50001000)),
    Act::Frames(1, 0x50000000, &[Some(5)]),
];

const CHANGES: &[Act] = &[
    Act::Attach(1, 0x50001000, 1, true),
    Act::Fork(2, true),
    Act::Note(&[PageMove::Gone(FIRST), PageMove::Came(SECOND, 5)]),
    Act::Exec(1, &[0, 1]),
    Act::Count(0, 1),
    Act::Frames(2, 0x50000000, &[None]),
];

/// Changes of a copy do not affect its source, nor the other way round.
fn change_independently(
    rt: &impl Abort,
    source: &mut Spaces,
    copy: &mut Spaces,
    store: &PageStore<RamPager>,
) {
    answers_all(rt, copy, store, "the copy", AS_IT_WAS);
    answers_all(rt, copy, store, "changes of the copy", CHANGES);
    answers_all(rt, source, store, "the source", AS_IT_WAS);
    answers_all(rt, source, store, "changes of the source", CHANGES);
}

#[test]
fn a_copy_is_independent(rt: HostRuntime) -> Result<(), HostMemory> {
    let store = bare_store(rt.alloc())?;
    let mut source = family(rt.alloc(), 256)?;
    answers_all(&rt, &mut source, &store, "before", BEFORE);
    match source.try_clone() {
        Ok(mut copy) => change_independently(&rt, &mut source, &mut copy, &store),
        Err(_) => answers_all(&rt, &mut source, &store, "the source", AS_IT_WAS),
    }
    Ok(())
}

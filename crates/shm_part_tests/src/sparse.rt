use shm_sparse::SparseVec;
use std::process::Abort;
use std::test::Fail;

/// A change of a list or a question about it.
#[derive(Clone, Copy)]
enum Act {
    /// The item at an index is set.
    Set(u32, u32),
    /// The item at an index.
    Get(u32, u32),
    /// The first index in a stored run, from an index on; all that the list has if there is none.
    Next(u32, u32),
    /// The list gets at least this many items, and has this many then.
    Extend(u32, u32),
}

// Sets an item, if the list has it. Returns whether it does.
fn sets(list: &mut SparseVec<u32>, index: u32, item: u32) -> bool {
    if index >= list.len() {
        return false;
    }
    list.set(index as usize, item);
    true
}

// The first index in a stored run.
fn next(list: &SparseVec<u32>, first: u32) -> u32 {
    let last = list.len().max(first);
    list.next_stored(first, last)
}

// Performs an act, and returns whether everything is as expected.
fn answers(list: &mut SparseVec<u32>, act: Act) -> bool {
    match act {
        Act::Set(index, item) => sets(list, index, item),
        Act::Get(index, item) => list.get(index as usize) == item,
        Act::Next(first, index) => next(list, first) == index,
        Act::Extend(count, len) => list.extend(count).is_ok() && list.len() == len,
    }
}

const ACTS: &[Act] = &[
    Act::Get(0, 7),
    Act::Next(0, 1000),
    Act::Set(999, 1),
    Act::Get(999, 1),
    Act::Get(998, 7),
    Act::Get(1000, 7),
    Act::Next(0, 768),
    Act::Next(800, 800),
    Act::Set(255, 2),
    Act::Set(256, 3),
    Act::Get(255, 2),
    Act::Get(256, 3),
    Act::Get(999, 1),
    Act::Next(0, 0),
    Act::Next(512, 768),
    Act::Extend(500, 1000),
    Act::Extend(100_000_000, 100_000_000),
    Act::Get(999, 1),
    Act::Get(1000, 7),
    Act::Next(1024, 100_000_000),
    Act::Set(99_999_999, 4),
    Act::Get(99_999_999, 4),
    Act::Next(1024, 99_999_744),
    Act::Next(99_999_999, 99_999_999),
    Act::Set(255, 7),
    Act::Get(255, 7),
    Act::Next(0, 0),
];

#[test]
fn items_are_alike_until_they_are_set(rt: HostRuntime) -> Result<(), Fail> {
    let mut list = SparseVec::new(rt.alloc(), 1000, 7)?;
    for (row, &act) in ACTS.iter().enumerate() {
        assert!(&rt; answers(&mut list, act), "at row {row}");
    }
    let copy = list.clone()?;
    assert!(&rt; sets(&mut list, 0, 5), "item 0 is there");
    assert_eq!(&rt; copy.get(99_999_999), 4);
    assert_eq!(&rt; copy.get(0), 7);
    assert_eq!(&rt; list.get(0), 5);
    Ok(())
}

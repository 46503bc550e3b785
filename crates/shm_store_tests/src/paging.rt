//! Pages that come in, go out, are flushed and moved. The tests look at their bytes, their pagers and the
//! tally.
ghost use Rattle.std.specs.Prelude.{◌≡◌, ◌+◌, ◌≤◌, false, length, IfOk, OnOk, IsTrue};
ghost use Rattle.shm_fault.specs.Held.{FitsPage, IsIndexFree, pages_in_store, with_zeros};
ghost use Rattle.shm_slots.specs.View.{IsAreaSize, swap_slots};
ghost use Rattle.shm_fault.specs.Store.{held, frame_of, page_of};
ghost use Rattle.shm_store_tests.specs.Trial.{HasThree};

use shm_base::{FlushReport, HostMemory, Span};
use shm_fault::{PageStore, PageTally};
use shm_pager::{FusePager, RamPager};
use shm_pager_core::{ClonePager, Pager};
use shm_pager_tests::fuse;
use shm_slots::Swap;
use std::alloc::{AllocError, Global};
use std::process::Abort;
use std::test::Fail;

pub(crate) fn is_area<P: Pager>(pager: &P) -> bool
    ensures { IsTrue result → IsAreaSize (length (P.content pager.now)) }
{
    1 <= pager.slots() && pager.slots() <= 65536
}

fn tally_of<P: Pager>(store: &PageStore<P>) -> PageTally {
    store.tally()
}

// Adds a segment. If the host refuses memory, nothing changed, and the segment is added again.
pub(crate) fn add_segment<P: Pager>(
    rt: &impl Abort,
    store: &mut PageStore<P>,
    seg: u32,
    pages: u32,
) -> Result<(), HostMemory>
    requires new { IsIndexFree (held store.old) seg }
    requires room { pages_in_store (held store.old) + pages ≤ swap_slots store.old.swap }
    ensures held { OnOk result (held store.new ≡ with_zeros (held store.old) seg pages) }
    ensures frames { OnOk result (length store.new.frames ≡ length store.old.frames) }
{
    let before = tally_of(store);
    match store.add_segment(seg, pages) {
        Ok(()) => return Ok(()),
        Err(_) => {}
    }
    assert!(rt; tally_of(store) == before);
    store.add_segment(seg, pages)
}

// A store of two frames with segment 0, of three pages.
fn store_over<P: Pager>(
    rt: &impl Abort,
    alloc: Global,
    pagers: Vec<P>,
) -> Result<PageStore<P>, HostMemory>
    ensures { IfOk result (λ s. HasThree s) }
{
    assert!(rt; 1 <= pagers.len() && pagers.len() <= 8);
    assert!(rt; pagers.iter().all(|pager| is_area(pager)));
    let swap = Swap::new(alloc, pagers)?;
    let mut store = PageStore::new(alloc, 2, swap)?;
    assert!(rt; store.swap().capacity() >= 3);
    add_segment(rt, &mut store, 0, 3)?;
    Ok(store)
}

// One byte of segment 0.
fn span_at<P: Pager>(rt: &impl Abort, store: &PageStore<P>, at: u64) -> Span
    requires { HasThree store.now }
    ensures fit { FitsPage (held store.now) result }
    ensures frame { result.frame ≡ frame_of store.now result.seg (page_of result) }
    ensures size { result.len ≡ 1 }
{
    assert!(rt; at < 12288);
    let frame = store.frame(0, (at / 4096) as u32);
    Span {
        seg: 0,
        at,
        len: 1,
        frame,
    }
}

fn load<P: Pager>(rt: &impl Abort, store: &mut PageStore<P>, at: u64) -> Option<u8>
    requires { HasThree store.old }
    ensures { HasThree store.new }
{
    let span = span_at(rt, store, at);
    let mut out = [7; 1];
    match store.read(&[span], &mut out) {
        Ok(_) => Some(out[0]),
        Err(_) => None,
    }
}

fn save<P: Pager>(rt: &impl Abort, store: &mut PageStore<P>, at: u64, byte: u8) -> bool
    requires { HasThree store.old }
    ensures { HasThree store.new }
{
    let span = span_at(rt, store, at);
    match store.write(&[span], &[byte]) {
        Ok(_) => true,
        Err(_) => false,
    }
}

fn move_off<P: Pager>(rt: &impl Abort, store: &mut PageStore<P>, area: u32) -> bool
    requires { HasThree store.old }
    ensures { HasThree store.new }
{
    let Some(size) = store.swap().size(area) else {
        return false;
    };
    assert!(rt; 3 + u64::from(size) <= store.swap().capacity());
    match store.move_off(area) {
        Ok(()) => true,
        Err(_) => false,
    }
}

/// A question to a store of three pages in two frames, with the expected answer.
#[derive(Clone, Copy)]
enum Ask {
    /// Stores a byte. A pager may fail.
    Save(u64, u8, bool),
    /// Loads a byte; none if a pager fails.
    Load(u64, Option<u8>),
    /// Flushes at most this many pages: this many are written, this many fail, and this many stay dirty.
    Flush(u64, u64, u64, u64),
    /// Takes an area away. It stays if a pager fails, and can't be taken away twice.
    MoveOff(u32, bool),
    /// How many pages are in frames, and how many only in slots.
    Where(u32, u32),
}

use Ask::{Flush, Load, MoveOff, Save, Where};

// Whether a flush round writes this many pages and leaves this many dirty.
fn flushes<P: Pager>(store: &mut PageStore<P>, pages: u64, report: FlushReport, dirty: u64) -> bool
    requires { HasThree store.old }
    ensures { HasThree store.new }
{
    store.flush(pages) == report && tally_of(store).dirty == dirty
}

fn answers<P: Pager>(rt: &impl Abort, store: &mut PageStore<P>, ask: Ask) -> bool
    requires { HasThree store.old }
    ensures { HasThree store.new }
{
    match ask {
        Save(at, byte, is_done) => save(rt, store, at, byte) == is_done,
        Load(at, byte) => load(rt, store, at) == byte,
        Flush(pages, written, failed, dirty) => {
            flushes(store, pages, FlushReport { written, failed }, dirty)
        }
        MoveOff(area, goes) => move_off(rt, store, area) == goes,
        Where(resident, swapped) => {
            tally_of(store).resident == u64::from(resident) && store.swapped() == swapped
        }
    }
}

fn ask_all<P: Pager>(rt: &impl Abort, store: &mut PageStore<P>, name: &str, asks: &[Ask])
    requires { HasThree store.old }
    ensures { HasThree store.new }
{
    for (number, &one) in asks.iter().enumerate() {
        assert!(rt; answers(rt, store, one), "{name}, ask {number}");
    }
}

/// Questions to a store in order, and its counts afterwards.
#[derive(Clone, Copy)]
struct Trial {
    name: &'static str,
    asks: &'static [Ask],
    tally: PageTally,
}

// Asks a store over these areas.
fn tried<P: Pager>(
    rt: &impl Abort,
    alloc: Global,
    pagers: Vec<P>,
    trial: &Trial,
) -> Result<(), HostMemory> {
    let mut store = store_over(rt, alloc, pagers)?;
    ask_all(rt, &mut store, trial.name, trial.asks);
    assert!(rt; tally_of(&store) == trial.tally, "{}", trial.name);
    Ok(())
}

fn one_area(
    alloc: Global,
    reads: &[u64],
    writes: &[u64],
) -> Result<Vec<FusePager<RamPager>>, AllocError> {
    Ok(vec![in alloc; fuse(alloc, 64, reads, writes)?]?)
}

// Two frames are full, and one of 64 slots is used.
const FULL: PageTally = PageTally {
    resident: 2,
    dirty: 0,
    slots: 64,
    used: 1,
    ins: 1,
    outs: 1,
    failures: 0,
};

/// Reads and writes of one area that fail, and the trial.
type OneArea = (&'static [u64], &'static [u64], Trial);

const IN_AND_OUT: &[OneArea] = &[
    (
        &[],
        &[],
        Trial {
            name: "pages go out and come in",
            asks: &[
                Save(0, 0x2a, true),
                Load(4096, Some(0)),
                Load(8192, Some(0)),
                Load(0, Some(0x2a)),
            ],
            tally: FULL,
        },
    ),
    (
        &[],
        &[],
        Trial {
            name: "pages are counted where they are",
            asks: &[
                Where(0, 0),
                Save(0, 0x2a, true),
                Where(1, 0),
                Load(4096, Some(0)),
                Load(8192, Some(0)),
                Where(2, 1),
                Load(0, Some(0x2a)),
                Where(2, 0),
            ],
            tally: FULL,
        },
    ),
    (
        &[1],
        &[],
        Trial {
            name: "a read that fails loses nothing",
            asks: &[
                Save(0, 0x2a, true),
                Load(4096, Some(0)),
                Load(8192, Some(0)),
                Load(0, None),
                Load(0, Some(0x2a)),
            ],
            tally: PageTally {
                failures: 1,
                ..FULL
            },
        },
    ),
    (
        &[],
        &[1],
        Trial {
            name: "a write that fails keeps the page",
            asks: &[
                Save(0, 0x2a, true),
                Load(4096, Some(0)),
                Load(8192, None),
                Load(0, Some(0x2a)),
                Load(8192, Some(0)),
            ],
            tally: PageTally {
                dirty: 1,
                ins: 0,
                outs: 0,
                failures: 1,
                ..FULL
            },
        },
    ),
    (
        &[],
        &[2],
        Trial {
            name: "a flush writes the first dirty frames",
            asks: &[
                Save(0, 0x2a, true),
                Save(4096, 0x2b, true),
                Flush(1, 1, 0, 1),
                Flush(2, 0, 1, 1),
                Flush(2, 1, 0, 0),
                Flush(2, 0, 0, 0),
            ],
            tally: PageTally {
                used: 2,
                ins: 0,
                outs: 2,
                failures: 1,
                ..FULL
            },
        },
    ),
];

#[test]
fn pages_go_out_and_come_in(rt: HostRuntime) -> Result<(), Fail> {
    for (reads, writes, trial) in IN_AND_OUT {
        let areas = one_area(rt.alloc(), reads, writes)?;
        tried(&rt, rt.alloc(), areas, trial)?;
    }
    Ok(())
}

/// Questions to a store before it is copied, questions to both afterwards, and the counts of the copy.
#[derive(Clone, Copy)]
struct Copied<'a> {
    name: &'a str,
    before: &'a [Ask],
    store: &'a [Ask],
    copy: &'a [Ask],
    tally: PageTally,
}

// A copy of a store. If the host refuses memory, the store is unchanged, and is copied again.
fn copy_of<P: ClonePager>(store: &PageStore<P>) -> Result<PageStore<P>, HostMemory>
    ensures { IfOk result (λ copy. copy ≡ store.now) }
{
    match store.try_clone() {
        Ok(copy) => Ok(copy),
        Err(_) => store.try_clone(),
    }
}

// Asks the store and then its copy.
fn ask_both<P: ClonePager>(
    rt: &impl Abort,
    store: &mut PageStore<P>,
    case: &Copied<'_>,
) -> Result<(), HostMemory>
    requires { HasThree store.old }
{
    let mut copy = copy_of(store)?;
    ask_all(rt, store, case.name, case.store);
    ask_all(rt, &mut copy, case.name, case.copy);
    assert!(rt; tally_of(&copy) == case.tally, "{}", case.name);
    Ok(())
}

// Asks a store over these areas, and a copy of it.
fn tried_with_copy<P: ClonePager>(
    rt: &impl Abort,
    alloc: Global,
    pagers: Vec<P>,
    case: &Copied<'_>,
) -> Result<(), HostMemory> {
    let mut store = store_over(rt, alloc, pagers)?;
    ask_all(rt, &mut store, case.name, case.before);
    ask_both(rt, &mut store, case)
}

// This holds whatever was done before, and whatever will fail.
#[test]
fn a_copy_continues_as_its_store(rt: HostRuntime) -> Result<(), Fail> {
    for (reads, writes, trial) in IN_AND_OUT {
        for done in 0..trial.asks.len() {
            let (before, rest) = trial.asks.split_at(done);
            let areas = one_area(rt.alloc(), reads, writes)?;
            let case = Copied {
                name: trial.name,
                before,
                store: rest,
                copy: rest,
                tally: trial.tally,
            };
            tried_with_copy(&rt, rt.alloc(), areas, &case)?;
        }
    }
    Ok(())
}

// Two dirty pages and one that was never touched. Then one of the dirty pages is stored, and the third page
// evicts the other.
const APART: Copied<'_> = Copied {
    name: "a copy and its store go on apart",
    before: &[Save(0, 0x2a, true), Save(4096, 0x2b, true)],
    store: &[
        Save(0, 0x3a, true),
        Load(8192, Some(0)),
        Load(4096, Some(0x2b)),
        Load(0, Some(0x3a)),
    ],
    copy: &[
        Where(2, 0),
        Load(0, Some(0x2a)),
        Load(4096, Some(0x2b)),
        Flush(2, 2, 0, 0),
    ],
    tally: PageTally {
        used: 2,
        ins: 0,
        outs: 2,
        ..FULL
    },
};

#[test]
fn a_copy_and_its_store_are_independent(rt: HostRuntime) -> Result<(), Fail> {
    let areas = one_area(rt.alloc(), &[], &[])?;
    tried_with_copy(&rt, rt.alloc(), areas, &APART)?;
    Ok(())
}

// Two areas of these many slots.
pub(crate) fn two_rams(alloc: Global, first: u32, other: u32) -> Result<Vec<RamPager>, AllocError> {
    Ok(vec![in alloc; RamPager::new(alloc, first)?, RamPager::new(alloc, other)?]?)
}

const MOVED: Trial = Trial {
    name: "pages move where their area goes",
    asks: &[
        Save(0, 0x2a, true),
        Load(4096, Some(0)),
        Load(8192, Some(0)),
        MoveOff(0, true),
        Load(0, Some(0x2a)),
        MoveOff(0, false),
    ],
    tally: PageTally { slots: 3, ..FULL },
};

#[test]
fn pages_move_when_their_area_is_turned_off(rt: HostRuntime) -> Result<(), Fail> {
    let alloc = rt.alloc();
    tried(&rt, alloc, two_rams(alloc, 3, 3)?, &MOVED)?;
    Ok(())
}

// Two areas: reads of the first and writes of the second fail.
fn two_areas(
    alloc: Global,
    reads: &[u64],
    writes: &[u64],
) -> Result<Vec<FusePager<RamPager>>, AllocError> {
    Ok(vec![in alloc; fuse(alloc, 64, reads, &[])?, fuse(alloc, 64, &[], writes)?]?)
}

const STAYED: Trial = Trial {
    name: "an area stays where a pager fails",
    asks: &[
        Save(0, 0x2a, true),
        Load(4096, Some(0)),
        Load(8192, Some(0)),
        MoveOff(0, false),
        Load(0, Some(0x2a)),
        MoveOff(0, true),
    ],
    tally: PageTally {
        dirty: 1,
        used: 0,
        failures: 1,
        ..FULL
    },
};

// The first write to the other area fails, and then the first read of the area that is taken away.
const ROUNDS: &[(&[u64], &[u64])] = &[(&[], &[1]), (&[1], &[])];

#[test]
fn an_area_stays_if_a_pager_fails(rt: HostRuntime) -> Result<(), Fail> {
    for (reads, writes) in ROUNDS {
        let areas = two_areas(rt.alloc(), reads, writes)?;
        tried(&rt, rt.alloc(), areas, &STAYED)?;
    }
    Ok(())
}

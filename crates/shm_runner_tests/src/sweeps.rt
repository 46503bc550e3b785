//! One call of a pager fails, at each place in turn, without a swapoff and with one. Whatever failed, each
//! call has the reply that it has on lists of bytes, where a call that was refused for the failure does
//! nothing. At the end every byte is the same.
ghost use Rattle.std.specs.Prelude.{IfOk};
ghost use Rattle.shm_threads.specs.Outcomes.{IsOpened};

use shm_base::{AccessLen, AtFlags, Call, Chunk, Errno, Event, Reply, ShmId};
use shm_flat_tests::Flat;
use shm_history::World;
use shm_pager::{FusePager, MirrorPager, RamPager};
use shm_pager_core::Pager;
use shm_pager_tests::fuse;
use shm_program::{Values, open_world, run_line};
use shm_text::{Script, read_script};
use shm_threads::{OpenGate, run_threads};
use std::alloc::Global;
use std::sync::Wait;
use std::test::Fail;
use std::thread::Threads;

/// The slots of the areas. The first area is too small for all pages, so the second is used without a swapoff
/// too.
const FIRST_SLOTS: u32 = 8;

const SECOND_SLOTS: u32 = 16;

/// The most segments.
const SHMMNI: u32 = 16;

const MOST_PLACES: u64 = 1000;

/// Twelve pages in three frames, two processes that map them all, and a child.
const HEAD: &[u8] = b"\
limits 65536 16 64 3 1\n\
process 1 0 0\n\
process 2 0 0\n\
child 3\n\
1 a = shmget 10 20480 666,creat\n\
2 a = shmget 10 20480 666,creat\n\
1 b = shmget 11 16384 666,creat\n\
2 b = shmget 11 16384 666,creat\n\
1 c = shmget 12 8192 666,creat\n\
2 c = shmget 12 8192 666,creat\n\
1 d = shmget 13 4096 666,creat\n\
2 d = shmget 13 4096 666,creat\n\
1 p = shmat a null -\n\
2 p = shmat a null -\n\
0 flush 1\n\
1 q = shmat b null -\n\
2 q = shmat b null -\n\
1 r = shmat c null -\n\
2 r = shmat c null -\n\
1 s = shmat d null -\n\
2 s = shmat d null rdonly\n\
1 fork 3\n\
1 store p ffffffffffffffffff\n\
2 store q ff\n\
1 stat a\n\
0 flush 2\n";

/// Thirty commands, which leave other bytes each time.
const ROUND: &[u8] = b"\
1 xadd p 72340172838076673\n\
2 xadd p+4090 578437695752307201\n\
1 store p+8190 01020304\n\
1 xadd p+8191 506381209866536711\n\
2 xadd q+4093 1234567890123456789\n\
1 lock d\n\
1 xadd q+12280 81985529216486895\n\
2 load p+16350 64\n\
3 xadd 0x40000ffc 1311768467463790320\n\
2 xadd r+4090 1229782938247303441\n\
0 flush 2\n\
1 xadd s+100 1229782938247303442\n\
1 t = shmget private 4096 600\n\
1 u = shmat t null -\n\
1 xadd u+8 1085102592571150095\n\
1 rmid t\n\
1 xadd u+12 4294967297\n\
1 load u 64\n\
1 shmdt u\n\
3 load 0x40003ff0 64\n\
2 unlock d\n\
0 flush 1\n\
2 xadd p+20472 72340172838076674\n\
1 xadd q 6510615555426900570\n\
3 xadd 0x40007ff8 3617008641903833650\n\
2 xadd r+8184 289360691352306692\n\
1 load r 64\n\
1 xadd p+12284 8608480567731124087\n\
2 load q+8130 64\n\
3 store 0x40005ffe 0102030405\n\
2 xadd q+8192 7378697629483820646\n\
1 load p+4064 64\n\
0 flush 3\n";

// Twelve rounds; with `swapoff`, an area is taken away halfway.
fn script(alloc: Global, swapoff: bool) -> Result<Script, Fail> {
    let mut text = Vec::from_slice(alloc, HEAD)?;
    for round in 0..12 {
        if swapoff && round == 6 {
            text.extend_from_slice(b"1 swapoff 0\n".as_slice())?;
        }
        text.extend_from_slice(ROUND)?;
    }
    Ok(read_script(alloc, &text).ok().ok_or("a script")?)
}

fn with_threads<R: Threads + Wait + Sync, P: Pager + Send>(
    rt: &R,
    alloc: Global,
    script: &Script,
    world: World<P>,
) -> Result<World<P>, Fail>
    requires { IsOpened script.now world }
{
    let run = run_threads(rt, alloc, world, script, &OpenGate);
    Ok(run.ok().ok_or("a run")?.world)
}

// Makes the calls and the flush rounds of a script in the order of its lines.
fn run_lines<P: Pager>(alloc: Global, world: &mut World<P>, script: &Script) -> Result<(), Fail> {
    let mut values = Values::new(alloc, &script.processes)?;
    for line in &script.lines {
        let _action = run_line(world, &mut values, line)?;
    }
    Ok(())
}

// The world after the script, which runs in file order or with a thread for each process.
fn ran<R: Threads + Wait + Sync, P: Pager + Send>(
    rt: &R,
    alloc: Global,
    script: &Script,
    pagers: Vec<P>,
    threaded: bool,
) -> Result<World<P>, Fail> {
    let mut world = opened(alloc, script, pagers)?;
    if threaded {
        return with_threads(rt, alloc, script, world);
    }
    run_lines(alloc, &mut world, script)?;
    Ok(world)
}

#[tactic(auto, using(shm_runner::proofs::Opened::opens))]
pub(crate) fn opened<P: Pager>(
    alloc: Global,
    script: &Script,
    pagers: Vec<P>,
) -> Result<World<P>, Fail>
    ensures { IfOk result (IsOpened script.now) }
{
    match open_world(alloc, script, pagers) {
        Ok(world) => Ok(world),
        Err(_) => Err("it starts".into()),
    }
}

fn load(addr: u64, len: u64) -> Result<Call, Fail> {
    let len = AccessLen::new(len).ok_or("1 to 64")?;
    Ok(Call::Load { addr, len })
}

// Whether a call was refused because a pager failed.
fn is_failure(call: &Call, reply: &Reply) -> bool {
    match call {
        Call::Load { .. }
        | Call::Store { .. }
        | Call::Xadd { .. }
        | Call::Exchange { .. }
        | Call::CompareExchange { .. } => matches!(reply, Reply::Refused(Errno::Sigbus)),
        Call::Swapoff { .. } => matches!(reply, Reply::Refused(Errno::Eio)),
        _ => false,
    }
}

// Makes the calls of a history on lists of bytes, and checks each reply. Returns how many of them were
// refused because a pager failed.
fn replay(flat: &mut Flat, history: &[Event]) -> Result<u64, Fail> {
    let mut failed = 0u64;
    for event in history {
        if is_failure(&event.call, &event.reply) {
            flat.passes_over();
            failed = failed.wrapping_add(1);
        } else if flat.answer(event.pid, &event.call)? != event.reply {
            return Err("another reply".into());
        }
    }
    Ok(failed)
}

// Whether a load of process 1 gives the bytes, and how often it was refused because a pager failed: at most
// once.
fn loaded<P: Pager>(world: &mut World<P>, addr: u64, bytes: &[u8]) -> Result<(bool, u64), Fail> {
    let load = load(addr, 64)?;
    let wanted = Reply::Bytes(Chunk::new(bytes).ok_or("1 to 64 bytes")?);
    let reply = world.call(1, &load)?;
    if is_failure(&load, &reply) {
        return Ok((world.call(1, &load)? == wanted, 1));
    }
    Ok((reply == wanted, 0))
}

// The address at which process 1 attaches the segment.
fn attached<P: Pager>(world: &mut World<P>, id: ShmId) -> Result<u64, Fail> {
    let shmat = Call::Shmat {
        id,
        addr: 0,
        flags: AtFlags::RDONLY,
    };
    match world.call(1, &shmat)? {
        Reply::Addr(base) => Ok(base),
        _ => Err("not attached".into()),
    }
}

// Whether the segment has these bytes, and how many loads of them were refused because a pager failed.
fn has_bytes<P: Pager>(world: &mut World<P>, id: ShmId, bytes: &[u8]) -> Result<(bool, u64), Fail> {
    let mut addr = attached(world, id)?;
    let mut failed = 0u64;
    for part in bytes.chunks(64) {
        let (is_same, again) = loaded(world, addr, part)?;
        if !is_same {
            return Ok((false, failed));
        }
        failed = failed.wrapping_add(again);
        addr = addr.wrapping_add(64);
    }
    Ok((true, failed))
}

// Whether the index has the same segment in both, with every byte, and how many loads were refused because a
// pager failed.
fn same_segment<P: Pager>(
    world: &mut World<P>,
    flat: &Flat,
    index: u32,
) -> Result<(bool, u64), Fail> {
    match (world.segment(index), flat.segment(index)) {
        (None, None) => Ok((true, 0)),
        (Some((id, row)), Some((wanted, shown, bytes))) => {
            if id != wanted || row != shown {
                return Ok((false, 0));
            }
            has_bytes(world, id, bytes)
        }
        _ => Ok((false, 0)),
    }
}

// How many loads were refused because a pager failed, if the segments are the same in both, with every byte.
fn compared_segments<P: Pager>(world: &mut World<P>, flat: &Flat) -> Result<u64, Fail> {
    let mut failed = 0u64;
    for index in 0..SHMMNI {
        let (is_same, again) = same_segment(world, flat, index)?;
        if !is_same {
            return Err("another segment or byte".into());
        }
        failed = failed.wrapping_add(again);
    }
    Ok(failed)
}

// The failures of a world whose calls have the replies of lists of bytes, and leave the same bytes. One of
// the loads that compare them may fail. No more calls are refused for a failure than failures are counted.
fn compared<P: Pager>(alloc: Global, world: &mut World<P>) -> Result<u64, Fail> {
    let mut flat = Flat::new(alloc)?;
    let refused = replay(&mut flat, world.history())?;
    let loads = compared_segments(world, &flat)?;
    let failures = world.tally().failures;
    if loads > 1 || refused.wrapping_add(loads) > failures {
        return Err("refused without a failure".into());
    }
    Ok(failures)
}

// Runs the script over the areas, compares it with its calls on lists of bytes, and returns the number of
// failures.
fn failures<R: Threads + Wait + Sync, P: Pager + Send>(
    rt: &R,
    alloc: Global,
    script: &Script,
    pagers: Vec<P>,
    threaded: bool,
) -> Result<u64, Fail> {
    let mut world = ran(rt, alloc, script, pagers, threaded)?;
    compared(alloc, &mut world)
}

// Which calls fail: the reads or the writes of the first area, or of the second.
#[derive(Clone, Copy)]
enum Failing {
    FirstReads,
    FirstWrites,
    SecondReads,
    SecondWrites,
}

/// The reads and writes of an area that fail.
type Calls<'a> = (&'a [u64], &'a [u64]);

// Two areas that fail these calls.
fn fuses(
    alloc: Global,
    first: Calls<'_>,
    second: Calls<'_>,
) -> Result<Vec<FusePager<RamPager>>, Fail> {
    let first = fuse(alloc, FIRST_SLOTS, first.0, first.1)?;
    let second = fuse(alloc, SECOND_SLOTS, second.0, second.1)?;
    Ok(vec![in alloc; first, second]?)
}

// Two areas, one of which fails at this place.
fn fuses_failing(
    alloc: Global,
    failing: Failing,
    place: u64,
) -> Result<Vec<FusePager<RamPager>>, Fail> {
    let (none, place): (&[u64], &[u64]) = (&[], &[place]);
    match failing {
        Failing::FirstReads => fuses(alloc, (place, none), (none, none)),
        Failing::FirstWrites => fuses(alloc, (none, place), (none, none)),
        Failing::SecondReads => fuses(alloc, (none, none), (place, none)),
        Failing::SecondWrites => fuses(alloc, (none, none), (none, place)),
    }
}

// Each of these calls fails in turn, until a run has no failure. The first run has one.
fn each_fails<R: Threads + Wait + Sync>(
    rt: &R,
    alloc: Global,
    script: &Script,
    threaded: bool,
    failing: Failing,
) -> Result<(), Fail> {
    for place in 1..MOST_PLACES {
        let areas = fuses_failing(alloc, failing, place)?;
        if failures(rt, alloc, script, areas, threaded)? == 0 {
            return past(place);
        }
    }
    Err("each run had a failure".into())
}

// Whether the first run without a failure is a later one.
fn past(place: u64) -> Result<(), Fail> {
    if place == 1 {
        return Err("nothing failed".into());
    }
    Ok(())
}

fn each_call_fails<R: Threads + Wait + Sync>(
    rt: &R,
    alloc: Global,
    threaded: bool,
    swapoff: bool,
) -> Result<(), Fail> {
    let script = script(alloc, swapoff)?;
    each_fails(rt, alloc, &script, threaded, Failing::FirstReads)?;
    each_fails(rt, alloc, &script, threaded, Failing::FirstWrites)?;
    each_fails(rt, alloc, &script, threaded, Failing::SecondReads)?;
    each_fails(rt, alloc, &script, threaded, Failing::SecondWrites)
}

type Mirror = MirrorPager<FusePager<RamPager>, FusePager<RamPager>>;

// A mirror of this many slots whose left side fails these writes, and whose right side fails these reads.
fn mirror(alloc: Global, slots: u32, writes: &[u64], reads: &[u64]) -> Result<Mirror, Fail> {
    let left = fuse(alloc, slots, &[], writes)?;
    let right = fuse(alloc, slots, reads, &[])?;
    Ok(
        MirrorPager::new(alloc, left, right)
            .ok()
            .ok_or("equal sides")?,
    )
}

// Two mirrors, the first of which fails at these calls.
fn mirrors(alloc: Global, write: u64, read: u64) -> Result<Vec<Mirror>, Fail> {
    let first = mirror(alloc, FIRST_SLOTS, &[write], &[read])?;
    let second = mirror(alloc, SECOND_SLOTS, &[], &[])?;
    Ok(vec![in alloc; first, second]?)
}

// A write of the left side fails, and a read of the right side, each at each of the first twenty places.
fn each_side_fails<R: Threads + Wait + Sync>(
    rt: &R,
    alloc: Global,
    threaded: bool,
    swapoff: bool,
) -> Result<(), Fail> {
    let script = script(alloc, swapoff)?;
    for pair in 0..400 {
        let (write, read) = (1 + pair / 20, 1 + pair % 20);
        let pagers = mirrors(alloc, write, read)?;
        let _found = failures(rt, alloc, &script, pagers, threaded)?;
    }
    Ok(())
}

#[test]
fn each_call_fails_in_order(rt: HostRuntime) -> Result<(), Fail> {
    each_call_fails(&rt, rt.alloc(), false, false)
}

#[test]
fn each_call_fails_around_a_swapoff(rt: HostRuntime) -> Result<(), Fail> {
    each_call_fails(&rt, rt.alloc(), false, true)
}

#[test]
fn each_call_fails_with_threads(rt: HostRuntime) -> Result<(), Fail> {
    each_call_fails(&rt, rt.alloc(), true, false)
}

#[test]
fn each_call_fails_with_threads_around_a_swapoff(rt: HostRuntime) -> Result<(), Fail> {
    each_call_fails(&rt, rt.alloc(), true, true)
}

#[test]
fn each_side_fails_in_order(rt: HostRuntime) -> Result<(), Fail> {
    each_side_fails(&rt, rt.alloc(), false, false)
}

#[test]
fn each_side_fails_around_a_swapoff(rt: HostRuntime) -> Result<(), Fail> {
    each_side_fails(&rt, rt.alloc(), false, true)
}

#[test]
fn each_side_fails_with_threads(rt: HostRuntime) -> Result<(), Fail> {
    each_side_fails(&rt, rt.alloc(), true, false)
}

#[test]
fn each_side_fails_with_threads_around_a_swapoff(rt: HostRuntime) -> Result<(), Fail> {
    each_side_fails(&rt, rt.alloc(), true, true)
}

// The reads and writes of both areas that fail: single ones and consecutive ones.
const MANY: Calls<'_> = (&[1, 4, 5, 6, 20], &[2, 3, 7, 12, 20, 21, 33]);

#[test]
fn many_calls_fail(rt: HostRuntime) -> Result<(), Fail> {
    let script = script(rt.alloc(), true)?;
    for threaded in [false, true] {
        let areas = fuses(rt.alloc(), MANY, MANY)?;
        let failures = failures(&rt, rt.alloc(), &script, areas, threaded)?;
        assert!(rt; failures > 10, "with threads: {threaded}");
    }
    Ok(())
}

//! Gauged runs with a reader, which waits for no lock.
ghost use Rattle.std.specs.Prelude.{◌≡◌, []};
ghost use Rattle.shm_threads.specs.Outcomes.{IsOpened};

use crate::runs::{COUNTER, COUNTS, late, repeated};
use crate::shared::{Rule, Ruled, comes_to, script, world_over};
use shm_history::{Gauge, Keeper, ReaderSeat, Reading, World, gauge};
use shm_pager::RamPager;
use shm_pager_core::{Pager, PagerFault};
use shm_text::Script;
use shm_threads::{Gate, Outcome, RunError, run_threads_gauged};
use std::alloc::Global;
use std::sync::Wait;
use std::sync::atomic::{AtomicU64, Ordering};
use std::test::Fail;
use std::thread::{Threads, join};

/// What a reader and the other threads report to each other.
#[derive(Drop)]
struct Readings {
    /// How many readings have ended.
    ended: AtomicU64,
    /// How many readings no world can have, or had fewer events than the one before.
    wrong: AtomicU64,
    /// How many of two pages flush rounds have written after four calls, by the last reading.
    flushed: AtomicU64,
    /// Whether the run has ended.
    done: AtomicU64,
    /// How many readings that were waited for did not come.
    late: AtomicU64,
}

impl Readings {
    fn none() -> Readings {
        Readings {
            ended: AtomicU64::new(0),
            wrong: AtomicU64::new(0),
            flushed: AtomicU64::new(0),
            done: AtomicU64::new(0),
            late: AtomicU64::new(0),
        }
    }

    fn note(&self, last: u64, now: Reading) {
        if now.events == 4 && now.resident == 2 && now.dirty.checked_add(now.used) == Some(2) {
            self.flushed.store(now.used, Ordering::SeqCst);
        }
        let is_sound = now.dirty <= now.resident && now.resident <= 4096 && now.used <= 65536;
        if now.events < last || !is_sound {
            self.wrong.fetch_add(1, Ordering::SeqCst);
        }
        self.ended.fetch_add(1, Ordering::SeqCst);
    }

    /// Waits until this count is at least this high.
    fn wait(&self, count: &AtomicU64, least: u64) {
        if !comes_to(count, least) {
            self.late.fetch_add(1, Ordering::SeqCst);
        }
    }
}

/// Reads until the run has ended, and at least this many times.
fn watch<R: Wait>(
    rt: &R,
    gauge: &Gauge,
    mut seat: ReaderSeat,
    readings: &Readings,
    least: u64,
) -> ReaderSeat
    requires { seat.cell ≡ gauge.now }
    ensures { result.cell ≡ gauge.entry.now }
{
    let mut last = 0;
    for _ in rt.forever() {
        let is_done = readings.done.load(Ordering::SeqCst) == 1;
        if is_done && readings.ended.load(Ordering::SeqCst) >= least {
            break;
        }
        let now = gauge.read(rt, &mut seat);
        readings.note(last, now);
        last = now.events;
    }
    seat
}

fn run_gauged<R: Threads + Wait + Sync, G: Gate, P: Pager + Send>(
    rt: &R,
    alloc: Global,
    world: World<P>,
    keeper: Keeper,
    script: &Script,
    gate: &G,
    readings: &Readings,
) -> Option<RunError>
    requires { IsOpened script.now world }
{
    let run = run_threads_gauged(rt, alloc, world, keeper, script, gate);
    readings.done.store(1, Ordering::SeqCst);
    match run {
        Ok(
            (
                Outcome {
                    world: _,
                    transcripts: _,
                },
                _,
            ),
        ) => None,
        Err(fault) => Some(fault),
    }
}

/// How a gauged run with a reader ended.
#[derive(Clone, Copy)]
struct Ending {
    fault: Option<RunError>,
    /// The events of the last reading.
    events: u64,
    /// How many readings no world can have, or had fewer events than the one before.
    wrong: u64,
    /// How many readings that were waited for did not come.
    late: u64,
}

/// Runs a gauged script with a reader on a thread of its own, which reads at least this many times.
fn with_a_reader<R: Threads + Wait + Sync, G: Gate, P: Pager + Send>(
    rt: &R,
    alloc: Global,
    script: &Script,
    pager: P,
    gate: &G,
    readings: &Readings,
    least: u64,
) -> Result<Ending, Fail> {
    let world = world_over(alloc, script, pager)?;
    let (gauge, keeper, seat) = gauge(rt, alloc, &world)?;
    let (mut seat, fault) = join(
        rt,
        || watch(rt, &gauge, seat, readings, least),
        || -> Option<RunError>
            requires { IsOpened script.now world }
        { run_gauged(rt, alloc, world, keeper, script, gate, readings) },
    );
    Ok(Ending {
        fault,
        events: gauge.read(rt, &mut seat).events,
        wrong: readings.wrong.load(Ordering::SeqCst),
        late: readings.late.load(Ordering::SeqCst),
    })
}

// The same over an area of 64 pages in memory.
fn over_memory<R: Threads + Wait + Sync, G: Gate>(
    rt: &R,
    alloc: Global,
    text: &[u8],
    gate: &G,
    readings: &Readings,
    least: u64,
) -> Result<Ending, Fail> {
    let script = script(alloc, text)?;
    let pager = RamPager::new(alloc, 64)?;
    with_a_reader(rt, alloc, &script, pager, gate, readings, least)
}

#[test]
fn readings_while_four_count(rt: HostRuntime) -> Result<(), Fail> {
    let text = repeated(rt.alloc(), COUNTER, COUNTS, 50)?;
    let (gate, readings) = (Ruled::by(Rule::Open), Readings::none());
    let ending = over_memory(&rt, rt.alloc(), &text, &gate, &readings, 100_000)?;
    assert!(rt; ending.fault.is_none());
    assert_eq!(rt; (ending.events, ending.wrong), (412, 0));
    Ok(())
}

/// Starts the flusher's rounds after process 1's fourth call, and holds the flusher after each round until a
/// reading shows the pages that it wrote.
#[derive(Drop)]
struct UntilRead<'a> {
    behind: Ruled,
    readings: &'a Readings,
    pages: u64,
}

impl Gate for UntilRead<'_> {
    ghost use Rattle.std.specs.Prelude.{true};

    ghost answers = { λ gate pid n may. true };

    fn before(&self, pid: u32, n: u64) -> bool {
        self.behind.before(pid, n)
    }

    fn after(&self, pid: u32, n: u64) {
        self.behind.after(pid, n);
        if pid == 0 {
            let written = self.pages.saturating_mul(n);
            self.readings.wait(&self.readings.flushed, written);
        }
    }
}

// How a run ends whose rounds of this many pages are read one by one.
fn read_after_each<R: Threads + Wait + Sync>(
    rt: &R,
    alloc: Global,
    rounds: &[u64],
) -> Result<Ending, Fail> {
    let text = late(alloc, rounds)?;
    let readings = Readings::none();
    let gate = UntilRead {
        behind: Ruled::by(Rule::AfterCalls(4)),
        readings: &readings,
        pages: *rounds.first().ok_or("a round")?,
    };
    over_memory(rt, alloc, &text, &gate, &readings, 0)
}

#[test]
fn each_round_is_published(rt: HostRuntime) -> Result<(), Fail> {
    for rounds in [[2].as_slice(), [1, 1].as_slice()] {
        let ending = read_after_each(&rt, rt.alloc(), rounds)?;
        assert!(rt; ending.fault.is_none(), "of {}", rounds.len());
        assert_eq!(rt; (ending.events, ending.late), (4, 0));
    }
    Ok(())
}

/// Pages in memory. The first write, which holds the world's lock, ends only after a reading has begun and
/// ended since.
#[derive(Drop)]
struct WaitingPager<'a> {
    inner: RamPager,
    readings: &'a Readings,
    has_waited: bool,
}

impl Pager for WaitingPager<'_> {
    ghost content = { λ p. p.inner };

    ghost failed = { λ _. 0 };

    ghost most = { λ _. 0 };

    ghost calls = { λ _. [] };

    fn slots(&self) -> u32 {
        self.inner.slots()
    }

    fn failures(&self) -> u64 {
        0
    }

    fn write(&mut self, slot: u32, page: &[u8; 4096]) -> Result<(), PagerFault> {
        if !self.has_waited {
            self.has_waited = true;
            // one may have begun before, but not two
            let ended = self.readings.ended.load(Ordering::SeqCst);
            self.readings
                .wait(&self.readings.ended, ended.saturating_add(2));
        }
        self.inner.write(slot, page)
    }

    fn read(&mut self, slot: u32, page: &mut [u8; 4096]) -> Result<(), PagerFault> {
        self.inner.read(slot, page)
    }

    fn discard(&mut self, slot: u32) {
        self.inner.discard(slot);
    }

    fn wipe(&mut self) {
        self.inner.wipe();
    }
}

/// Three pages in two frames: the second to last call evicts a page.
const SHORT: &[u8] = b"\
limits 65536 16 64 2 0\n\
process 1 100 100\n\
1 s = shmget private 12288 600\n\
1 a = shmat s null -\n\
1 store a 2a\n\
1 load a+4096 1\n\
1 load a+8192 1\n\
1 load a 1\n";

fn over_a_waiting_pager<R: Threads + Wait + Sync>(
    rt: &R,
    alloc: Global,
    text: &[u8],
    rule: Rule,
) -> Result<Ending, Fail> {
    let script = script(alloc, text)?;
    let readings = Readings::none();
    let pager = WaitingPager {
        inner: RamPager::new(alloc, 64)?,
        readings: &readings,
        has_waited: false,
    };
    let gate = Ruled::by(rule);
    with_a_reader(rt, alloc, &script, pager, &gate, &readings, 0)
}

#[test]
fn readings_while_a_call_holds_the_lock(rt: HostRuntime) -> Result<(), Fail> {
    let ending = over_a_waiting_pager(&rt, rt.alloc(), SHORT, Rule::Open)?;
    assert!(rt; ending.fault.is_none());
    assert_eq!(rt; (ending.events, ending.late), (6, 0));
    Ok(())
}

#[test]
fn readings_while_the_flusher_holds_the_lock(rt: HostRuntime) -> Result<(), Fail> {
    let text = late(rt.alloc(), &[2])?;
    let ending = over_a_waiting_pager(&rt, rt.alloc(), &text, Rule::AfterCalls(4))?;
    assert!(rt; ending.fault.is_none());
    assert_eq!(rt; (ending.events, ending.late), (4, 0));
    Ok(())
}

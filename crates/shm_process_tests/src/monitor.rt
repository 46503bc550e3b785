//! A watched run: the script runs with threads, while a monitor reads the gauge. The monitor waits for no
//! lock, even if a pager is slow and calls wait for the world. At the end the program prints the events of the
//! last reading, and how many readings had fewer events than the one before, which is always 0.
//!
//! With the word `gauged` nothing reads, and with `plain` nothing is published either. Comparing the three
//! shows the costs.
ghost use Rattle.std.specs.Prelude.{◌≡◌, IfOk};
ghost use Rattle.shm_threads.specs.Outcomes.{IsOpened};

use crate::stop::Stop;
use shm_base::{HostMemory, PROFILE_SLOTS};
use shm_history::{Gauge, GaugeRefused, Keeper, ReaderSeat, World, gauge};
use shm_pager::SparsePager;
use shm_program::open_world;
use shm_text::{Script, read_script};
use shm_threads::{OpenGate, RunError, run_threads, run_threads_gauged};
use std::alloc::{AllocError, AllocFailed, Global};
use std::io::Read;
use std::sync::Wait;
use std::sync::atomic::{AtomicBool, Ordering};
use std::thread::{Threads, join};
use thiserror::Error;

/// What runs in addition to the script's workers and flusher: a keeper that publishes, and a monitor that
/// reads.
#[derive(Clone, Copy)]
enum Company {
    Plain,
    Gauged,
    Watched,
}

/// The events at the end, the number of readings, and the number of readings with fewer events than the one before.
#[derive(Clone, Copy)]
struct Watched {
    events: u64,
    readings: u64,
    went_back: u64,
}

/// Why nothing was run.
#[derive(Clone, Copy, Debug, PartialEq, Eq, Error)]
pub(crate) enum NoRun {
    #[error("no script")]
    Script,
    #[error("start refused")]
    Start,
    #[error("out of memory")]
    HostMemory,
    #[error("{0}")]
    Gauge(#[from] GaugeRefused),
    #[error("{0}")]
    Run(#[from] RunError),
}

impl From<HostMemory> for NoRun {
    fn from(_refused: HostMemory) -> NoRun {
        NoRun::HostMemory
    }
}

impl From<AllocError> for NoRun {
    fn from(_refused: AllocError) -> NoRun {
        NoRun::HostMemory
    }
}

impl<T: Drop> From<AllocFailed<T>> for NoRun {
    fn from(_refused: AllocFailed<T>) -> NoRun {
        NoRun::HostMemory
    }
}

#[tactic(auto, using(shm_runner::proofs::Opened::opens))]
fn start(alloc: Global, script: &Script) -> Result<World<SparsePager>, NoRun>
    ensures { IfOk result (IsOpened script.now) }
{
    let mut pagers = Vec::new(alloc);
    pagers.push(SparsePager::new(alloc, PROFILE_SLOTS)?)?;
    match open_world(alloc, script, pagers) {
        Ok(world) => Ok(world),
        Err(_) => Err(NoRun::Start),
    }
}

// The monitor: reads until the run is done, and then once more.
fn watch<R: Wait>(rt: &R, gauge: &Gauge, mut seat: ReaderSeat, is_done: &AtomicBool) -> Watched
    requires { seat.cell ≡ gauge.now }
{
    let mut watched = Watched {
        events: 0,
        readings: 0,
        went_back: 0,
    };
    for _ in rt.forever() {
        let is_last = is_done.load(Ordering::SeqCst);
        let now = gauge.read(rt, &mut seat);
        if now.events < watched.events {
            watched.went_back = watched.went_back.saturating_add(1);
        }
        watched.events = now.events;
        watched.readings = watched.readings.saturating_add(1);
        if is_last {
            break;
        }
    }
    watched
}

// How many events the run made.
fn run_gauged<R: Threads + Wait + Sync>(
    rt: &R,
    alloc: Global,
    world: World<SparsePager>,
    keeper: Keeper,
    script: &Script,
) -> Result<u64, RunError>
    requires { IsOpened script.now world }
{
    let (outcome, _) = run_threads_gauged(rt, alloc, world, keeper, script, &OpenGate)?;
    Ok(outcome.world.history().len() as u64)
}

fn run_plain<R: Threads + Wait + Sync>(
    rt: &R,
    alloc: Global,
    world: World<SparsePager>,
    script: &Script,
) -> Result<u64, RunError>
    requires { IsOpened script.now world }
{
    let outcome = run_threads(rt, alloc, world, script, &OpenGate)?;
    Ok(outcome.world.history().len() as u64)
}

fn unwatched(events: u64) -> Watched {
    Watched {
        events,
        readings: 0,
        went_back: 0,
    }
}

// A gauged run with the monitor on a thread of its own.
fn run_watched<R: Threads + Wait + Sync>(
    rt: &R,
    alloc: Global,
    world: World<SparsePager>,
    script: &Script,
) -> Result<Watched, NoRun>
    requires { IsOpened script.now world }
{
    let (gauge, keeper, seat) = gauge(rt, alloc, &world)?;
    let is_done = AtomicBool::new(false);
    let (watched, run) = join(
        rt,
        || watch(rt, &gauge, seat, &is_done),
        || -> Result<u64, RunError>
            requires { IsOpened script.now world }
        {
            let run = run_gauged(rt, alloc, world, keeper, script);
            is_done.store(true, Ordering::SeqCst);
            run
        },
    );
    run?;
    Ok(watched)
}

// Runs a script with threads, over one area that takes memory for the pages in it.
fn run<R: Threads + Wait + Sync>(
    rt: &R,
    alloc: Global,
    bytes: &[u8],
    company: Company,
) -> Result<Watched, NoRun> {
    let Ok(script) = read_script(alloc, bytes) else {
        return Err(NoRun::Script);
    };
    let world = start(alloc, &script)?;
    match company {
        Company::Plain => Ok(unwatched(run_plain(rt, alloc, world, &script)?)),
        Company::Gauged => {
            let (_, keeper, _) = gauge(rt, alloc, &world)?;
            Ok(unwatched(run_gauged(rt, alloc, world, keeper, &script)?))
        }
        Company::Watched => run_watched(rt, alloc, world, &script),
    }
}

// What runs in addition to the script, by the words on the command line.
fn company_of(words: &[String]) -> Option<Company> {
    match words {
        [] => Some(Company::Watched),
        [word] if word.as_str() == "gauged" => Some(Company::Gauged),
        [word] if word.as_str() == "plain" => Some(Company::Plain),
        _ => None,
    }
}

/// Runs the script on standard input. Prints the events and the readings that went back, and on standard
/// error how many readings there were.
pub(crate) fn monitor<R: Input + Print + Eprint + AllocGlobal + Threads + Wait + Sync>(
    rt: &R,
    words: &[String],
) -> Result<(), Stop> {
    let company = company_of(words).ok_or(Stop::Words)?;
    let mut script = Vec::new(rt.alloc());
    rt.reader().read_to_end(&mut script)?;
    let Watched {
        events,
        went_back,
        readings,
    } = run(rt, rt.alloc(), &script, company)?;
    println!(rt; "events {events}")?;
    println!(rt; "readings that went back {went_back}")?;
    eprintln!(rt; "readings {readings}")?;
    Ok(())
}

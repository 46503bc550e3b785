//! Single schedules: a generator draws which of the processes that can continue makes its next call.
ghost use Rattle.std.specs.Prelude.{◌≡◌, ◌<◌, ◌++◌, [], IfNone, IfOk, IfSome, OnOk};
ghost use Rattle.shm_judge.specs.Sampling.{AreSamples, IsDrawn, IsPutSample, IsSample, below, run_text, turns};
ghost use Rattle.shm_print.specs.Text.{events_text};
ghost use Rattle.shm_schedules.specs.Schedules.{fresh};

use rand::RngExt;
use rand_core::Rng;
use shm_base::{Call, Event, HostMemory};
use shm_print::event_text;
use shm_schedules::{Engine, Run, put, put_number};
use shm_text::Script;
use std::alloc::{AllocError, Global};

// A process that can continue, and its next call.
#[derive(Clone, Copy)]
pub(crate) struct Turn {
    pub pid: u32,
    pub call: Call,
}

// The processes that can continue, in the script's order.
fn turns<M: Engine>(alloc: Global, script: &Script, run: &Run<M>) -> Result<Vec<Turn>, AllocError>
    ensures { IfOk result (λ all. all.items ≡ turns script.now run.now) }
{
    let mut all = Vec::new(alloc);
    for process in &script.processes {
        let Some(call) = run.next(script, process.pid) else {
            continue;
        };
        let pid = process.pid;
        all.push(Turn { pid, call })?;
    }
    Ok(all)
}

// A number below a count, each with the same probability.
fn below<R: Rng>(rng: &mut R, count: usize) -> usize
    requires { 0 < count }
    ensures bound { result < count }
    ensures drawn { (result, R.stream rng.new) ≡ below count (R.stream rng.old) }
{
    rng.random_range(0..count)
}

// The process that continues, drawn among those that can.
fn draw<M: Engine, R: Rng>(
    alloc: Global,
    script: &Script,
    run: &Run<M>,
    rng: &mut R,
) -> Result<Option<Turn>, AllocError>
    ensures some { IfOk result (λ r. IfSome r (λ turn.
        IsDrawn (turns script.now run.now) (R.stream rng.old) turn (R.stream rng.new))) }
    ensures none { IfOk result (λ r. IfNone r (
        (turns script.now run.now ≡ []) × (R.stream rng.new ≡ R.stream rng.old))) }
{
    let turns = turns(alloc, script, run)?;
    if turns.is_empty() {
        return Ok(None);
    }
    let place = below(rng, turns.len());
    Ok(Some(turns[place]))
}

// The calls and replies of a whole schedule.
fn sample<M: Engine, R: Rng>(
    alloc: Global,
    script: &Script,
    machine: M,
    rng: &mut R,
) -> Result<Vec<Event>, HostMemory>
    requires new { M.calls machine ≡ 0 }
    ensures { IfOk result (λ events.
        IsSample script.now (fresh (M.flat machine)) (R.stream rng.old) events.items (R.stream rng.new)) }
{
    let first = Run::first(alloc, machine)?;
    let mut run = first;
    while let Some(turn) = draw(alloc, script, &run, rng)? {
        run = run.make(turn.pid, &turn.call)?;
    }
    Ok(run.into_events())
}

// Appends a run, with this number, to a text.
fn put_sample<M: Engine, R: Rng>(
    alloc: Global,
    script: &Script,
    machine: &M,
    number: u64,
    rng: &mut R,
    text: &mut Vec<u8>,
) -> Result<(), HostMemory>
    requires new { M.calls machine.now ≡ 0 }
    ensures { OnOk result (IsPutSample script.now (fresh (M.flat machine.now)) number
        (R.stream rng.old) (R.stream rng.new) text.old.items text.new.items) }
{
    let copy = machine.snapshot()?;
    let events = sample(alloc, script, copy, rng)?;
    put_run(alloc, text, number, &events)?;
    Ok(())
}

/// The text of this many runs of a script, from a machine that has made no call. In each run the
/// generator draws the process that continues among those that can, until none can. The same generator gives
/// the same runs. HostMemory: the host refused memory.
pub fn samples<M: Engine, R: Rng>(
    alloc: Global,
    script: &Script,
    machine: &M,
    count: u64,
    rng: &mut R,
) -> Result<Vec<u8>, HostMemory>
    requires new { M.calls machine.now ≡ 0 }
    ensures { IfOk result (λ text. AreSamples script.now (fresh (M.flat machine.now)) count
        (R.stream rng.old) (R.stream rng.new) text.items) }
{
    let mut text = Vec::new(alloc);
    for done in 0..count {
        put_sample(alloc, script, machine, done + 1, rng, &mut text)?;
    }
    Ok(text)
}

// Appends the lines of calls, with their places from 1.
fn put_events(alloc: Global, text: &mut Vec<u8>, events: &[Event]) -> Result<(), AllocError>
    ensures { OnOk result (text.new.items ≡ text.old.items ++ events_text 1 events.now) }
{
    let mut place = 1u64;
    for event in events {
        let line = event_text(alloc, place, event)?;
        put(text, line.as_bytes())?;
        place += 1;
    }
    Ok(())
}

// Appends a run and its number to a text.
fn put_run(
    alloc: Global,
    text: &mut Vec<u8>,
    number: u64,
    events: &[Event],
) -> Result<(), AllocError>
    ensures { OnOk result (text.new.items ≡ text.old.items ++ run_text number events.now) }
{
    put(text, b"run ")?;
    put_number(alloc, text, number)?;
    put(text, b"\n")?;
    put_events(alloc, text, events)
}

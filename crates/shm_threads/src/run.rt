//! A run with threads: it starts them, joins them, and takes out what they share.
ghost use Rattle.std.specs.Prelude.{◌≡◌, ◌≤◌, [], All, IfErr, IfOk, length, true, vec_capacity};
ghost use Rattle.shm_history.specs.Gauges.{StartsWith};
ghost use Rattle.shm_threads.specs.Asked.{rounds_of};
ghost use Rattle.shm_threads.specs.Ends.{CanEnd, CanStop};
ghost use Rattle.shm_threads.specs.Keepers.{IsKept, cell_of, stored_of, IsCaughtUp};
ghost use Rattle.shm_threads.specs.Outcomes.{IsOpened, IsOutcome};
ghost use Rattle.shm_threads.specs.Passed.{AreAllPassed};
ghost use Rattle.shm_threads.specs.Plans.{HaveRoom};
ghost use Rattle.shm_threads.specs.Running.{IsRunning};
ghost use Rattle.shm_threads.specs.Strands.{IsFresh, IsKeptAs};
ghost use Rattle.shm_threads.specs.Transcripts.{HasEntries, callers_of};

use crate::births::{ProcessState, states};
use crate::flusher::rounds;
use crate::gate::Gate;
use crate::origin::Origin;
use crate::outcome::{Outcome, RunError};
use crate::shared::{Left, Shared, transcripts_of};
use crate::start::{Refused, WorkerHandle, start_flusher, start_worker};
use crate::strand::{Strand, strands};
use crate::transcript::Transcript;
use shm_base::HostMemory;
use shm_history::{Keeper, World};
use shm_pager_core::Pager;
use shm_text::Script;
use std::alloc::Global;
use std::marker::Brand;
use std::snapshot::Snapshot;
use std::sync::Wait;
use std::thread;
use std::thread::{Scope, Threads};

/// Runs the lines of a script on the world that it opened. Each process has a worker, a thread of its own, which makes the
/// process's command lines in order, up to the last one or to its exit. Each call takes the world's lock and releases it.
/// A child's worker waits until the child is born, or until no process is left that could fork it. If the host refuses
/// memory for a call, the call is marked in the transcript, its variable becomes -1, and the worker continues. Another
/// thread, the flusher, runs the flush lines in order, and takes the lock once for each round. Nothing is claimed about the
/// order in which threads get the lock, or that a run ends: workers wait, and the gate may wait.
///
/// The clause `outcome` says:
/// - Each move of the run led to the next, from the world that was passed in to this one: the calls of the
///   transcripts, and the rounds of the flush lines, all of them and in their order.
/// - Its world has the opening that was passed in, and its areas are those that were passed in: their
///   counts of failures began there and never fell, and the bounds on these never rose.
/// - Its history is legal.
/// - It has a transcript for each process, in the script's order. A transcript follows the process's lines,
///   or is empty if the process is a child that was never born.
/// - A transcript without its marked calls is the process's part of the history. Only shmget and shmat are
///   marked.
/// - The history has no other pids, and no call of a process that was not live.
///
/// The clause `passed` says that the gate passed each call and each round: it may have answered true before it.
///
/// A run has no outcome only if the host refused memory before a worker was started, or a thread, or if the gate ended a
/// thread before a call that the script has. Of the threads that the gate ended, the error names the least pid: processes
/// with lesser pids followed all their lines. It never returns `HistoryMismatch`.
pub fn run_threads<R: Threads + Wait + Sync, G: Gate, P: Pager + Send>(
    rt: &R,
    alloc: Global,
    world: World<P>,
    script: &Script,
    gate: &G,
) -> Result<Outcome<P>, RunError>
    requires { IsOpened script.now world }
    ensures outcome { IfOk result (λ o. IsOutcome script.now world o.world o.transcripts.items) }
    ensures entries { IfOk result (λ o. All (HasEntries true) o.transcripts.items) }
    ensures passed { let answers = G.answers gate.now in
        IfOk result (λ o. AreAllPassed answers script.now o.transcripts.items) }
    ensures error { IfErr result (CanEnd (G.answers gate.now) script.now world) }
{
    let (outcome, _) = run_with(rt, alloc, world, None, script, gate, true)?;
    Ok(outcome)
}

/// Like `run_threads`, but the transcripts do not keep their entries, which takes less time: the program can ask each only
/// for the number of its calls, and whether one is marked.
pub fn run_threads_unkept<R: Threads + Wait + Sync, G: Gate, P: Pager + Send>(
    rt: &R,
    alloc: Global,
    world: World<P>,
    script: &Script,
    gate: &G,
) -> Result<Outcome<P>, RunError>
    requires { IsOpened script.now world }
    ensures outcome { IfOk result (λ o. IsOutcome script.now world o.world o.transcripts.items) }
    ensures passed { let answers = G.answers gate.now in
        IfOk result (λ o. AreAllPassed answers script.now o.transcripts.items) }
    ensures error { IfErr result (CanEnd (G.answers gate.now) script.now world) }
{
    let (outcome, _) = run_with(rt, alloc, world, None, script, gate, false)?;
    Ok(outcome)
}

/// Like `run_threads`, with a gauge. The keeper publishes in each round of the flusher, under the lock. The
/// run publishes once more when the workers have ended. So the returned keeper has stored the counts of the
/// outcome's world, unless it had stored those of more events before. It has stored what it had stored
/// before the run, and then those of the run. Without an outcome the keeper is dropped. Nothing is claimed
/// about how often the gauge changes during the run.
pub fn run_threads_gauged<R: Threads + Wait + Sync, G: Gate, P: Pager + Send>(
    rt: &R,
    alloc: Global,
    world: World<P>,
    keeper: Keeper,
    script: &Script,
    gate: &G,
) -> Result<(Outcome<P>, Keeper), RunError>
    requires { IsOpened script.now world }
    ensures outcome { IfOk result (λ r. IsOutcome script.now world r.0.world r.0.transcripts.items) }
    ensures entries { IfOk result (λ r. All (HasEntries true) r.0.transcripts.items) }
    ensures cell { IfOk result (λ r. r.1.cell ≡ keeper.cell) }
    ensures stored { IfOk result (λ r. StartsWith r.1.stored keeper.stored) }
    ensures numbers { IfOk result (λ r. IsCaughtUp r.0.world r.1.numbers) }
    ensures passed { let answers = G.answers gate.now in
        IfOk result (λ r. AreAllPassed answers script.now r.0.transcripts.items) }
    ensures error { IfErr result (CanEnd (G.answers gate.now) script.now world) }
{
    let (outcome, keeper) = run_with(rt, alloc, world, Some(keeper), script, gate, true)?;
    let mut keeper = keeper.unwrap();
    outcome.world.publish(rt, &mut keeper);
    Ok((outcome, keeper))
}

// The body of these functions, with or without a keeper. It takes all memory that the run needs, and names its origin.
fn run_with<R: Threads + Wait + Sync, G: Gate, P: Pager + Send>(
    rt: &R,
    alloc: Global,
    mut world: World<P>,
    keeper: Option<Keeper>,
    script: &Script,
    gate: &G,
    is_kept: bool,
) -> Result<(Outcome<P>, Option<Keeper>), RunError>
    requires { IsOpened script.now world }
    ensures outcome { IfOk result (λ r. IsOutcome script.now world r.0.world r.0.transcripts.items) }
    ensures entries { IfOk result (λ r. All (HasEntries is_kept) r.0.transcripts.items) }
    ensures kept { IfOk result (λ r. IsKept (cell_of keeper) (stored_of keeper) r.1) }
    ensures passed { let answers = G.answers gate.now in
        IfOk result (λ r. AreAllPassed answers script.now r.0.transcripts.items) }
    ensures error { IfErr result (CanEnd (G.answers gate.now) script.now world) }
{
    let start = match prepared(alloc, &mut world, script, is_kept) {
        Ok(start) => start,
        Err(HostMemory) => return Err(RunError::HostMemory),
    };
    run_from::<Brand, R, G, P>(rt, world, start, keeper, script, gate)
}

// A run from its start.
fn run_from<O: Origin + Send + Sync, R: Threads + Wait + Sync, G: Gate, P: Pager + Send>(
    rt: &R,
    world: World<P>,
    start: Start,
    keeper: Option<Keeper>,
    script: &Script,
    gate: &G,
) -> Result<(Outcome<P>, Option<Keeper>), RunError>
    requires script { O.script ≡ script.now }
    requires room { HaveRoom script.now.processes start.handles start.transcripts }
    requires start { O.start ≡ world }
    requires running { IsRunning O.script world world start.strands.items 0 }
    requires fresh { All (IsFresh (callers_of O.script.lines)) start.strands.items }
    requires rounds { start.rounds.items ≡ rounds_of script.now.lines }
    requires kept { IsKept O.cell O.stored keeper }
    requires gate { G.answers gate.now ≡ O.answers }
    requires kept_as { O.is_kept ≡ start.is_kept.value }
    requires entries { All (IsKeptAs O.is_kept) start.strands.items }
    ensures entries { IfOk result (λ r. All (HasEntries O.is_kept) r.0.transcripts.items) }
    ensures outcome { IfOk result (λ r. IsOutcome script.now world r.0.world r.0.transcripts.items) }
    ensures kept { IfOk result (λ r. IsKept O.cell O.stored r.1) }
    ensures passed { IfOk result (λ r. AreAllPassed O.answers script.now r.0.transcripts.items) }
    ensures error { IfErr result (CanStop O.answers script.now world) }
{
    let Start {
        strands,
        rounds,
        processes,
        handles,
        transcripts,
        is_kept: _,
    } = start;
    let count = rounds.len();
    let shared: Shared<P, O> = Shared::new(world, strands, rounds, processes, keeper);
    let refused = run_all(rt, &shared, count, script, gate, handles);
    let Left {
        world,
        strands,
        keeper,
    } = shared.finish(rt, refused, gate, &script.lines)?;
    // What the world promises: its history is legal.
    prove!({
        let _ = world.history();
        true
    });
    let transcripts = transcripts_of(strands, transcripts);
    Ok((Outcome { world, transcripts }, keeper))
}

// All memory that a run takes before its workers start, except the room in its world: a strand and a state for each
// process, the pages of the flush rounds, and empty lists with room for each worker and each transcript. Contracts also see
// whether the strands keep their entries.
#[derive(Drop)]
struct Start {
    strands: Vec<Strand>,
    rounds: Vec<u32>,
    processes: Vec<ProcessState>,
    handles: Vec<WorkerHandle>,
    transcripts: Vec<Transcript>,
    is_kept: Snapshot<bool>,
}

// The start of a run. There is room for an event of each line.
fn prepared<P: Pager>(
    alloc: Global,
    world: &mut World<P>,
    script: &Script,
    is_kept: bool,
) -> Result<Start, HostMemory>
    requires { IsOpened script.now world.old }
    ensures room { IfOk result (λ s. HaveRoom script.now.processes s.handles s.transcripts) }
    ensures running { IfOk result (λ s. IsRunning script.now world.new world.new s.strands.items 0) }
    ensures fresh { IfOk result (λ s. All (IsFresh (callers_of script.now.lines)) s.strands.items) }
    ensures kept_as { IfOk result (λ s. s.is_kept.value ≡ is_kept) }
    ensures kept { IfOk result (λ s. All (IsKeptAs is_kept) s.strands.items) }
    ensures rounds { IfOk result (λ s. s.rounds.items ≡ rounds_of script.now.lines) }
    ensures rest { IfOk result (λ _. world.new ≡ record world.old { room = world.new.room }) }
{
    // What the world promises: its history is legal, so its machine is that of the opening.
    prove!({
        let _ = world.history();
        true
    });
    let strands = strands(alloc, script, is_kept)?;
    let rounds = rounds(alloc, &script.lines)?;
    let processes = states(alloc, &script.processes)?;
    let handles = Vec::with_capacity(alloc, script.processes.len())?;
    let transcripts = Vec::with_capacity(alloc, script.processes.len())?;
    world.reserve(script.lines.len())?;
    Ok(Start {
        strands,
        rounds,
        processes,
        handles,
        transcripts,
        is_kept: Snapshot::of(&is_kept),
    })
}

// Starts the flusher and a worker for each process, and joins them all. After a refused thread it starts no other, and
// returns the refusal.
fn run_all<O: Origin + Send + Sync, R: Threads + Wait + Sync, G: Gate, P: Pager + Send>(
    rt: &R,
    shared: &Shared<P, O>,
    rounds: usize,
    script: &Script,
    gate: &G,
    handles: Vec<WorkerHandle>,
) -> Option<Refused>
    requires rounds { rounds ≡ length (rounds_of O.script.lines) }
    requires script { O.script ≡ script.now }
    requires gate { G.answers gate.now ≡ O.answers }
    requires none { handles.items ≡ [] }
    requires room { length script.now.processes ≤ vec_capacity handles }
{
    thread::scope(
        thread::scope_env(),
        rt,
        move |scope| -> Option<Refused>
            requires rounds { rounds ≡ length (rounds_of O.script.lines) }
            requires script { O.script ≡ script.now }
            requires gate { G.answers gate.now ≡ O.answers }
            requires none { handles.items ≡ [] }
            requires room { length script.now.processes ≤ vec_capacity handles }
        {
            let flusher = match start_flusher(scope, rt, shared, gate, rounds) {
                Ok(flusher) => flusher,
                Err(refused) => return Some(refused),
            };
            let (handles, refused) = start_all(scope, rt, shared, script, gate, handles);
            flusher.join(rt);
            for handle in handles {
                handle.join(rt);
            }
            refused
        },
    )
}

// Starts a worker for each process until a thread is refused, and returns that refusal. The list has room for each. The
// processes without a worker have left.
fn start_all<'s, E, O: Origin + Send + Sync, R: Threads + Wait + Sync, G: Gate, P: Pager + Send>(
    scope: &Scope<'s, E>,
    rt: &'s R,
    shared: &'s Shared<P, O>,
    script: &'s Script,
    gate: &'s G,
    mut handles: Vec<WorkerHandle>,
) -> (Vec<WorkerHandle>, Option<Refused>)
    requires script { O.script ≡ script.now }
    requires gate { G.answers gate.now ≡ O.answers }
    requires none { handles.items ≡ [] }
    requires room { length script.now.processes ≤ vec_capacity handles }
{
    let Script {
        processes,
        lines,
        ..
    } = script;
    for index in 0..processes.len() {
        let pid = processes[index].pid;
        match start_worker(scope, rt, shared, gate, index, pid, lines) {
            Ok(handle) => handles.push_reserved(handle),
            Err(refused) => {
                for process in &processes[index..] {
                    shared.end(rt, process.pid);
                }
                return (handles, Some(refused));
            }
        }
    }
    (handles, None)
}

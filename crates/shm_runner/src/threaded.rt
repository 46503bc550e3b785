//! A run with threads: reads a script, runs each of its processes in its own thread, and writes their history.
ghost use Rattle.std.specs.Prelude.{◌≡◌, ◌⊎◌, ℕ, List, [], true, false, length, map, OnOk, IfErr};
ghost use Rattle.std.specs.Io.KnownBytes.{Appends};
ghost use Rattle.shm_slots.specs.View.{AreCountsOf};
ghost use Rattle.shm_program.specs.Runs.{IsCauseIn, IsFresh, IsOpening, IsWritten, handed_in};
ghost use Rattle.shm_laws.specs.Worlds.{IsWorldSound};
ghost use Rattle.shm_runner.specs.Faults.{CanFail};
ghost use Rattle.shm_runner.specs.Output.{world_text};
ghost use Rattle.shm_runner.specs.Marks.{have_mark};
ghost use Rattle.shm_runner.specs.Threaded.{IsAnyOutput, IsThreadedOutput, IsThreadedRun, IsAllOrNothing};

use crate::fault::run_fault;
use crate::world::write_world;
use shm_history::World;
use shm_laws::lawful;
use shm_pager_core::Pager;
use shm_program::{RunFault, open_world, whole_script};
use shm_text::Script;
use shm_threads::{OpenGate, Outcome, Transcript, run_threads_unkept};
use std::alloc::Global;
use std::io::{Read, Write};
use std::sync::Wait;
use std::thread::Threads;

/// Reads a script, runs it over swap areas with these pagers, each process in its own thread, and writes an
/// event line for each call in the order of the history, the listing of the segments, and the usage. The
/// whole output is made before its first byte is written. At every fault except `WriteFailed` nothing is
/// written, with one exception: if the host refused memory to a call of the run, the whole output is written
/// and the result is `HostMemory`; that call is not in the history. Faults are found in this order: reading,
/// script, start, run, writing. Nothing is claimed about the order of calls of different processes, or that a
/// run ends: its threads wait for each other.
pub fn run_threaded<T: Threads + Wait + Sync, R: Read, W: Write, P: Pager + Send>(
    rt: &T,
    alloc: Global,
    reader: &mut R,
    writer: &mut W,
    pagers: Vec<P>,
) -> Result<(), RunFault>
    ensures { let swap = handed_in P.content P.failed P.most P.calls pagers.items in
        let ended = IsThreadedRun P.failed swap result (R.remaining reader.old) (R.remaining reader.new) in
        ended (W.contents writer.old) (W.contents writer.new) (map (λ p. length (P.content p)) pagers.items) }
{
    match whole_script(alloc, reader) {
        Ok(script) => run_script(rt, alloc, writer, &script, pagers),
        Err(fault) => Err(fault),
    }
}

// Runs a script, and writes its output.
fn run_script<T: Threads + Wait + Sync, W: Write, P: Pager + Send>(
    rt: &T,
    alloc: Global,
    writer: &mut W,
    script: &Script,
    pagers: Vec<P>,
) -> Result<(), RunFault>
    ensures ok { let swap = handed_in P.content P.failed P.most P.calls pagers.items in
        let text = IsThreadedOutput P.failed swap false script.now in
        let areas = map (λ p. length (P.content p)) pagers.items in
        OnOk result (IsWritten (text areas) (W.contents writer.old) (W.contents writer.new)) }
    ensures cause { IfErr result
        (λ f. IsCauseIn f (map (λ p. length (P.content p)) pagers.items) script.now) }
    ensures ended { IfErr result CanFail }
    ensures written { let swap = handed_in P.content P.failed P.most P.calls pagers.items in
        let text = IsThreadedOutput P.failed swap true script.now in
        let areas = map (λ p. length (P.content p)) pagers.items in
        let marked = IsWritten (text areas) (W.contents writer.old) (W.contents writer.new) in
        let any = IsAnyOutput P.failed swap script.now areas in
        IfErr result (λ f. IsAllOrNothing any f (W.contents writer.old) (W.contents writer.new) marked) }
{
    match open_world(alloc, script, pagers) {
        Ok(world) => run_in(rt, alloc, writer, world, script),
        Err(fault) => Err(fault),
    }
}

// Runs a script in a world that it opened, and writes its output.
fn run_in<T: Threads + Wait + Sync, W: Write, P: Pager + Send>(
    rt: &T,
    alloc: Global,
    writer: &mut W,
    world: World<P>,
    script: &Script,
) -> Result<(), RunFault>
    requires opened { IsOpening script.now world.opening }
    requires events { world.events ≡ [] }
    requires memory { IsFresh world.memory.swap world.memory }
    ensures ok { let areas = world.opening.areas in
        let text = IsThreadedOutput P.failed world.memory.swap false script.now areas in
        OnOk result (IsWritten text (W.contents writer.old) (W.contents writer.new)) }
    ensures cause { IfErr result (λ f. IsCauseIn f world.opening.areas script.now) }
    ensures ended { IfErr result CanFail }
    ensures written { let areas = world.opening.areas in
        let text = IsThreadedOutput P.failed world.memory.swap true script.now areas in
        let marked = IsWritten text (W.contents writer.old) (W.contents writer.new) in
        let any = IsAnyOutput P.failed world.memory.swap script.now areas in
        IfErr result (λ f. IsAllOrNothing any f (W.contents writer.old) (W.contents writer.new) marked) }
{
    // Calling this tells the proof that the laws hold for the world at the start.
    let _sound = lawful(&world);
    match run_threads_unkept(rt, alloc, world, script, &OpenGate) {
        Ok(outcome) => write_outcome(alloc, writer, &outcome),
        Err(error) => Err(run_fault(error)),
    }
}

/// Writes the output of a run with threads as `run_threaded` does, for a run with another gate or world. The whole text is
/// made before its first byte is written. It fails with `WriteFailed` if the writer fails, and with `HostMemory` before the
/// first byte, or after the last one if the host refused memory to a call of the run.
pub fn write_outcome<W: Write, P: Pager>(
    alloc: Global,
    writer: &mut W,
    outcome: &Outcome<P>,
) -> Result<(), RunFault>
    ensures ok { let text = world_text outcome.now.world in
        let appended = Appends (W.contents writer.old) (W.contents writer.new) text in
        OnOk result ((have_mark outcome.now.transcripts.items ≡ false) × appended) }
    ensures sound { IsWorldSound outcome.now.world }
    ensures counted { AreCountsOf P.failed outcome.now.world.memory.swap }
    ensures fault { IfErr result (λ f. (f ≡ RunFault.HostMemory) ⊎ (f ≡ RunFault.WriteFailed)) }
    ensures written { let text = world_text outcome.now.world in
        let appended = Appends (W.contents writer.old) (W.contents writer.new) text in
        let marked = (have_mark outcome.now.transcripts.items ≡ true) × appended in
        let is = λ (written : List ℕ). written ≡ text in
        IfErr result (λ f. IsAllOrNothing is f (W.contents writer.old) (W.contents writer.new) marked) }
{
    write_world(alloc, writer, &outcome.world)?;
    if have_mark(&outcome.transcripts) {
        return Err(RunFault::HostMemory);
    }
    Ok(())
}

// Whether a call of the run was out of memory.
fn have_mark(transcripts: &[Transcript]) -> bool
    ensures { result ≡ have_mark transcripts.now }
{
    transcripts
        .iter()
        .any(|transcript| transcript.entries.has_mark())
}

//! The viewer's run: reads a script, runs its lines in file order, and writes the record of each step.
ghost use Rattle.std.specs.Prelude.{◌≡◌, ◌⊎◌, ◌≤◌, ℕ, List, [], length, map, None, OnOk, IfErr, MatchOption};
ghost use Rattle.std.specs.Io.KnownBytes.{Appends};
ghost use Rattle.shm_program.specs.Runs.{IsWritten, IsOpening, IsFresh, handed_in};
ghost use Rattle.shmview.specs.Record.{IsRecord};
ghost use Rattle.shmview.specs.Runs.{IsView};
ghost use Rattle.shmview.specs.Stop.{IsStopIn, IsTooLong, WritesNothing};

use crate::lines::record;
use crate::steps::{MOST_STEPS, Steps};
use crate::stop::Stop;
use shm_base::HostMemory;
use shm_history::World;
use shm_pager_core::Pager;
use shm_program::{RunFault, open_world, whole_script, write_output};
use shm_text::Script;
use std::alloc::Global;
use std::io::{Read, Write};

/// Reads a script, runs it over swap areas with these pagers, and writes the record of each chosen step.
/// Without chosen steps it writes all, and the script may have at most 2,000 lines. It makes the whole output
/// before it writes the first byte, so it writes nothing unless the writer fails. It stops for the same
/// reasons as a serial run, and if there are too many steps, which it tests after it has read the script.
pub(crate) fn view<R: Read, W: Write, P: Pager>(
    alloc: Global,
    reader: &mut R,
    writer: &mut W,
    pagers: Vec<P>,
    asked: Option<Steps>,
) -> Result<(), Stop>
    ensures { let swap = handed_in P.content P.failed P.most P.calls pagers.items in
        let ended = IsView swap asked result (R.remaining reader.old) (R.remaining reader.new) in
        ended (W.contents writer.old) (W.contents writer.new) (map (λ p. length (P.content p)) pagers.items) }
{
    match whole_script(alloc, reader) {
        Ok(script) => view_script(alloc, writer, &script, pagers, asked),
        Err(fault) => Err(Stop::Fault(fault)),
    }
}

// The number of lines, if they are too many to show and no steps are chosen.
fn too_many(script: &Script, asked: Option<Steps>) -> Option<u64>
    ensures { MatchOption result (asked ≡ None → length script.now.lines ≤ 2000)
        (IsTooLong asked script.now) }
{
    let lines = script.lines.len() as u64;
    if asked.is_none() && lines > MOST_STEPS {
        Some(lines)
    } else {
        None
    }
}

// Runs a script, and writes the record of its run.
fn view_script<W: Write, P: Pager>(
    alloc: Global,
    writer: &mut W,
    script: &Script,
    pagers: Vec<P>,
    asked: Option<Steps>,
) -> Result<(), Stop>
    ensures ok { let text = IsRecord (handed_in P.content P.failed P.most P.calls pagers.items) asked in
        let areas = map (λ p. length (P.content p)) pagers.items in
        OnOk result (IsWritten (text script.now areas) (W.contents writer.old) (W.contents writer.new)) }
    ensures cause { IfErr result
        (λ s. IsStopIn s asked (map (λ p. length (P.content p)) pagers.items) script.now) }
    ensures silent { let areas = map (λ p. length (P.content p)) pagers.items in
        let text = IsRecord (handed_in P.content P.failed P.most P.calls pagers.items) asked script.now areas in
        IfErr result (λ s. WritesNothing text s (W.contents writer.old) (W.contents writer.new)) }
{
    if let Some(lines) = too_many(script, asked) {
        return Err(Stop::TooLong(lines));
    }
    match open_world(alloc, script, pagers) {
        Ok(mut world) => view_in(alloc, writer, &mut world, script, asked),
        Err(fault) => Err(Stop::Fault(fault)),
    }
}

// Runs a script in the world that it opened, and writes the record of its run.
fn view_in<W: Write, P: Pager>(
    alloc: Global,
    writer: &mut W,
    world: &mut World<P>,
    script: &Script,
    asked: Option<Steps>,
) -> Result<(), Stop>
    requires events { world.old.events ≡ [] }
    requires opened { IsOpening script.now world.old.opening }
    requires memory { IsFresh world.old.memory.swap world.old.memory }
    requires few { asked ≡ None → length script.now.lines ≤ 2000 }
    ensures ok { let text = IsRecord world.old.memory.swap asked script.now world.old.opening.areas in
        OnOk result (IsWritten text (W.contents writer.old) (W.contents writer.new)) }
    ensures fault { IfErr result
        (λ s. (s ≡ Stop.Fault RunFault.HostMemory) ⊎ (s ≡ Stop.Fault RunFault.WriteFailed)) }
    ensures silent { let text = IsRecord world.old.memory.swap asked script.now world.old.opening.areas in
        IfErr result (λ s. WritesNothing text s (W.contents writer.old) (W.contents writer.new)) }
{
    match record(alloc, asked, world, script) {
        Ok(text) => write_text(writer, text.as_bytes()),
        Err(HostMemory) => Err(Stop::Fault(RunFault::HostMemory)),
    }
}

fn write_text<W: Write>(writer: &mut W, text: &[u8]) -> Result<(), Stop>
    ensures ok { OnOk result (Appends (W.contents writer.old) (W.contents writer.new) text.now) }
    ensures fault { IfErr result (λ s. s ≡ Stop.Fault RunFault.WriteFailed) }
    ensures silent { let is = λ (written : List ℕ). written ≡ text.now in
        IfErr result (λ s. WritesNothing is s (W.contents writer.old) (W.contents writer.new)) }
{
    match write_output(writer, text) {
        Ok(()) => Ok(()),
        Err(_) => Err(Stop::Fault(RunFault::WriteFailed)),
    }
}

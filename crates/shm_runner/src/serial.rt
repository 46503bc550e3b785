//! A serial run: reads a script, runs its lines in file order, and writes the replies.
ghost use Rattle.std.specs.Prelude.{◌≡◌, ◌⊎◌, List, [], length, true, map, OnOk, IfErr};
ghost use Rattle.std.specs.Io.KnownBytes.{IsAtEnd};
ghost use Rattle.shm_history.specs.WorldState.{WorldState};
ghost use Rattle.shm_laws.specs.Worlds.{IsWorldSound};
ghost use Rattle.shm_program.specs.Running.{HaveRun, IsRunOf, IsStart, RunStep};
ghost use Rattle.shm_program.specs.Runs.{Prints, IsWritten, IsCause, IsCauseIn, is_serial, IsSilent};
ghost use Rattle.shm_program.specs.Runs.{IsTextFor, IsOpening, IsFresh, handed_in};
ghost use Rattle.shm_runner.specs.Output.{IsOutput};

use crate::world::write_world;
use shm_base::HostMemory;
use shm_history::World;
use shm_laws::lawful;
use shm_pager_core::Pager;
use shm_program::{RunFault, Values, open_world, run_line, whole_script};
use shm_text::{Line, Script};
use std::alloc::Global;
use std::io::{Read, Write};

/// Reads a script, runs it over swap areas with these pagers, and writes an event line for each command line,
/// the listing of the segments, and the usage. The whole output is made before its first byte is written, so
/// nothing is written at any fault except `WriteFailed`, which may leave a beginning of the output. Faults
/// are found in this order: reading, script, start, run, writing. With pagers that never fail, such as
/// `RamPager` of shm_pager, the event lines and the listing are those of the flat machine, whatever was paged
/// out.
pub fn run_serial<R: Read, W: Write, P: Pager>(
    alloc: Global,
    reader: &mut R,
    writer: &mut W,
    pagers: Vec<P>,
) -> Result<(), RunFault>
    ensures ok { let text = IsOutput P.failed (handed_in P.content P.failed P.most P.calls pagers.items) in
        let areas = map (λ p. length (P.content p)) pagers.items in
        OnOk result (Prints text (W.contents writer.old) (W.contents writer.new) areas (R.remaining reader.old)) }
    ensures whole { OnOk result (IsAtEnd (R.remaining reader.new)) }
    ensures cause { let areas = map (λ p. length (P.content p)) pagers.items in
        IfErr result (λ f. IsCause f areas (R.remaining reader.old)) }
    ensures serial { IfErr result (λ f. is_serial f ≡ true) }
    ensures silent { let output = IsOutput P.failed (handed_in P.content P.failed P.most P.calls pagers.items) in
        let text = IsTextFor output (map (λ p. length (P.content p)) pagers.items) (R.remaining reader.old) in
        IfErr result (λ f. IsSilent text f (W.contents writer.old) (W.contents writer.new)) }
{
    match whole_script(alloc, reader) {
        Ok(script) => run_script(alloc, writer, script, pagers),
        Err(fault) => Err(fault),
    }
}

// Runs a script, and writes its output.
fn run_script<W: Write, P: Pager>(
    alloc: Global,
    writer: &mut W,
    script: Script,
    pagers: Vec<P>,
) -> Result<(), RunFault>
    ensures ok { let text = IsOutput P.failed (handed_in P.content P.failed P.most P.calls pagers.items) in
        let areas = map (λ p. length (P.content p)) pagers.items in
        OnOk result (IsWritten (text script areas) (W.contents writer.old) (W.contents writer.new)) }
    ensures cause { IfErr result (λ f. IsCauseIn f (map (λ p. length (P.content p)) pagers.items) script) }
    ensures serial { IfErr result (λ f. is_serial f ≡ true) }
    ensures silent { let text = IsOutput P.failed (handed_in P.content P.failed P.most P.calls pagers.items) script in
        let is = text (map (λ p. length (P.content p)) pagers.items) in
        IfErr result (λ f. IsSilent is f (W.contents writer.old) (W.contents writer.new)) }
{
    match open_world(alloc, &script, pagers) {
        Ok(mut world) => run_in(alloc, writer, &mut world, script),
        Err(fault) => Err(fault),
    }
}

// Runs a script in a world that it opened, and writes its output. The script's memory is freed before that.
fn run_in<W: Write, P: Pager>(
    alloc: Global,
    writer: &mut W,
    world: &mut World<P>,
    script: Script,
) -> Result<(), RunFault>
    requires events { world.old.events ≡ [] }
    requires opened { IsOpening script world.old.opening }
    requires memory { IsFresh world.old.memory.swap world.old.memory }
    ensures ok { let text = IsOutput P.failed world.old.memory.swap script world.old.opening.areas in
        OnOk result (IsWritten text (W.contents writer.old) (W.contents writer.new)) }
    ensures fault { IfErr result (λ f. (f ≡ RunFault.HostMemory) ⊎ (f ≡ RunFault.WriteFailed)) }
    ensures silent { let text = IsOutput P.failed world.old.memory.swap script world.old.opening.areas in
        IfErr result (λ f. IsSilent text f (W.contents writer.old) (W.contents writer.new)) }
{
    // Calling this tells the proof that the laws hold for the world at the start.
    let _sound = lawful(world);
    match run_lines(alloc, world, script) {
        Ok(()) => write_world(alloc, writer, world),
        Err(HostMemory) => Err(RunFault::HostMemory),
    }
}

// Runs the lines of a script in file order, in the world that it opened, and frees the script. It stops at the
// first line that is out of memory.
fn run_lines<P: Pager>(
    alloc: Global,
    world: &mut World<P>,
    script: Script,
) -> Result<(), HostMemory>
    requires { let areas = world.old.opening.areas in
        IsStart IsWorldSound world.old.memory.swap script areas world.old }
    ensures { let areas = world.old.opening.areas in
        let is_run = IsRunOf IsWorldSound world.old.memory.swap script areas in
        OnOk result ((start : WorldState) × (steps : List RunStep) × is_run start steps world.new) }
{
    let mut values = Values::new(alloc, &script.processes)?;
    world.reserve(script.lines.len())?;
    run_each(world, &mut values, &script.lines)
}

// Runs lines in order. It stops at the first that is out of memory.
fn run_each<P: Pager>(
    world: &mut World<P>,
    values: &mut Values,
    lines: &[Line],
) -> Result<(), HostMemory>
    ensures { OnOk result
        ((steps : List RunStep) × HaveRun values.old world.old lines.now steps values.new world.new) }
{
    for line in lines {
        let _action = run_line(world, values, line)?;
    }
    Ok(())
}

//! Runs the lines of a script, and appends the record of each step to a text.
ghost use Rattle.std.specs.Prelude.{◌≡◌, ◌≤◌, ◌++◌, List, [], None, length, map};
ghost use Rattle.std.specs.Prelude.{All, IfOk, OnOk, string_bytes};
ghost use Rattle.shm_laws.specs.Worlds.{IsWorldSound};
ghost use Rattle.shm_program.specs.Running.{HaveRun, RunStep};
ghost use Rattle.shm_program.specs.Values.{HolderView, fresh_holder};
ghost use Rattle.shm_program.specs.Runs.{IsOpening, IsFresh};
ghost use Rattle.shmview.specs.Record.{IsRecord, IsStepSound, shown_text, steps_text};

use crate::steps::Steps;
use shm_base::HostMemory;
use shm_history::World;
use shm_laws::lawful;
use shm_pager_core::Pager;
use shm_program::{Action, Values, push_step, run_line};
use shm_text::Script;
use std::alloc::Global;

// Appends the record of a step to a text, if the step is to be shown.
fn push_shown<P: Pager>(
    alloc: Global,
    text: &mut String,
    steps: Steps,
    number: u64,
    action: &Action,
    world: &World<P>,
) -> Result<(), HostMemory>
    ensures text { OnOk result
        (string_bytes text.new ≡ string_bytes text.old ++ shown_text steps number action.now world.now) }
    ensures sound { IsWorldSound world.now }
{
    // Calling this tells the proof that the laws hold for each world that is shown.
    let _sound = lawful(world);
    if steps.is_among(number) {
        push_step(alloc, text, number, action, world)?;
    }
    Ok(())
}

// Runs the lines of a script in file order, and appends the records of their steps to a text.
fn push_lines<P: Pager>(
    alloc: Global,
    text: &mut String,
    steps: Steps,
    world: &mut World<P>,
    script: &Script,
) -> Result<(), HostMemory>
    ensures { let fresh = map fresh_holder script.now.processes in
        OnOk result
        ((ran : List RunStep)
        × (later : List HolderView)
        × HaveRun fresh world.old script.now.lines ran later world.new
        × All IsStepSound ran
        × (string_bytes text.new ≡ string_bytes text.old ++ steps_text steps 1 ran)) }
{
    let mut values = Values::new(alloc, &script.processes)?;
    let mut number = 1u64;
    for line in &script.lines {
        let action = run_line(world, &mut values, line)?;
        push_shown(alloc, text, steps, number, &action, world)?;
        number += 1;
    }
    Ok(())
}

/// The record of a script's run in the world that it opened: the world at the start, and each step.
pub(crate) fn record<P: Pager>(
    alloc: Global,
    asked: Option<Steps>,
    world: &mut World<P>,
    script: &Script,
) -> Result<String, HostMemory>
    requires events { world.old.events ≡ [] }
    requires opened { IsOpening script.now world.old.opening }
    requires memory { IsFresh world.old.memory.swap world.old.memory }
    requires few { asked ≡ None → length script.now.lines ≤ 2000 }
    ensures { let is = IsRecord world.old.memory.swap asked script.now world.old.opening.areas in
        IfOk result (λ text. is (string_bytes text)) }
{
    let steps = Steps::asked(asked);
    let mut text = String::new(alloc);
    push_shown(alloc, &mut text, steps, 0, &Action::Start, world)?;
    push_lines(alloc, &mut text, steps, world, script)?;
    Ok(text)
}

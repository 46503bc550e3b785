//! The record of one step.
ghost use Rattle.std.specs.Prelude.{◌≡◌, ◌++◌, OnOk, string_bytes};
ghost use Rattle.shm_program.specs.Record.{counts_text, machine_text, memory_text, step_text};

use crate::action::{Action, push_action};
use crate::counts::usage;
use crate::lines::listing;
use crate::memory::{push_areas, push_frames};
use crate::processes::push_processes;
use shm_fault::PageStore;
use shm_history::World;
use shm_pager_core::Pager;
use std::alloc::{AllocError, Global};

// Appends the segments and the processes to a text.
#[tactic(auto, unfolding(crate::specs::Record::machine_text))]
fn push_machine<P: Pager>(
    alloc: Global,
    text: &mut String,
    world: &World<P>,
) -> Result<(), AllocError>
    ensures { OnOk result (string_bytes text.new ≡ string_bytes text.old ++ machine_text world.now) }
{
    text.push_str(&listing(alloc, world)?)?;
    push_processes(text, world.system().spaces(), &world.opening().processes)
}

// Appends the frames and the swap areas to a text.
#[tactic(auto, unfolding(crate::specs::Record::memory_text))]
fn push_memory<P: Pager>(text: &mut String, store: &PageStore<P>) -> Result<(), AllocError>
    ensures { OnOk result (string_bytes text.new ≡ string_bytes text.old ++ memory_text store.now) }
{
    push_frames(text, store)?;
    push_areas(text, store.swap())
}

// Appends the counts to a text.
#[tactic(auto, unfolding(crate::specs::Record::counts_text))]
fn push_counts<P: Pager>(
    alloc: Global,
    text: &mut String,
    world: &World<P>,
) -> Result<(), AllocError>
    ensures { OnOk result (string_bytes text.new ≡ string_bytes text.old ++ counts_text world.now) }
{
    text.push_str(&usage(alloc, world)?)
}

/// Appends the record of a step to a text: its number, its action, and the world after it. These are the
/// segments of the listing, the processes with their pieces, the frames, the swap areas and the counts. Each
/// line begins with a word that names its subject. AllocError: the host refused memory, and the text may end
/// with a part of the record.
pub fn push_step<P: Pager>(
    alloc: Global,
    text: &mut String,
    number: u64,
    action: &Action,
    world: &World<P>,
) -> Result<(), AllocError>
    ensures { OnOk result
        (string_bytes text.new ≡ string_bytes text.old ++ step_text number action.now world.now) }
{
    write!(text, "step {number}\n")?;
    push_action(text, world.history().len() as u64, action)?;
    push_machine(alloc, text, world)?;
    push_memory(text, world.system().store())?;
    push_counts(alloc, text, world)?;
    text.push_str("\n")
}

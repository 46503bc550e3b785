//! Writes the text of a world.
ghost use Rattle.std.specs.Prelude.{◌≡◌, ◌+◌, ◌^◌, ◌<◌, length, IfOk, string_bytes};
ghost use Rattle.shm_print.specs.Text.{events_text};
ghost use Rattle.shm_slots.specs.View.{AreCountsOf};
ghost use Rattle.shm_laws.specs.Worlds.{IsWorldSound};
ghost use Rattle.shm_runner.specs.Output.{IsWorldWritten, world_text};

use shm_base::Event;
use shm_history::World;
use shm_laws::lawful;
use shm_pager_core::Pager;
use shm_print::push_event;
use shm_program::{RunFault, listing, usage, write_output};
use std::alloc::{AllocError, Global};
use std::io::Write;

// The bytes that most lines of events have at most.
const LINE_BYTES: usize = 64;

// The lines of a history. Room for them is reserved at once, so that the text is seldom copied while it grows. The host
// lends only the used part.
fn lines(alloc: Global, events: &[Event]) -> Result<String, AllocError>
    requires { 1 + length events.now < 2 ^ 64 }
    ensures { IfOk result (λ text. string_bytes text ≡ events_text 1 events.now) }
{
    let mut text = String::with_capacity(alloc, events.len().saturating_mul(LINE_BYTES))?;
    let mut place = 1;
    for event in events {
        push_event(&mut text, place, event)?;
        place += 1;
    }
    Ok(text)
}

// The text of a world: its event lines, the listing of its segments, and its usage.
fn world_text<P: Pager>(alloc: Global, world: &World<P>) -> Result<String, AllocError>
    ensures text { IfOk result (λ text. string_bytes text ≡ world_text world.now) }
    ensures sound { IsWorldSound world.now }
    ensures counted { AreCountsOf P.failed world.now.memory.swap }
{
    let history = lawful(world);
    let counts = usage(alloc, world)?;
    let mut text = lines(alloc, history)?;
    text.push_str(&listing(alloc, world)?)?;
    text.push_str(&counts)?;
    Ok(text)
}

/// Writes the text of a world. The whole text is made before its first byte is written.
pub(crate) fn write_world<W: Write, P: Pager>(
    alloc: Global,
    writer: &mut W,
    world: &World<P>,
) -> Result<(), RunFault>
    ensures { let old = W.contents writer.old in
        IsWorldWritten P.failed world.now result old (W.contents writer.new) }
{
    let text = world_text(alloc, world)?;
    write_output(writer, text.as_bytes())?;
    Ok(())
}

//! The usage: the counts of a machine, in three lines.
ghost use Rattle.std.specs.Prelude.{◌≡◌, IfOk, string_bytes};
ghost use Rattle.shm_print.specs.Usage as usage;

use shm_base::Tally;
use std::alloc::{AllocError, Global};

fn counts_line(alloc: Global, tally: &Tally) -> Result<String, AllocError>
    ensures { IfOk result (λ s. string_bytes s ≡ usage.counts_line tally.now) }
{
    let (events, segments) = (tally.events, tally.segments);
    let (reserved, locked) = (tally.reserved, tally.locked);
    format!(in alloc;
        "usage events {events} segments {segments} reserved {reserved} locked {locked}\n"
    )
}

fn memory_line(alloc: Global, tally: &Tally) -> Result<String, AllocError>
    ensures { IfOk result (λ s. string_bytes s ≡ usage.memory_line tally.now) }
{
    let (resident, frames, dirty) = (tally.resident, tally.frames, tally.dirty);
    let (used, slots) = (tally.used, tally.slots);
    format!(in alloc; "usage frames {resident}/{frames} dirty {dirty} slots {used}/{slots}\n")
}

fn moves_line(alloc: Global, tally: &Tally) -> Result<String, AllocError>
    ensures { IfOk result (λ s. string_bytes s ≡ usage.moves_line tally.now) }
{
    let (ins, outs, failures) = (tally.ins, tally.outs, tally.failures);
    format!(in alloc; "usage in {ins} out {outs} failures {failures}\n")
}

/// Three lines of counts: events, segments and their pages; frames and slots, each with how many are in use;
/// pager reads, pager writes and pager failures. AllocError: the host refused memory.
pub fn usage_text(alloc: Global, tally: &Tally) -> Result<String, AllocError>
    ensures { IfOk result (λ s. string_bytes s ≡ usage.usage_text tally.now) }
{
    let counts = counts_line(alloc, tally)?;
    let memory = memory_line(alloc, tally)?;
    let moves = moves_line(alloc, tally)?;
    format!(in alloc; "{counts}{memory}{moves}")
}

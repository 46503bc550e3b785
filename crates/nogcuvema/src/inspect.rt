//! Flush rounds, and what can be read of a machine without a call.
ghost use Rattle.std.specs.Prelude.{◌≡◌, ◌≢◌, length};
ghost use Rattle.shm_life.specs.Counts.{Counts};
ghost use Rattle.nogcuvema.specs.Shown.{tally_by, report_by};
ghost use Rattle.nogcuvema.specs.Reads.{Reads, AnswersSegment, FlushedTo};

use crate::code::{DONE, OUT_OF_RANGE};
use crate::handle::{Handle, with_machine};
use crate::structs::{NogFlushed, NogSegment, NogTally};
use std::alloc::Global;

/// Writes the first `pages` dirty frames of segments that are not locked to their slots. Not counted as a
/// call.
#[unsafe(no_mangle)]
pub extern "C" fn nog_flush(
    alloc: Global,
    handle: &mut Handle,
    pages: u64,
    flushed: &mut NogFlushed,
) -> u32
    ensures machine { FlushedTo handle.old.kept.value pages (report_by flushed.new) result
        handle.new.kept.value }
    ensures flushed { result ≢ 0 → flushed.new ≡ flushed.old }
{
    with_machine!(alloc, handle, |machine| {
        *flushed = NogFlushed::of(&machine.system.flush(pages));
        DONE
    })
}

/// The counts of the machine.
#[unsafe(no_mangle)]
pub extern "C" fn nog_tally_of(alloc: Global, handle: &mut Handle, tally: &mut NogTally) -> u32
    ensures machine { Reads handle.old.kept.value
        (λ m. Counts m.system.calls m.system.machine m.system.memory (tally_by tally.new))
        result handle.new.kept.value }
    ensures tally { result ≢ 0 → tally.new ≡ tally.old }
{
    with_machine!(alloc, handle, |machine| {
        *tally = NogTally::of(&machine.system.tally());
        DONE
    })
}

/// How many indexes of the table of segments were ever used.
#[unsafe(no_mangle)]
pub extern "C" fn nog_indexes(alloc: Global, handle: &mut Handle, indexes: &mut u32) -> u32
    ensures machine { Reads handle.old.kept.value (λ m. indexes.new ≡ length m.system.machine.table)
        result handle.new.kept.value }
    ensures indexes { result ≢ 0 → indexes.new ≡ indexes.old }
{
    with_machine!(alloc, handle, |machine| {
        *indexes = machine.system.indexes();
        DONE
    })
}

/// The number of calls so far.
#[unsafe(no_mangle)]
pub extern "C" fn nog_calls(alloc: Global, handle: &mut Handle, calls: &mut u64) -> u32
    ensures machine { Reads handle.old.kept.value (λ m. calls.new ≡ m.system.calls)
        result handle.new.kept.value }
    ensures calls { result ≢ 0 → calls.new ≡ calls.old }
{
    with_machine!(alloc, handle, |machine| {
        *calls = machine.system.calls();
        DONE
    })
}

/// The segment at an index of the table, as `stat` shows it, without a permission test. Out of range: the
/// index has no segment.
#[unsafe(no_mangle)]
pub extern "C" fn nog_segment_at(
    alloc: Global,
    handle: &mut Handle,
    index: u32,
    segment: &mut NogSegment,
) -> u32
    ensures machine { AnswersSegment handle.old.kept.value index segment.new result handle.new.kept.value }
    ensures segment { result ≢ 0 → segment.new ≡ segment.old }
{
    with_machine!(
        alloc,
        handle,
        |machine| match machine.system.segment(index) {
            Some((id, shown)) => {
                *segment = NogSegment::of(id, index, &shown);
                DONE
            }
            None => OUT_OF_RANGE,
        }
    )
}

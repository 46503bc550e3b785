//! The view that the words ask for.
ghost use Rattle.std.specs.Prelude.{Some, map, string_bytes};
ghost use Rattle.shmview.specs.Runs.{IsAsked};
ghost use Rattle.shmview.specs.Words.{asked_of, request_of};

use crate::command::{Asked, read_words};
use crate::stop::Stop;
use crate::view::view;
use shm_base::HostMemory;
use shm_program::{RunFault, areas_of};
use std::alloc::Global;
use std::io::{Read, Write};

/// Does what the words of the command line ask for: runs the script that the reader gives, over the swap areas that
/// they name, and writes the record of each chosen step. Other words are a usage error.
pub(crate) fn run_words<R: Read, W: Write>(
    alloc: Global,
    words: &[String],
    reader: &mut R,
    writer: &mut W,
) -> Result<(), Stop>
    ensures { let done = IsAsked (asked_of (map string_bytes words.now)) result in
        let run = done (R.remaining reader.old) (R.remaining reader.new) in
        run (W.contents writer.old) (W.contents writer.new) }
{
    let asked = read_words(alloc, words)?;
    run_asked(alloc, reader, writer, &asked)
}

// Runs the script that the reader gives over the swap areas, and writes the chosen steps.
fn run_asked<R: Read, W: Write>(
    alloc: Global,
    reader: &mut R,
    writer: &mut W,
    asked: &Asked,
) -> Result<(), Stop>
    ensures { let done = IsAsked (Some (request_of asked.now.steps asked.now.swaps.items)) result in
        let run = done (R.remaining reader.old) (R.remaining reader.new) in
        run (W.contents writer.old) (W.contents writer.new) }
{
    match areas_of(alloc, &asked.swaps) {
        Ok(pagers) => view(alloc, reader, writer, pagers, asked.steps),
        Err(HostMemory) => Err(Stop::Fault(RunFault::HostMemory)),
    }
}

//! The run that the words ask for.
ghost use Rattle.std.specs.Prelude.{length, map, string_bytes};
ghost use Rattle.shm_program.specs.Runs.{handed_in};
ghost use Rattle.shmsim.specs.Runs.{IsRun, IsAsked, IsRunOf};
ghost use Rattle.shmsim.specs.Words.{asked_of};

use crate::command::{Asked, Mode, Stop, read_words};
use shm_base::HostMemory;
use shm_pager_core::Pager;
use shm_program::{RunFault, areas_of};
use shm_runner::{run_serial, run_threaded};
use std::alloc::Global;
use std::io::{Read, Write};
use std::sync::Wait;
use std::thread::Threads;

/// Does what the words of the command line ask for: runs the script that the reader gives, over the swap areas that
/// they name, and writes the replies. Other words are a usage error.
pub(crate) fn run_words<T: Threads + Wait + Sync, R: Read, W: Write>(
    rt: &T,
    alloc: Global,
    words: &[String],
    reader: &mut R,
    writer: &mut W,
) -> Result<(), Stop>
    ensures { let done = IsAsked (asked_of (map string_bytes words.now)) result in
        let run = done (R.remaining reader.old) (R.remaining reader.new) in
        run (W.contents writer.old) (W.contents writer.new) }
{
    let asked = read_words(alloc, words)?;
    run_asked(rt, alloc, reader, writer, &asked)
}

// Runs the script that the reader gives over the swap areas, and writes the replies.
fn run_asked<T: Threads + Wait + Sync, R: Read, W: Write>(
    rt: &T,
    alloc: Global,
    reader: &mut R,
    writer: &mut W,
    asked: &Asked,
) -> Result<(), Stop>
    ensures { let done = IsRunOf asked.now.mode asked.now.swaps.items result in
        let run = done (R.remaining reader.old) (R.remaining reader.new) in
        run (W.contents writer.old) (W.contents writer.new) }
{
    let pagers = match areas_of(alloc, &asked.swaps) {
        Ok(pagers) => pagers,
        Err(HostMemory) => return Err(Stop::Fault(RunFault::HostMemory)),
    };
    match run_over(rt, alloc, reader, writer, asked.mode, pagers) {
        Ok(()) => Ok(()),
        Err(fault) => Err(Stop::Fault(fault)),
    }
}

// Runs the script that the reader gives over swap areas with these pagers, and writes the replies.
fn run_over<T: Threads + Wait + Sync, R: Read, W: Write, P: Pager + Send>(
    rt: &T,
    alloc: Global,
    reader: &mut R,
    writer: &mut W,
    mode: Mode,
    pagers: Vec<P>,
) -> Result<(), RunFault>
    ensures { let swap = handed_in P.content P.failed P.most P.calls pagers.items in
        let ended = IsRun mode P.failed swap result (R.remaining reader.old) (R.remaining reader.new) in
        ended (W.contents writer.old) (W.contents writer.new) (map (λ p. length (P.content p)) pagers.items) }
{
    match mode {
        Mode::Serial => run_serial(alloc, reader, writer, pagers),
        Mode::Threads => run_threaded(rt, alloc, reader, writer, pagers),
    }
}

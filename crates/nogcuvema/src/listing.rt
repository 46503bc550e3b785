//! What ipcs(1) and /proc show of a machine. These are not calls, and change nothing.
ghost use Rattle.std.specs.Prelude.{◌≡◌, ◌≢◌, ◌==◌, not, slice_get};
ghost use Rattle.shm_life.specs.Listed.{stat_at};
ghost use Rattle.nogcuvema.specs.Listed.{Uses, AnswersStat, StatOf, AnswersPiece, PieceOf, AnswersProcess, ProcessOf, AnswersAbsent, AnswersFailed};
ghost use Rattle.nogcuvema.specs.Reads.{Reads};

use crate::code::{DONE, OUT_OF_RANGE};
use crate::handle::{Handle, with_machine};
use crate::structs::{NogPiece, NogProcess, NogSegment, NogUsage};
use shm_base::Errno;
use shm_machine::Machine;
use std::alloc::Global;

/// Sums over all segments, and the highest index that has one (SHM_INFO).
#[unsafe(no_mangle)]
pub extern "C" fn nog_info(alloc: Global, handle: &mut Handle, usage: &mut NogUsage) -> u32
    ensures machine { Reads handle.old.kept.value (λ m. Uses m.system usage.new)
        result handle.new.kept.value }
    ensures usage { result ≢ 0 → usage.new ≡ usage.old }
{
    with_machine!(alloc, handle, |machine| {
        *usage = NogUsage::of(&machine.system.info(), machine.system.highest_index());
        DONE
    })
}

fn stat_at(machine: &Machine, pid: u32, index: u32, segment: &mut NogSegment) -> u32
    ensures answers { StatOf index segment.new result (stat_at machine.now.system.machine pid index) }
    ensures segment { result ≢ 0 → segment.new ≡ segment.old }
{
    match machine.system.stat_at(pid, index) {
        Ok((id, shown)) => {
            *segment = NogSegment::of(id, index, &shown);
            DONE
        }
        Err(errno) => errno.code(),
    }
}

/// The segment at an index, as a process may see it (SHM_STAT). Not counted as a call.
#[unsafe(no_mangle)]
pub extern "C" fn nog_stat_at(
    alloc: Global,
    handle: &mut Handle,
    pid: u32,
    index: u32,
    segment: &mut NogSegment,
) -> u32
    ensures machine { AnswersStat handle.old.kept.value pid index segment.new result handle.new.kept.value }
    ensures segment { result ≢ 0 → segment.new ≡ segment.old }
{
    with_machine!(
        alloc,
        handle,
        |machine| stat_at(machine, pid, index, segment)
    )
}

fn piece_at(machine: &Machine, pid: u32, index: u32, piece: &mut NogPiece) -> u32
    ensures answers { PieceOf index piece.new result pid machine.now.system.machine }
    ensures piece { result ≢ 0 → piece.new ≡ piece.old }
{
    let spaces = machine.system.spaces();
    let Some(caller) = spaces.caller(pid) else {
        return Errno::Esrch.code();
    };
    match spaces.space(&caller).pieces().get(index as usize) {
        Some(found) => {
            *piece = NogPiece::of(found);
            DONE
        }
        None => OUT_OF_RANGE,
    }
}

/// A piece of a live process, by its index in the order of their bases. Out of range: after the last.
#[unsafe(no_mangle)]
pub extern "C" fn nog_piece_at(
    alloc: Global,
    handle: &mut Handle,
    pid: u32,
    index: u32,
    piece: &mut NogPiece,
) -> u32
    ensures machine { AnswersPiece handle.old.kept.value pid index piece.new
        result handle.new.kept.value }
    ensures piece { result ≢ 0 → piece.new ≡ piece.old }
{
    with_machine!(
        alloc,
        handle,
        |machine| piece_at(machine, pid, index, piece)
    )
}

fn process_at(machine: &Machine, index: u32, process: &mut NogProcess) -> u32
    ensures answers { ProcessOf process.new result (slice_get machine.now.system.machine.runners index) }
    ensures process { result ≢ 0 → process.new ≡ process.old }
{
    match machine.system.spaces().process_at(index) {
        Some(found) => {
            *process = NogProcess::of(found.pid, &found.life);
            DONE
        }
        None => OUT_OF_RANGE,
    }
}

/// A process, live or not, by its index. Out of range: after the last.
#[unsafe(no_mangle)]
pub extern "C" fn nog_process_at(
    alloc: Global,
    handle: &mut Handle,
    index: u32,
    process: &mut NogProcess,
) -> u32
    ensures machine { AnswersProcess handle.old.kept.value index process.new result handle.new.kept.value }
    ensures process { result ≢ 0 → process.new ≡ process.old }
{
    with_machine!(alloc, handle, |machine| process_at(machine, index, process))
}

/// The first byte of an access that has no piece or, for a write, is in a read-only piece. Out of range:
/// there is none.
#[unsafe(no_mangle)]
pub extern "C" fn nog_failed_at(
    alloc: Global,
    handle: &mut Handle,
    pid: u32,
    addr: u64,
    len: u64,
    is_write: u32,
    at: &mut u64,
) -> u32
    ensures machine { AnswersFailed handle.old.kept.value pid addr len (not (is_write == 0))
        at.new result handle.new.kept.value }
    ensures at { result ≢ 0 → at.new ≡ at.old }
{
    with_machine!(alloc, handle, |machine| {
        let spaces = machine.system.spaces();
        match spaces.failed_at(pid, addr, len, is_write != 0) {
            Some(found) => {
                *at = found;
                DONE
            }
            None => OUT_OF_RANGE,
        }
    })
}

/// The first byte of an access whose page is in no frame, if all bytes before it are in pieces. Out of range:
/// there is none.
#[unsafe(no_mangle)]
pub extern "C" fn nog_absent_at(
    alloc: Global,
    handle: &mut Handle,
    pid: u32,
    addr: u64,
    len: u64,
    at: &mut u64,
) -> u32
    ensures machine { AnswersAbsent handle.old.kept.value pid addr len at.new result handle.new.kept.value }
    ensures at { result ≢ 0 → at.new ≡ at.old }
{
    with_machine!(
        alloc,
        handle,
        |machine| match machine.system.absent_at(pid, addr, len) {
            Some(found) => {
                *at = found;
                DONE
            }
            None => OUT_OF_RANGE,
        }
    )
}

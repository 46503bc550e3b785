//! What a host looks up: pieces by their addresses, segments by their identifiers, limits, and where the pages of
//! a segment are. These are not calls, and change nothing.
ghost use Rattle.std.specs.Prelude.{◌≡◌, ◌≢◌};
ghost use Rattle.shm_frames.specs.Frame.{lent_of};
ghost use Rattle.nogcuvema.specs.Lookups.{Asks, PagesOf, PieceOf, SegmentOf, numbers_by};
ghost use Rattle.nogcuvema.specs.Reads.{Reads};

use crate::code::DONE;
use crate::handle::{Handle, with_machine};
use crate::structs::{NogLimits, NogPiece, NogSegment};
use shm_base::{Errno, index_of};
use shm_machine::Machine;
use std::alloc::Global;

fn piece_of(machine: &Machine, pid: u32, addr: u64, piece: &mut NogPiece) -> u32
    ensures shows { PieceOf pid addr piece.new result machine.now.system }
    ensures piece { result ≢ 0 → piece.new ≡ piece.old }
{
    let spaces = machine.system.spaces();
    let Some(caller) = spaces.caller(pid) else {
        return Errno::Esrch.code();
    };
    match spaces.space(&caller).piece_at(addr) {
        Some(found) => {
            *piece = NogPiece::of(&found);
            DONE
        }
        None => Errno::Sigsegv.code(),
    }
}

/// The piece of a live process that an address is in.
#[unsafe(no_mangle)]
pub extern "C" fn nog_piece_of(
    alloc: Global,
    handle: &mut Handle,
    pid: u32,
    addr: u64,
    piece: &mut NogPiece,
) -> u32
    ensures machine { Asks handle.old.kept.value (PieceOf pid addr piece.new result)
        result handle.new.kept.value }
    ensures piece { result ≢ 0 → piece.new ≡ piece.old }
{
    with_machine!(alloc, handle, |machine| piece_of(machine, pid, addr, piece))
}

fn segment_of(machine: &Machine, id: i32, segment: &mut NogSegment) -> u32
    ensures shows { SegmentOf id segment.new result machine.now.system }
    ensures segment { result ≢ 0 → segment.new ≡ segment.old }
{
    match machine.system.segment_of(id) {
        Ok(shown) => {
            *segment = NogSegment::of(id, index_of(id), &shown);
            DONE
        }
        Err(errno) => errno.code(),
    }
}

/// The segment of an identifier, as `stat` shows it, without a permission test.
#[unsafe(no_mangle)]
pub extern "C" fn nog_segment_of(
    alloc: Global,
    handle: &mut Handle,
    id: i32,
    segment: &mut NogSegment,
) -> u32
    ensures machine { Asks handle.old.kept.value (SegmentOf id segment.new result)
        result handle.new.kept.value }
    ensures segment { result ≢ 0 → segment.new ≡ segment.old }
{
    with_machine!(alloc, handle, |machine| segment_of(machine, id, segment))
}

/// The limits of the machine, as they are now.
#[unsafe(no_mangle)]
pub extern "C" fn nog_limits_of(alloc: Global, handle: &mut Handle, limits: &mut NogLimits) -> u32
    ensures machine { Reads handle.old.kept.value (λ m. numbers_by limits.new ≡ m.system.machine.limits)
        result handle.new.kept.value }
    ensures limits { result ≢ 0 → limits.new ≡ limits.old }
{
    with_machine!(alloc, handle, |machine| {
        *limits = NogLimits::of(&machine.system.limits());
        DONE
    })
}

fn pages_of(machine: &Machine, id: i32, resident: &mut u64, swapped: &mut u64) -> u32
    ensures shows { PagesOf id resident.new swapped.new result machine.now.system }
    ensures resident { result ≢ 0 → resident.new ≡ resident.old }
    ensures swapped { result ≢ 0 → swapped.new ≡ swapped.old }
{
    let Ok(seg) = u32::try_from(id) else {
        return Errno::Einval.code();
    };
    match machine.system.pages_of(seg) {
        Some(pages) => {
            *resident = pages.resident;
            *swapped = pages.swapped;
            DONE
        }
        None => Errno::Einval.code(),
    }
}

/// How many pages of a segment are in frames, and how many only in slots.
#[unsafe(no_mangle)]
pub extern "C" fn nog_pages_of(
    alloc: Global,
    handle: &mut Handle,
    id: i32,
    resident: &mut u64,
    swapped: &mut u64,
) -> u32
    ensures machine { Asks handle.old.kept.value (PagesOf id resident.new swapped.new result)
        result handle.new.kept.value }
    ensures resident { result ≢ 0 → resident.new ≡ resident.old }
    ensures swapped { result ≢ 0 → swapped.new ≡ swapped.old }
{
    with_machine!(
        alloc,
        handle,
        |machine| pages_of(machine, id, resident, swapped)
    )
}

/// How many pages are on loan.
#[unsafe(no_mangle)]
pub extern "C" fn nog_loans(alloc: Global, handle: &mut Handle, pages: &mut u64) -> u32
    ensures machine { Reads handle.old.kept.value (λ m. pages.new ≡ lent_of m.system.memory.frames)
        result handle.new.kept.value }
    ensures pages { result ≢ 0 → pages.new ≡ pages.old }
{
    with_machine!(alloc, handle, |machine| {
        *pages = machine.system.lent();
        DONE
    })
}

//! Ranges of a process's addresses that the host reserves, so that attaches take none of them.
ghost use Rattle.std.specs.Prelude.{◌≡◌, ◌+◌, ◌^◌, nat_lt, Some, None, if◌then◌else◌};
ghost use Rattle.nogcuvema.specs.Hosting.{HostedThrough};
ghost use Rattle.nogcuvema.specs.Ranges.{ReleasesBy, ReservesBy, range_at, range_code};

use crate::code::{DONE, NO_MEMORY, OUT_OF_RANGE};
use crate::handle::{Handle, with_machine};
use shm_base::{Errno, HostRange, RangeRefusal};
use shm_machine::Machine;
use std::alloc::Global;

fn range_code(refusal: RangeRefusal) -> u32
    ensures { result ≡ range_code refusal }
{
    match refusal {
        RangeRefusal::BadRange => OUT_OF_RANGE,
        RangeRefusal::RangeTaken => Errno::Eexist.code(),
        RangeRefusal::NoRange => Errno::Enoent.code(),
    }
}

// The range of this many bytes, if it ends below 2^64.
fn range_of(pid: u32, addr: u64, len: u64) -> Option<HostRange>
    ensures { result ≡ (if nat_lt (addr + len) (2 ^ 64) then Some (range_at pid addr len) else None) }
{
    let to = addr.checked_add(len)?;
    Some(HostRange {
        pid,
        from: addr,
        to,
    })
}

fn reserved(machine: &mut Machine, pid: u32, addr: u64, len: u64) -> u32
    ensures { ReservesBy pid addr len machine.old result machine.new }
{
    let Some(range) = range_of(pid, addr, len) else {
        return OUT_OF_RANGE;
    };
    match machine.system.reserve(range) {
        Ok(Ok(())) => DONE,
        Ok(Err(refusal)) => range_code(refusal),
        Err(_) => NO_MEMORY,
    }
}

fn released(machine: &mut Machine, pid: u32, addr: u64, len: u64) -> u32
    ensures { ReleasesBy pid addr len machine.old result machine.new }
{
    let Some(range) = range_of(pid, addr, len) else {
        return OUT_OF_RANGE;
    };
    match machine.system.release(range) {
        Ok(()) => DONE,
        Err(refusal) => range_code(refusal),
    }
}

/// Reserves a range of a process's addresses: an attach takes none of it, unless NOG_REMAP is given. The process
/// need not exist. Not counted as a call.
#[unsafe(no_mangle)]
pub extern "C" fn nog_reserve(
    alloc: Global,
    handle: &mut Handle,
    pid: u32,
    addr: u64,
    len: u64,
) -> u32
    ensures { HostedThrough (ReservesBy pid addr len)
        handle.old.kept.value result handle.new.kept.value }
{
    with_machine!(alloc, handle, |machine| reserved(machine, pid, addr, len))
}

/// Releases a range that was reserved: attaches may take it again. Not counted as a call.
#[unsafe(no_mangle)]
pub extern "C" fn nog_release(
    alloc: Global,
    handle: &mut Handle,
    pid: u32,
    addr: u64,
    len: u64,
) -> u32
    ensures { HostedThrough (ReleasesBy pid addr len)
        handle.old.kept.value result handle.new.kept.value }
{
    with_machine!(alloc, handle, |machine| released(machine, pid, addr, len))
}

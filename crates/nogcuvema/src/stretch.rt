//! Reads, writes and copies of any length.
ghost use Rattle.std.specs.Prelude.{◌≡◌};
ghost use Rattle.nogcuvema.specs.Through.{stop_code, CopiedBy, CopiedThrough, ReadBy, ReadThrough, WrittenBy, WrittenThrough};

use crate::code::{DONE, NO_MEMORY, refusal_code};
use crate::handle::{Handle, with_machine};
use shm_machine::{Machine, Refusal};
use std::alloc::Global;

// The code of the refusal that stopped an access; 0 if none did.
fn stop_code(stopped: Option<Refusal>) -> u32
    ensures { result ≡ stop_code stopped }
{
    match stopped {
        Some(refusal) => refusal_code(refusal),
        None => DONE,
    }
}

#[tactic(auto, using(crate::proofs::Answering::read_by))]
fn read(machine: &mut Machine, pid: u32, addr: u64, bytes: &mut [u8], done: &mut u64) -> u32
    ensures { ReadBy machine.old pid addr bytes.old result bytes.new done.new machine.new }
{
    let progress = machine.read(pid, addr, bytes);
    *done = progress.done as u64;
    stop_code(progress.stopped)
}

/// Reads attached memory into the buffer, by a load for each page, until one is refused; `done` gets the
/// number of bytes that were read.
#[unsafe(no_mangle)]
pub extern "C" fn nog_read(
    alloc: Global,
    handle: &mut Handle,
    pid: u32,
    addr: u64,
    bytes: &mut [u8],
    done: &mut u64,
) -> u32
    ensures { ReadThrough handle.old.kept.value pid addr bytes.old done.old result
        bytes.new done.new handle.new.kept.value }
{
    with_machine!(
        alloc,
        handle,
        |machine| read(machine, pid, addr, bytes, done)
    )
}

#[tactic(auto, using(crate::proofs::Answering::written_by))]
fn write(machine: &mut Machine, pid: u32, addr: u64, bytes: &[u8], done: &mut u64) -> u32
    ensures { WrittenBy machine.old pid addr bytes.now result done.new machine.new }
{
    let progress = machine.write(pid, addr, bytes);
    *done = progress.done as u64;
    stop_code(progress.stopped)
}

/// Replaces attached memory by the bytes, by a store for each page, until one is refused; `done` gets the
/// number of bytes that were written.
#[unsafe(no_mangle)]
pub extern "C" fn nog_write(
    alloc: Global,
    handle: &mut Handle,
    pid: u32,
    addr: u64,
    bytes: &[u8],
    done: &mut u64,
) -> u32
    ensures { WrittenThrough handle.old.kept.value pid addr bytes.now done.old result
        done.new handle.new.kept.value }
{
    with_machine!(
        alloc,
        handle,
        |machine| write(machine, pid, addr, bytes, done)
    )
}

#[tactic(auto, using(crate::proofs::Answering::copied_by))]
fn copy(
    alloc: Global,
    machine: &mut Machine,
    from: (u32, u64),
    to: (u32, u64),
    len: usize,
    done: &mut u64,
) -> u32
    ensures { CopiedBy machine.old from to len done.old result done.new machine.new }
{
    let Ok(progress) = machine.copy(alloc, from, to, len) else {
        return NO_MEMORY;
    };
    *done = progress.done as u64;
    stop_code(progress.stopped)
}

/// Copies attached memory of a process to that of another, or of the same one: one load of the bytes that can
/// be read, and then one store of them; `done` gets the number of bytes that were written.
#[unsafe(no_mangle)]
pub extern "C" fn nog_copy(
    alloc: Global,
    handle: &mut Handle,
    from: u32,
    from_addr: u64,
    to: u32,
    to_addr: u64,
    len: u64,
    done: &mut u64,
) -> u32
    ensures { CopiedThrough handle.old.kept.value (from, from_addr) (to, to_addr) len done.old result
        done.new handle.new.kept.value }
{
    with_machine!(
        alloc,
        handle,
        |machine| copy(
            alloc,
            machine,
            (from, from_addr),
            (to, to_addr),
            len as usize,
            done,
        )
    )
}

//! Loads, stores and additions.
ghost use Rattle.std.specs.Prelude.{◌≡◌, ◌≢◌, ◌≤◌, length};
ghost use Rattle.shm_base.specs.Bounds.{within};
ghost use Rattle.shm_base.specs.declared.call.Reply.TheVariants as reply;
ghost use Rattle.shm_fault.specs.Acting.{FitsRoom, size_of};
ghost use Rattle.shm_machine.specs.Ready.{deed};
ghost use Rattle.nogcuvema.specs.Answers.{AnswersBy, AnswersIn, AnswersInWhere, DoesBy, DoesIn, adds, loads, stores};

use crate::code::{DONE, OUT_OF_RANGE, refusal_code};
use crate::handle::{Handle, with_machine};
use shm_base::LONGEST_ACCESS;
use shm_fault::Act;
use shm_machine::Machine;
use std::alloc::Global;

// Whether an access in one step may have this many bytes.
#[inline(always)]
fn is_size(len: usize) -> bool
    ensures { result ≡ within 1 64 len }
{
    len >= 1 && len <= LONGEST_ACCESS
}

#[tactic(auto, using(crate::proofs::Answering::not_accessed))]
#[inline(always)]
fn answer(machine: &mut Machine, pid: u32, addr: u64, act: Act<'_>, there: &mut [u8]) -> u32
    requires fits { FitsRoom act (length there.old) }
    requires size { let size = size_of act (length there.old) in (1 ≤ size) × (size ≤ 64) }
    ensures answers { let asked = deed pid addr act.entry (length there.old) in
        DoesBy asked machine.old there.new result machine.new }
    ensures kept { result ≢ 0 → there.new ≡ there.old }
{
    match machine.access(pid, addr, act, there) {
        Ok(()) => DONE,
        Err(refusal) => refusal_code(refusal),
    }
}

// The access that does an act at 1 to 64 bytes, in one step.
#[inline(always)]
pub(crate) fn access(
    alloc: Global,
    handle: &mut Handle,
    pid: u32,
    addr: u64,
    act: Act<'_>,
    there: &mut [u8],
) -> u32
    requires fits { FitsRoom act (length there.old) }
    ensures answers { let asked = deed pid addr act.entry (length there.old) in
        DoesIn asked handle.old.kept.value there.new result handle.new.kept.value }
    ensures kept { result ≢ 0 → there.new ≡ there.old }
{
    if !is_size(act.size(there.len())) {
        return OUT_OF_RANGE;
    }
    with_machine!(
        alloc,
        handle,
        |machine| answer(machine, pid, addr, act, there)
    )
}

/// Reads 1 to 64 bytes of attached memory in one step.
#[unsafe(no_mangle)]
pub extern "C" fn nog_load(
    alloc: Global,
    handle: &mut Handle,
    pid: u32,
    addr: u64,
    bytes: &mut [u8],
) -> u32
    ensures answers { let fit = within 1 64 (length bytes.old) in
        AnswersInWhere fit (loads pid addr (length bytes.old)) handle.old.kept.value
        (reply.Bytes bytes.new) result handle.new.kept.value }
    ensures bytes { result ≢ 0 → bytes.new ≡ bytes.old }
{
    access(alloc, handle, pid, addr, Act::Nothing, bytes)
}

/// Replaces 1 to 64 bytes of attached memory in one step.
#[unsafe(no_mangle)]
pub extern "C" fn nog_store(
    alloc: Global,
    handle: &mut Handle,
    pid: u32,
    addr: u64,
    bytes: &[u8],
) -> u32
    ensures { let fit = within 1 64 (length bytes.now) in
        AnswersInWhere fit (stores pid addr bytes.now) handle.old.kept.value reply.Done result
        handle.new.kept.value }
{
    access(alloc, handle, pid, addr, Act::Put(bytes), &mut [])
}

#[tactic(auto, using(crate::proofs::Answering::not_accessed))]
#[inline(always)]
fn add_to(machine: &mut Machine, pid: u32, addr: u64, add: u64, before: &mut u64) -> u32
    ensures answers { AnswersBy (adds pid addr add machine.old) (reply.Number before.new) result machine.new }
    ensures before { result ≢ 0 → before.new ≡ before.old }
{
    match machine.add(pid, addr, add) {
        Ok(stood) => {
            *before = stood;
            DONE
        }
        Err(refusal) => refusal_code(refusal),
    }
}

/// Adds to eight little-endian bytes of attached memory, modulo 2^64, in one step; `before` gets the old
/// number.
#[unsafe(no_mangle)]
pub extern "C" fn nog_add(
    alloc: Global,
    handle: &mut Handle,
    pid: u32,
    addr: u64,
    add: u64,
    before: &mut u64,
) -> u32
    ensures answers { AnswersIn (adds pid addr add) handle.old.kept.value (reply.Number before.new) result
        handle.new.kept.value }
    ensures before { result ≢ 0 → before.new ≡ before.old }
{
    with_machine!(
        alloc,
        handle,
        |machine| add_to(machine, pid, addr, add, before)
    )
}

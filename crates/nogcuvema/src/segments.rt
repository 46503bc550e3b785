//! Makes, finds and attaches segments.
ghost use Rattle.std.specs.Prelude.{◌≡◌, ◌≢◌, ◌&&◌, nat_lt};
ghost use Rattle.shm_base.specs.declared.call.Call.TheVariants as call;
ghost use Rattle.shm_base.specs.declared.call.Reply.TheVariants as reply;
ghost use Rattle.nogcuvema.specs.Answers.{AnswersThrough, AnswersFor, AnswersWhere};
ghost use Rattle.shm_base.specs.Index.{index_of};
ghost use Rattle.nogcuvema.specs.Shown.{shown_by};

use crate::code::{DONE, OUT_OF_RANGE, refusal_code};
use crate::handle::{Handle, with_machine};
use crate::structs::NogSegment;
use bitflags::Flags;
use shm_base::{AtFlags, GetFlags, index_of};
use shm_machine::Machine;
use std::alloc::Global;

// The most that a mode can be: read, write and execute for user, group and others.
const MODE_BITS: u32 = 0o777;

fn get(
    machine: &mut Machine,
    pid: u32,
    key: u32,
    size: u64,
    mode: u16,
    flags: u16,
    id: &mut i32,
) -> u32
    ensures answers { AnswersFor machine.old pid (call.Shmget key size mode (record { 0 = flags }))
        (reply.Id id.new) result machine.new }
    ensures id { result ≢ 0 → id.new ≡ id.old }
{
    match machine.get(pid, key, size, mode, GetFlags::from_bits_retain(flags)) {
        Ok(found) => {
            *id = found;
            DONE
        }
        Err(refusal) => refusal_code(refusal),
    }
}

/// shmget(2): the identifier of the segment that has the key, or of a new one. The mode is at most 0777, and the flags
/// are below 65536.
#[unsafe(no_mangle)]
pub extern "C" fn nog_get(
    alloc: Global,
    handle: &mut Handle,
    pid: u32,
    key: u32,
    size: u64,
    mode: u32,
    flags: u32,
    id: &mut i32,
) -> u32
    ensures answers { AnswersWhere (nat_lt mode 512 && nat_lt flags 65536) handle.old.kept.value pid
        (call.Shmget key size mode (record { 0 = flags })) (reply.Id id.new) result handle.new.kept.value }
    ensures id { result ≢ 0 → id.new ≡ id.old }
{
    if mode > MODE_BITS || flags > u32::from(u16::MAX) {
        return OUT_OF_RANGE;
    }
    with_machine!(
        alloc,
        handle,
        |machine| get(machine, pid, key, size, mode as u16, flags as u16, id)
    )
}

#[tactic(auto, using(crate::proofs::Answering::refused))]
fn attach(machine: &mut Machine, pid: u32, id: i32, addr: u64, flags: u16, at: &mut u64) -> u32
    ensures answers { AnswersFor machine.old pid (call.Shmat id addr (record { 0 = flags }))
        (reply.Addr at.new) result machine.new }
    ensures at { result ≢ 0 → at.new ≡ at.old }
{
    match machine.attach(pid, id, addr, AtFlags::from_bits_retain(flags)) {
        Ok(found) => {
            *at = found;
            DONE
        }
        Err(refusal) => refusal_code(refusal),
    }
}

/// shmat(2): the address at which the segment is attached; the machine chooses it if `addr` is 0. Flags are
/// below 65536.
#[unsafe(no_mangle)]
pub extern "C" fn nog_attach(
    alloc: Global,
    handle: &mut Handle,
    pid: u32,
    id: i32,
    addr: u64,
    flags: u32,
    at: &mut u64,
) -> u32
    ensures answers { AnswersWhere (nat_lt flags 65536) handle.old.kept.value pid
        (call.Shmat id addr (record { 0 = flags })) (reply.Addr at.new) result handle.new.kept.value }
    ensures at { result ≢ 0 → at.new ≡ at.old }
{
    if flags > u32::from(u16::MAX) {
        return OUT_OF_RANGE;
    }
    with_machine!(
        alloc,
        handle,
        |machine| attach(machine, pid, id, addr, flags as u16, at)
    )
}

#[tactic(auto, using(crate::proofs::Answering::refused))]
fn stat(machine: &mut Machine, pid: u32, id: i32, segment: &mut NogSegment) -> u32
    ensures answers { AnswersFor machine.old pid (call.Stat id)
        (reply.Stat (shown_by segment.new)) result machine.new }
    ensures place { result ≡ 0 → (segment.new.id ≡ id) × (segment.new.index ≡ index_of id) }
    ensures segment { result ≢ 0 → segment.new ≡ segment.old }
{
    match machine.stat(pid, id) {
        Ok(shown) => {
            *segment = NogSegment::of(id, index_of(id), &shown);
            DONE
        }
        Err(refusal) => refusal_code(refusal),
    }
}

/// shmctl(2), IPC_STAT: shows a segment, with its identifier and its index in the table.
#[unsafe(no_mangle)]
pub extern "C" fn nog_stat(
    alloc: Global,
    handle: &mut Handle,
    pid: u32,
    id: i32,
    segment: &mut NogSegment,
) -> u32
    ensures answers { AnswersThrough handle.old.kept.value pid (call.Stat id)
        (reply.Stat (shown_by segment.new)) result handle.new.kept.value }
    ensures place { result ≡ 0 → (segment.new.id ≡ id) × (segment.new.index ≡ index_of id) }
    ensures segment { result ≢ 0 → segment.new ≡ segment.old }
{
    with_machine!(alloc, handle, |machine| stat(machine, pid, id, segment))
}

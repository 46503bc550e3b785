//! Exchanges, and compares with exchange.
ghost use Rattle.std.specs.Prelude.{◌≡◌, ◌≢◌, ◌&&◌, ◌==◌, length};
ghost use Rattle.shm_base.specs.Bounds.{within};
ghost use Rattle.shm_base.specs.declared.call.Reply.TheVariants as reply;
ghost use Rattle.nogcuvema.specs.Answers.{AnswersInWhere, compares, exchanges};

use crate::access::access;
use crate::code::OUT_OF_RANGE;
use crate::handle::Handle;
use shm_fault::Act;
use std::alloc::Global;

/// Replaces 1 to 64 bytes in one step; `before`, which has the same length, gets the old ones.
#[unsafe(no_mangle)]
pub extern "C" fn nog_exchange(
    alloc: Global,
    handle: &mut Handle,
    pid: u32,
    addr: u64,
    bytes: &[u8],
    before: &mut [u8],
) -> u32
    ensures answers { let fit = within 1 64 (length bytes.now) && (length before.old == length bytes.now) in
        AnswersInWhere fit (exchanges pid addr bytes.now) handle.old.kept.value
        (reply.Bytes before.new) result handle.new.kept.value }
    ensures before { result ≢ 0 → before.new ≡ before.old }
{
    if before.len() != bytes.len() {
        return OUT_OF_RANGE;
    }
    access(alloc, handle, pid, addr, Act::Put(bytes), before)
}

/// As nog_exchange, but replaces the bytes only if they equal the expected ones. All three lengths are equal.
#[unsafe(no_mangle)]
pub extern "C" fn nog_compare_exchange(
    alloc: Global,
    handle: &mut Handle,
    pid: u32,
    addr: u64,
    expected: &[u8],
    bytes: &[u8],
    before: &mut [u8],
) -> u32
    ensures answers { let size = length bytes.now in
        let fit = within 1 64 size && (length before.old == size) && (length expected.now == size) in
        AnswersInWhere fit (compares pid addr expected.now bytes.now) handle.old.kept.value
        (reply.Bytes before.new) result handle.new.kept.value }
    ensures before { result ≢ 0 → before.new ≡ before.old }
{
    if before.len() != bytes.len() || expected.len() != bytes.len() {
        return OUT_OF_RANGE;
    }
    let act = Act::PutIfEqual { expected, bytes };
    access(alloc, handle, pid, addr, act, before)
}

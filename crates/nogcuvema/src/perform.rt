//! The calls whose reply has no value.
ghost use Rattle.std.specs.Prelude.{◌≡◌, ◌==◌, not, true, nat_lt};
ghost use Rattle.shm_base.specs.declared.call.Call.TheVariants as call;
ghost use Rattle.shm_base.specs.declared.call.Reply.TheVariants as reply;
ghost use Rattle.shm_machine.specs.Answered.{fits};
ghost use Rattle.nogcuvema.specs.Answers.{AnswersThrough, AnswersFor, AnswersWhere};

use crate::code::{DONE, OUT_OF_RANGE, refusal_code};
use crate::handle::{Handle, with_machine};
use shm_base::Call;
use shm_machine::Machine;
use std::alloc::Global;

#[tactic(auto, using(crate::proofs::Answering::refused))]
fn performed(machine: &mut Machine, pid: u32, call: &Call) -> u32
    requires { fits call.now reply.Done ≡ true }
    ensures { AnswersFor machine.old pid call.now reply.Done result machine.new }
{
    match machine.perform(pid, call) {
        Ok(()) => DONE,
        Err(refusal) => refusal_code(refusal),
    }
}

fn perform(alloc: Global, handle: &mut Handle, pid: u32, call: &Call) -> u32
    requires { fits call.now reply.Done ≡ true }
    ensures { AnswersThrough handle.old.kept.value pid call.now reply.Done result handle.new.kept.value }
{
    with_machine!(alloc, handle, |machine| performed(machine, pid, call))
}

/// shmdt(2): detaches what is left of one attach.
#[unsafe(no_mangle)]
pub extern "C" fn nog_detach(alloc: Global, handle: &mut Handle, pid: u32, addr: u64) -> u32
    ensures { AnswersThrough handle.old.kept.value pid (call.Shmdt addr) reply.Done
        result handle.new.kept.value }
{
    perform(alloc, handle, pid, &Call::Shmdt { addr })
}

/// shmctl(2), IPC_SET: sets owner, group and mode of a segment. The mode is below 65536.
#[unsafe(no_mangle)]
pub extern "C" fn nog_set(
    alloc: Global,
    handle: &mut Handle,
    pid: u32,
    id: i32,
    uid: u32,
    gid: u32,
    mode: u32,
) -> u32
    ensures { AnswersWhere (nat_lt mode 65536) handle.old.kept.value pid
        (call.Set id uid gid mode) reply.Done result handle.new.kept.value }
{
    if mode > u32::from(u16::MAX) {
        return OUT_OF_RANGE;
    }
    let mode = mode as u16;
    perform(alloc, handle, pid, &Call::Set { id, uid, gid, mode })
}

/// shmctl(2), IPC_RMID: destroys a segment without pieces; marks any other, which is then destroyed with its
/// last piece.
#[unsafe(no_mangle)]
pub extern "C" fn nog_remove(alloc: Global, handle: &mut Handle, pid: u32, id: i32) -> u32
    ensures { AnswersThrough handle.old.kept.value pid (call.Rmid id) reply.Done
        result handle.new.kept.value }
{
    perform(alloc, handle, pid, &Call::Rmid { id })
}

/// shmctl(2), SHM_LOCK: the pages of a segment stay resident once they are.
#[unsafe(no_mangle)]
pub extern "C" fn nog_lock(alloc: Global, handle: &mut Handle, pid: u32, id: i32) -> u32
    ensures { AnswersThrough handle.old.kept.value pid (call.Lock id) reply.Done
        result handle.new.kept.value }
{
    perform(alloc, handle, pid, &Call::Lock { id })
}

/// shmctl(2), SHM_UNLOCK: the pages of a segment may leave their frames again.
#[unsafe(no_mangle)]
pub extern "C" fn nog_unlock(alloc: Global, handle: &mut Handle, pid: u32, id: i32) -> u32
    ensures { AnswersThrough handle.old.kept.value pid (call.Unlock id) reply.Done
        result handle.new.kept.value }
{
    perform(alloc, handle, pid, &Call::Unlock { id })
}

/// fork(2): a declared child is born, with the pieces and the ids of the process.
#[unsafe(no_mangle)]
pub extern "C" fn nog_fork(alloc: Global, handle: &mut Handle, pid: u32, child: u32) -> u32
    ensures { AnswersThrough handle.old.kept.value pid (call.Fork child) reply.Done
        result handle.new.kept.value }
{
    perform(alloc, handle, pid, &Call::Fork { child })
}

/// execve(2): detaches every piece of the process.
#[unsafe(no_mangle)]
pub extern "C" fn nog_exec(alloc: Global, handle: &mut Handle, pid: u32) -> u32
    ensures { AnswersThrough handle.old.kept.value pid call.Exec reply.Done result handle.new.kept.value }
{
    perform(alloc, handle, pid, &Call::Exec)
}

/// _exit(2): detaches every piece of the process, and ends it.
#[unsafe(no_mangle)]
pub extern "C" fn nog_exit(alloc: Global, handle: &mut Handle, pid: u32) -> u32
    ensures { AnswersThrough handle.old.kept.value pid call.Exit reply.Done result handle.new.kept.value }
{
    perform(alloc, handle, pid, &Call::Exit)
}

/// swapoff(2): takes a swap area away.
#[unsafe(no_mangle)]
pub extern "C" fn nog_swapoff(alloc: Global, handle: &mut Handle, pid: u32, area: u32) -> u32
    ensures { AnswersThrough handle.old.kept.value pid (call.Swapoff area) reply.Done
        result handle.new.kept.value }
{
    perform(alloc, handle, pid, &Call::Swapoff { area })
}

/// munmap(2): removes the pieces in a range, and cuts those that reach beyond it.
#[unsafe(no_mangle)]
pub extern "C" fn nog_unmap(
    alloc: Global,
    handle: &mut Handle,
    pid: u32,
    addr: u64,
    len: u64,
) -> u32
    ensures { AnswersThrough handle.old.kept.value pid (call.Munmap addr len) reply.Done
        result handle.new.kept.value }
{
    perform(alloc, handle, pid, &Call::Munmap { addr, len })
}

/// mprotect(2): makes a range writable, or read-only if `is_writable` is 0. If it is refused, everything
/// below the page that is refused has been changed.
#[unsafe(no_mangle)]
pub extern "C" fn nog_protect(
    alloc: Global,
    handle: &mut Handle,
    pid: u32,
    addr: u64,
    len: u64,
    is_writable: u32,
) -> u32
    ensures { let protect = call.Mprotect addr len (not (is_writable == 0)) in
        AnswersThrough handle.old.kept.value pid protect reply.Done result handle.new.kept.value }
{
    let writable = is_writable != 0;
    perform(
        alloc,
        handle,
        pid,
        &Call::Mprotect {
            addr,
            len,
            writable,
        },
    )
}

/// setuid(2): the process has another effective user and group from now on. Its pieces stay.
#[unsafe(no_mangle)]
pub extern "C" fn nog_set_user(
    alloc: Global,
    handle: &mut Handle,
    pid: u32,
    uid: u32,
    gid: u32,
) -> u32
    ensures { AnswersThrough handle.old.kept.value pid (call.Setuid uid gid) reply.Done
        result handle.new.kept.value }
{
    perform(alloc, handle, pid, &Call::Setuid { uid, gid })
}

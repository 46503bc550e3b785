//! The machine: a process's call is one step of the flat machine.
ghost use Rattle.std.specs.Prelude.{IfOk, OnOk, OnErr, IsOk};
ghost use Rattle.shm_base.specs.Step.{acts, step};
ghost use Rattle.shm_attach.specs.Spaces.{IsCaller, caller_seen};
ghost use Rattle.shm_life.specs.MachineView.{AnsweredBy, IsWithoutMemory, Served, reply_in};
ghost use Rattle.shm_base.specs.Memory.{TakesNoMemory};

use shm_attach::{Caller, Spaces};
use shm_base::{Call, Errno, HostMemory, HostRange, Limits, Reply};
use shm_fault::Act;
use shm_pager_core::Pager;
use shm_segments::Segments;
use std::marker::Model;

/// The machine's state: its segments with their memory, the pieces of its processes, and the ranges that the
/// host has reserved.
pub(crate) struct Kernel<P: Pager> {
    pub(crate) limits: Limits,
    pub(crate) segments: Segments<P>,
    pub(crate) spaces: Spaces,
    pub(crate) host_ranges: Vec<HostRange>,
}

impl<P: Pager> Drop for Kernel<P> {
    fn drop(self) {
        let Kernel {
            limits: _,
            segments: _,
            spaces: _,
            host_ranges: _,
        } = self;
    }
}

impl<P: Pager> Model for Kernel<P> {
    ghost use Rattle.std.specs.Prelude.{◌≡◌};
    ghost use Rattle.shm_slots.specs.View.{sizes};
    ghost use Rattle.shm_areas.specs.FreeGap.{AreRanges};
    ghost use Rattle.shm_life.specs.Sound.{IsWell};
    ghost use Rattle.shm_life.specs.MachineView.{MachineView};

    ghost Value = { MachineView };

    ghost view = { λ m. record {
      flat = record {
        limits = m.limits;
        areas = sizes m.segments.memory.swap;
        table = m.segments.table;
        runners = m.spaces.runners;
        host_ranges = m.host_ranges.items;
      };
      memory = m.segments.memory;
    } };

    ghost invariant = { λ m.
        IsWell m.limits m.segments.table m.spaces.runners m.spaces.translations m.segments.memory
        × (m.spaces.most ≡ m.limits.most_pieces) × AreRanges m.host_ranges.items };
}

impl<P: Pager> Kernel<P> {
    #[tactic(auto, using(crate::proofs::Running::kept_refl, crate::proofs::Running::pages_rest))]
    /// One step of the flat machine. A process that is not live is refused before anything else.
    pub(crate) fn call(
        &mut self,
        time: u64,
        pid: u32,
        call: &Call,
        reply: &mut Reply,
    ) -> Result<(), HostMemory>
        ensures answered { OnOk result (AnsweredBy self.old time pid call.now reply.new self.new) }
        ensures memory { let outcome = step self.old.flat time pid call.now in
            OnErr result (IsWithoutMemory outcome self.old self.new) }
        ensures no_memory { TakesNoMemory call.now → IsOk result }
    {
        let Some(caller) = self.spaces.caller_again(pid) else {
            *reply = Reply::Refused(Errno::Esrch);
            return Ok(());
        };
        if let Err(errno) = self.serve(time, &caller, call, reply)? {
            *reply = Reply::Refused(errno);
        }
        Ok(())
    }

    // Serves a caller's call: writes the reply to `reply`, or returns why the call is refused.
    #[inline(always)]
    fn serve(
        &mut self,
        time: u64,
        caller: &Caller,
        call: &Call,
        reply: &mut Reply,
    ) -> Result<Result<(), Errno>, HostMemory>
        requires { IsCaller caller.now self.old.flat.runners }
        ensures served { IfOk result (λ r.
            Served self.old time caller.now call.now (reply_in reply.new r) self.new) }
        ensures memory { let seen = caller_seen caller.now self.old.flat.runners in
            OnErr result (IsWithoutMemory (acts self.old.flat time seen call.now) self.old self.new) }
        ensures no_memory { TakesNoMemory call.now → IsOk result }
    {
        *reply = Reply::Done;
        let served = match call {
            Call::Shmget {
                key,
                size,
                mode,
                flags,
            } => match self.shmget(time, caller, *key, *size, *mode, *flags)? {
                Ok(id) => {
                    *reply = Reply::Id(id);
                    Ok(())
                }
                Err(errno) => Err(errno),
            },
            Call::Shmat { id, addr, flags } => {
                match self.shmat(time, caller, *id, *addr, *flags)? {
                    Ok(base) => {
                        *reply = Reply::Addr(base);
                        Ok(())
                    }
                    Err(errno) => Err(errno),
                }
            }
            Call::Shmdt { addr } => self.shmdt(time, caller, *addr),
            Call::Stat { id } => match self.stat(caller, *id) {
                Ok(shown) => {
                    *reply = Reply::Stat(shown);
                    Ok(())
                }
                Err(errno) => Err(errno),
            },
            Call::Set { id, uid, gid, mode } => { self.set(time, caller, *id, *uid, *gid, *mode) }
            Call::Rmid { id } => self.rmid(caller, *id),
            Call::Lock { id } => self.lock(caller, *id),
            Call::Unlock { id } => self.unlock(caller, *id),
            Call::Load { addr, len } => {
                self.serve_access(caller, *addr, Act::Nothing, len.get(), reply)
            }
            Call::Store { addr, chunk } => {
                self.serve_access(caller, *addr, Act::Put(chunk.as_slice()), 0, reply)
            }
            Call::Xadd { addr, add } => {
                self.serve_access(caller, *addr, Act::Add(*add), 8, reply)
            }
            Call::Exchange { chunk, addr } => {
                let bytes = chunk.as_slice();
                self.serve_access(caller, *addr, Act::Put(bytes), bytes.len(), reply)
            }
            Call::CompareExchange {
                expected,
                desired,
                addr,
            } => {
                let (expected, bytes) = (expected.as_slice(), desired.as_slice());
                let act = Act::PutIfEqual { expected, bytes };
                self.serve_access(caller, *addr, act, bytes.len(), reply)
            }
            Call::Fork { child } => self.fork(time, caller, *child),
            Call::Exec => {
                self.exec(time, caller);
                Ok(())
            }
            Call::Exit => {
                self.exit(time, caller);
                Ok(())
            }
            Call::Swapoff { area } => self.swapoff(caller, *area),
            Call::Munmap { addr, len } => self.munmap(time, caller, *addr, *len),
            Call::Mprotect {
                addr,
                len,
                writable,
            } => self.mprotect(time, caller, *addr, *len, *writable),
            Call::Setuid { uid, gid } => {
                self.setuid(caller, *uid, *gid);
                Ok(())
            }
        };
        Ok(served)
    }
}

//! Reads and writes of any length: a sequence of calls, each of which ends with its page.
ghost use Rattle.std.specs.Prelude.{◌≡◌, ◌+◌, ◌^◌, ◌≤◌, true, false, length, MatchResult, OnErr};
ghost use Rattle.shm_base.specs.declared.call.Call.TheVariants as call;
ghost use Rattle.shm_base.specs.declared.call.Reply.TheVariants as reply;
ghost use Rattle.shm_base.specs.declared.paging.TheConstants.{PAGE_SIZE};
ghost use Rattle.shm_life.specs.Lending.{pages_asked};
ghost use Rattle.shm_machine.specs.Ready.{AccessMade};
ghost use Rattle.shm_machine.specs.Stretched.{next_len, StoppedAt, ReadTo, WrittenTo};

use crate::machine::Machine;
use crate::refusal::Refusal;
use shm_base::{Errno, PAGE_SIZE};

/// How far an access came: how many bytes were done, and what stopped it if these are not all.
#[derive(Clone, Copy, Debug, PartialEq, Eq)]
pub struct Progress {
    pub done: usize,
    pub stopped: Option<Refusal>,
}

// The address after the bytes that were done. Sigsegv: it is 2^64 or more, where no piece can be.
fn next_address(addr: u64, done: usize) -> Result<u64, Refusal>
    ensures { MatchResult result (λ a. a ≡ addr + done)
        (λ e. (2 ^ 64 ≤ addr + done) × (e ≡ Refusal.Refused Errno.Sigsegv)) }
{
    addr.checked_add(done as u64)
        .ok_or(Refusal::Refused(Errno::Sigsegv))
}

// How many of the remaining bytes the next call takes: up to the end of its page.
fn next_len(addr: u64, done: usize, left: usize) -> usize
    ensures { result ≡ next_len (addr + done) left }
{
    let within = (addr % PAGE_SIZE + done as u64 % PAGE_SIZE) % PAGE_SIZE;
    left.min((PAGE_SIZE - within) as usize)
}

impl Machine {
    // One call of a read, for the bytes after those that were done.
    fn read_on(&mut self, pid: u32, addr: u64, done: usize, part: &mut [u8]) -> Result<(), Refusal>
        requires { (1 ≤ length part.old) × (length part.old ≤ PAGE_SIZE) }
        ensures read { let at = addr + done in
            let load = call.Load at (length part.old) in
            let pages = pages_asked self.old.system.machine pid at (length part.old) false in
            MatchResult result
            (λ _. AccessMade pages self.old.system pid load (reply.Bytes part.new) self.new.system)
            (λ e. StoppedAt self.old.system pid at (length part.old) false load e self.new.system) }
        ensures kept { OnErr result (part.new ≡ part.old) }
    {
        let at = next_address(addr, done)?;
        self.load_into(pid, at, part)
    }

    // One call of a write, for the bytes after those that were done.
    fn write_on(&mut self, pid: u32, addr: u64, done: usize, bytes: &[u8]) -> Result<(), Refusal>
        requires { (1 ≤ length bytes.now) × (length bytes.now ≤ PAGE_SIZE) }
        ensures { let at = addr + done in
            let store = call.Store bytes.now at in
            let pages = pages_asked self.old.system.machine pid at (length bytes.now) true in
            MatchResult result
            (λ _. AccessMade pages self.old.system pid store reply.Done self.new.system)
            (λ e. StoppedAt self.old.system pid at (length bytes.now) true store e self.new.system) }
    {
        let at = next_address(addr, done)?;
        self.store(pid, at, bytes)
    }

    /// Reads attached memory from an address on, page by page, until a call is refused. An address of 2^64 or
    /// more is Sigsegv, without a call.
    pub fn read(&mut self, pid: u32, addr: u64, bytes: &mut [u8]) -> Progress
        ensures { ReadTo self.old.system pid addr bytes.old result bytes.new self.new.system }
    {
        let mut done = 0;
        while done < bytes.len() {
            let len = next_len(addr, done, bytes.len() - done);
            if let Err(refusal) = self.read_on(pid, addr, done, &mut bytes[done..done + len]) {
                return Progress {
                    done,
                    stopped: Some(refusal),
                };
            }
            done += len;
        }
        Progress {
            done,
            stopped: None,
        }
    }

    /// Replaces attached memory from an address on, page by page, until a call is refused. An address of 2^64
    /// or more is Sigsegv, without a call.
    pub fn write(&mut self, pid: u32, addr: u64, bytes: &[u8]) -> Progress
        ensures { WrittenTo self.old.system pid addr bytes.now result self.new.system }
    {
        let mut done = 0;
        while done < bytes.len() {
            let len = next_len(addr, done, bytes.len() - done);
            if let Err(refusal) = self.write_on(pid, addr, done, &bytes[done..done + len]) {
                return Progress {
                    done,
                    stopped: Some(refusal),
                };
            }
            done += len;
        }
        Progress {
            done,
            stopped: None,
        }
    }
}

//! Accesses without a call's record: bytes go straight between the frames and the caller's buffer. Each is
//! the step of the call, and is counted as one. A host that lends pages asks [`System::make_ready`] before each
//! of them; then each page on loan stays in its frame.
ghost use Rattle.std.specs.Prelude.{◌≡◌, ◌<◌, ◌≤◌, true, false, length, OnErr};
ghost use Rattle.shm_base.specs.declared.call.Call.TheVariants as call;
ghost use Rattle.shm_base.specs.declared.call.Reply.TheVariants.{Bytes, Number};
ghost use Rattle.shm_base.specs.declared.paging.TheConstants.{PAGE_SIZE};
ghost use Rattle.shm_fault.specs.Acting.{FitsRoom, size_of, writes};
ghost use Rattle.shm_life.specs.Accessing.{call_of, reply_of};
ghost use Rattle.shm_life.specs.MachineView.{done, replied, reply_in};
ghost use Rattle.shm_life.specs.SystemState.{Replied, most_calls};
ghost use Rattle.shm_life.specs.Lending.{KeepsLoans, pages_asked};

use crate::system::System;
use shm_base::Errno;
use shm_fault::Act;
use shm_pager_core::Pager;

impl<P: Pager> System<P> {
    /// The access of a process that does an act at the bytes from an address on. If `there` is as long as they
    /// are, it gets the old ones.
    ///
    /// - Esrch: the process is not live.
    /// - Sigsegv: an address has no piece, or a read-only one and the act needs more.
    /// - Sigbus: a pager failed.
    ///
    /// If it is refused, neither a byte nor `there` changed.
    #[inline(always)]
    pub fn access(
        &mut self,
        pid: u32,
        addr: u64,
        act: Act<'_>,
        there: &mut [u8],
    ) -> Result<(), Errno>
        requires room { self.old.calls < most_calls }
        requires fits { FitsRoom act (length there.old) }
        requires size { let size = size_of act (length there.old) in (1 ≤ size) × (size ≤ PAGE_SIZE) }
        ensures replied { let room = length there.old in
            let reply = reply_in (reply_of act.entry room there.new) result in
            Replied self.old pid (call_of act.entry addr room) reply self.new }
        ensures kept { OnErr result (there.new ≡ there.old) }
        ensures loans { let size = size_of act.entry (length there.old) in
            let pages = pages_asked self.old.machine pid addr size (writes act.entry) in
            KeepsLoans pages self.old.memory self.new.memory }
    {
        let done = self.kernel.access_by(pid, addr, act, there);
        self.calls += 1;
        done
    }

    /// A load of a process straight into a buffer of 1 to 4,096 bytes.
    ///
    /// - Esrch: the process is not live.
    /// - Sigsegv: an address has no piece.
    /// - Sigbus: a pager failed.
    ///
    /// If it is refused, the buffer is unchanged.
    #[inline(always)]
    pub fn load_into(&mut self, pid: u32, addr: u64, out: &mut [u8]) -> Result<(), Errno>
        requires room { self.old.calls < most_calls }
        requires size { (1 ≤ length out.old) × (length out.old ≤ PAGE_SIZE) }
        ensures replied { let load = call.Load addr (length out.old) in
            Replied self.old pid load (reply_in (Bytes out.new) result) self.new }
        ensures kept { OnErr result (out.new ≡ out.old) }
        ensures loans { let pages = pages_asked self.old.machine pid addr (length out.old) false in
            KeepsLoans pages self.old.memory self.new.memory }
    {
        self.access(pid, addr, Act::Nothing, out)
    }

    /// A store of a process of 1 to 4,096 bytes.
    ///
    /// - Esrch: the process is not live.
    /// - Sigsegv: an address has no piece, or a read-only one.
    /// - Sigbus: a pager failed.
    ///
    /// If it is refused, no byte changed.
    #[inline(always)]
    pub fn store_from(&mut self, pid: u32, addr: u64, bytes: &[u8]) -> Result<(), Errno>
        requires room { self.old.calls < most_calls }
        requires size { (1 ≤ length bytes.now) × (length bytes.now ≤ PAGE_SIZE) }
        ensures replied { Replied self.old pid (call.Store bytes.now addr) (replied done result) self.new }
        ensures loans { let pages = pages_asked self.old.machine pid addr (length bytes.now) true in
            KeepsLoans pages self.old.memory self.new.memory }
    {
        self.access(pid, addr, Act::Put(bytes), &mut [])
    }

    /// An addition of a process to eight little-endian bytes, modulo 2^64. Returns the old number. Refused as
    /// a store is.
    #[inline(always)]
    pub fn add_to(&mut self, pid: u32, addr: u64, add: u64) -> Result<u64, Errno>
        requires room { self.old.calls < most_calls }
        ensures replied { Replied self.old pid (call.Xadd addr add) (replied Number result) self.new }
        ensures loans { let pages = pages_asked self.old.machine pid addr 8 true in
            KeepsLoans pages self.old.memory self.new.memory }
    {
        let mut there = [0; 8];
        let added = self.access(pid, addr, Act::Add(add), &mut there);
        added.and(Ok(u64::from_le_bytes(there)))
    }

    /// Replaces 1 to 4,096 bytes in one step (xchg); `before` gets the old ones.
    ///
    /// - Esrch: the process is not live.
    /// - Sigsegv: an address has no piece, or a read-only one.
    /// - Sigbus: a pager failed.
    ///
    /// If it is refused, neither a byte nor `before` changed.
    pub fn exchange(
        &mut self,
        pid: u32,
        addr: u64,
        bytes: &[u8],
        before: &mut [u8],
    ) -> Result<(), Errno>
        requires room { self.old.calls < most_calls }
        requires size { (1 ≤ length bytes.now) × (length bytes.now ≤ PAGE_SIZE) }
        requires before { length before.old ≡ length bytes.now }
        ensures replied { let reply = reply_in (Bytes before.new) result in
            Replied self.old pid (call.Exchange bytes.now addr) reply self.new }
        ensures kept { OnErr result (before.new ≡ before.old) }
        ensures loans { let pages = pages_asked self.old.machine pid addr (length bytes.now) true in
            KeepsLoans pages self.old.memory self.new.memory }
    {
        self.access(pid, addr, Act::Put(bytes), before)
    }

    /// As [`System::exchange`], but replaces the bytes only if they equal the expected ones (cmpxchg).
    /// `before` gets the old ones in both cases, so the caller knows which it was.
    pub fn compare_exchange(
        &mut self,
        pid: u32,
        addr: u64,
        expected: &[u8],
        bytes: &[u8],
        before: &mut [u8],
    ) -> Result<(), Errno>
        requires room { self.old.calls < most_calls }
        requires size { (1 ≤ length bytes.now) × (length bytes.now ≤ PAGE_SIZE) }
        requires before { length before.old ≡ length bytes.now }
        ensures replied { let compare = call.CompareExchange expected.now bytes.now addr in
            Replied self.old pid compare (reply_in (Bytes before.new) result) self.new }
        ensures kept { OnErr result (before.new ≡ before.old) }
        ensures loans { let pages = pages_asked self.old.machine pid addr (length bytes.now) true in
            KeepsLoans pages self.old.memory self.new.memory }
    {
        self.access(pid, addr, Act::PutIfEqual { expected, bytes }, before)
    }
}

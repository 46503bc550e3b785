//! Loads, stores, additions and exchanges: the bytes go straight between the machine's memory and the
//! caller's buffer. While pages are on loan, an access that would touch one or send one out of its frame is
//! refused with [`Refusal::Lent`].
ghost use Rattle.std.specs.Prelude.{◌≡◌, ◌<◌, ◌≤◌, true, false, length, IfErr, OnErr, OnOk};
ghost use Rattle.shm_base.specs.declared.call.Call.TheVariants as call;
ghost use Rattle.shm_base.specs.declared.call.Reply.TheVariants as reply;
ghost use Rattle.shm_base.specs.declared.paging.TheConstants.{PAGE_SIZE};
ghost use Rattle.shm_fault.specs.Acting.{FitsRoom, size_of};
ghost use Rattle.shm_life.specs.Lending.{pages_asked};
ghost use Rattle.shm_life.specs.SystemState.{most_calls};
ghost use Rattle.shm_machine.specs.Answered.{as_reply, done};
ghost use Rattle.shm_machine.specs.Ready.{AccessedBy, Did, deed, IsReady, NotMade, refusal_of};

use crate::machine::Machine;
use crate::refusal::Refusal;
use shm_base::Errno;
use shm_fault::Act;
use shm_life::NotReady;

// The refusal of an access that is not ready.
fn refusal_of(why: NotReady) -> Refusal
    ensures { result ≡ refusal_of why }
{
    match why {
        NotReady::Lent => Refusal::Lent,
        NotReady::Sigbus => Refusal::Refused(Errno::Sigbus),
    }
}

impl Machine {
    // Makes way for an access, if pages are on loan.
    #[inline(always)]
    fn make_ready(&mut self, pid: u32, addr: u64, len: u64, write: bool) -> Result<(), Refusal>
        requires { (1 ≤ len) × (len ≤ PAGE_SIZE) }
        ensures ok { let pages = pages_asked self.old.system.machine pid addr len write in
            OnOk result (IsReady pages self.old.system self.new.system) }
        ensures room { OnOk result (self.new.system.calls < most_calls) }
        ensures err { let pages = pages_asked self.old.system.machine pid addr len write in
            IfErr result (λ e. NotMade pages e self.old.system self.new.system) }
    {
        if self.system.calls() == u64::MAX {
            return Err(Refusal::Spent);
        }
        match self.system.make_ready(pid, addr, len, write) {
            Ok(()) => Ok(()),
            Err(why) => Err(refusal_of(why)),
        }
    }

    /// The access of a process that does an act at the bytes from an address on. If `there` is as long as they
    /// are, it gets the old ones. If it is refused, neither a byte nor `there` changed.
    #[inline(always)]
    pub fn access(
        &mut self,
        pid: u32,
        addr: u64,
        act: Act<'_>,
        there: &mut [u8],
    ) -> Result<(), Refusal>
        requires fits { FitsRoom act (length there.old) }
        requires size { let size = size_of act (length there.old) in (1 ≤ size) × (size ≤ PAGE_SIZE) }
        ensures did { let asked = deed pid addr act.entry (length there.old) in
            Did asked self.old.system result there.new self.new.system }
        ensures kept { OnErr result (there.new ≡ there.old) }
    {
        let len = act.size(there.len()) as u64;
        if let Err(refusal) = self.make_ready(pid, addr, len, act.writes()) {
            return Err(refusal);
        }
        match self.system.access(pid, addr, act, there) {
            Ok(()) => Ok(()),
            Err(errno) => Err(Refusal::Refused(errno)),
        }
    }

    /// Reads 1 to 4,096 bytes of attached memory into the buffer in one step. As [`Machine::load`], but
    /// without another copy. If it is refused, the buffer is unchanged.
    #[inline(always)]
    pub fn load_into(&mut self, pid: u32, addr: u64, bytes: &mut [u8]) -> Result<(), Refusal>
        requires size { (1 ≤ length bytes.old) × (length bytes.old ≤ PAGE_SIZE) }
        ensures answered { let size = length bytes.old in
            let pages = pages_asked self.old.system.machine pid addr size false in
            let answer = as_reply (λ _. reply.Bytes bytes.new) result in
            AccessedBy pages self.old.system pid (call.Load addr size) answer self.new.system }
        ensures kept { OnErr result (bytes.new ≡ bytes.old) }
        ensures size { length bytes.new ≡ length bytes.old }
    {
        self.access(pid, addr, Act::Nothing, bytes)
    }

    /// Replaces 1 to 4,096 bytes of attached memory in one step.
    #[inline(always)]
    pub fn store(&mut self, pid: u32, addr: u64, bytes: &[u8]) -> Result<(), Refusal>
        requires size { (1 ≤ length bytes.now) × (length bytes.now ≤ PAGE_SIZE) }
        ensures { let pages = pages_asked self.old.system.machine pid addr (length bytes.now) true in
            let store = call.Store bytes.now addr in
            AccessedBy pages self.old.system pid store (as_reply done result) self.new.system }
    {
        self.access(pid, addr, Act::Put(bytes), &mut [])
    }

    /// Adds to eight little-endian bytes of attached memory, modulo 2^64, and returns the old number.
    #[inline(always)]
    pub fn add(&mut self, pid: u32, addr: u64, add: u64) -> Result<u64, Refusal>
        ensures { let pages = pages_asked self.old.system.machine pid addr 8 true in
            let answer = as_reply reply.Number result in
            AccessedBy pages self.old.system pid (call.Xadd addr add) answer self.new.system }
    {
        let mut there = [0; 8];
        let added = self.access(pid, addr, Act::Add(add), &mut there);
        added.and(Ok(u64::from_le_bytes(there)))
    }

    /// Replaces 1 to 4,096 bytes in one step (xchg); `before` gets the old ones. Refused as a store is; then
    /// `before` is unchanged.
    pub fn exchange(
        &mut self,
        pid: u32,
        addr: u64,
        bytes: &[u8],
        before: &mut [u8],
    ) -> Result<(), Refusal>
        requires size { (1 ≤ length bytes.now) × (length bytes.now ≤ PAGE_SIZE) }
        requires before { length before.old ≡ length bytes.now }
        ensures answered { let pages = pages_asked self.old.system.machine pid addr (length bytes.now) true in
            let answer = as_reply (λ _. reply.Bytes before.new) result in
            AccessedBy pages self.old.system pid (call.Exchange bytes.now addr) answer self.new.system }
        ensures kept { OnErr result (before.new ≡ before.old) }
    {
        self.access(pid, addr, Act::Put(bytes), before)
    }

    /// As [`Machine::exchange`], but replaces the bytes only if they equal the expected ones (cmpxchg).
    /// `before` gets the old ones in both cases.
    pub fn compare_exchange(
        &mut self,
        pid: u32,
        addr: u64,
        expected: &[u8],
        bytes: &[u8],
        before: &mut [u8],
    ) -> Result<(), Refusal>
        requires size { (1 ≤ length bytes.now) × (length bytes.now ≤ PAGE_SIZE) }
        requires before { length before.old ≡ length bytes.now }
        ensures answered { let pages = pages_asked self.old.system.machine pid addr (length bytes.now) true in
            let compare = call.CompareExchange expected.now bytes.now addr in
            let answer = as_reply (λ _. reply.Bytes before.new) result in
            AccessedBy pages self.old.system pid compare answer self.new.system }
        ensures kept { OnErr result (before.new ≡ before.old) }
    {
        self.access(pid, addr, Act::PutIfEqual { expected, bytes }, before)
    }
}

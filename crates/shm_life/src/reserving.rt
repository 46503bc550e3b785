//! Ranges of a process that the host reserves, such as the emulator's own mappings of its guest. No process calls
//! this, and only attaches look at the ranges.
ghost use Rattle.std.specs.Prelude.{◌≡◌, ◌<◌, true, Some, None, IfOk, IfSome, OnErr, is_ok, length};
ghost use Rattle.shm_base.specs.Callers.{caller_of};
ghost use Rattle.shm_base.specs.Guest as flat;
ghost use Rattle.shm_base.specs.Guest.{left_by};
ghost use Rattle.shm_life.specs.Reserving.{IsNotReserved, Released, Reserved};

use crate::kernel::Kernel;
use crate::system::System;
use shm_areas::is_reserved;
use shm_base::{END_ADDRESS, HostMemory, HostRange, LOWEST_ADDRESS, PAGE_SIZE, RangeRefusal};
use shm_pager_core::Pager;

// Whether it is whole pages of the addresses that can be attached, at least one.
fn is_range(range: HostRange) -> bool
    ensures { result ≡ flat.is_range range }
{
    range.from % PAGE_SIZE == 0
        && range.to % PAGE_SIZE == 0
        && range.from < range.to
        && LOWEST_ADDRESS <= range.from
        && range.to <= END_ADDRESS
}

// The position of a range.
fn position_of(ranges: &[HostRange], range: HostRange) -> Option<usize>
    ensures value { result ≡ flat.position_from 0 range ranges.now }
    ensures bound { IfSome result (λ i. i < length ranges.now) }
{
    for (i, other) in ranges.iter().enumerate() {
        if other.pid == range.pid && other.from == range.from && other.to == range.to {
            return Some(i);
        }
    }
    None
}

impl<P: Pager> Kernel<P> {
    // Whether the range meets a piece of its process, if that is live, or another range of it.
    fn is_range_taken(&self, range: HostRange) -> bool
        requires { flat.is_range range ≡ true }
        ensures { result ≡ flat.is_range_taken self.now.flat range }
    {
        if let Some(caller) = self.spaces.caller(range.pid) {
            if !self
                .spaces
                .space(&caller)
                .met(range.from, range.to)
                .is_empty()
            {
                return true;
            }
        }
        is_reserved(&self.host_ranges, range.pid, range.from, range.to)
    }

    fn reserve(&mut self, range: HostRange) -> Result<Result<(), RangeRefusal>, HostMemory>
        ensures outcome { IfOk result (λ r. flat.reserves self.old.flat range ≡ left_by r self.new.flat) }
        ensures refused { IfOk result (λ r. OnErr r (self.new ≡ self.old)) }
        ensures err { OnErr result (self.new ≡ self.old) }
        ensures granted { OnErr result (is_ok (flat.reserves self.old.flat range) ≡ true) }
        ensures memory { self.new.memory ≡ self.old.memory }
    {
        if !is_range(range) {
            return Ok(Err(RangeRefusal::BadRange));
        }
        if self.is_range_taken(range) {
            return Ok(Err(RangeRefusal::RangeTaken));
        }
        self.host_ranges.push(range)?;
        Ok(Ok(()))
    }

    fn release(&mut self, range: HostRange) -> Result<(), RangeRefusal>
        ensures outcome { flat.releases self.old.flat range ≡ left_by result self.new.flat }
        ensures refused { OnErr result (self.new ≡ self.old) }
        ensures memory { self.new.memory ≡ self.old.memory }
    {
        let Some(i) = position_of(&self.host_ranges, range) else {
            return Err(RangeRefusal::NoRange);
        };
        self.host_ranges.remove(i);
        Ok(())
    }
}

impl<P: Pager> System<P> {
    /// Reserves a range of a process's addresses. From now on an attach at an address that the process gives
    /// fails with EINVAL if it meets the range, unless SHM_REMAP is given, and an attach at a null address
    /// passes it. Nothing else looks at the range: it stays when the process calls munmap, fork, exec or exit, and
    /// the process need not exist. Errors: `BadRange` or `RangeTaken`; or the host refused memory, and nothing
    /// changed.
    pub fn reserve(&mut self, range: HostRange) -> Result<Result<(), RangeRefusal>, HostMemory>
        ensures ok { IfOk result (λ r. Reserved self.old range r self.new) }
        ensures err { OnErr result (IsNotReserved self.old range self.new) }
    {
        if let Err(refusal) = self.kernel.reserve(range)? {
            return Ok(Err(refusal));
        }
        Ok(Ok(()))
    }

    /// Releases a reserved range, which is named exactly as it was reserved. Error: `NoRange`; then nothing
    /// changed.
    pub fn release(&mut self, range: HostRange) -> Result<(), RangeRefusal>
        ensures { Released self.old range result self.new }
    {
        self.kernel.release(range)?;
        Ok(())
    }
}

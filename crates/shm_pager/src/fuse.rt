//! A pager that fails at chosen calls.
ghost use Rattle.std.specs.Prelude.{◌≡◌, ◌<◌, ◌≤◌, ◌||◌, [], ◌∷◌, ◌++◌, length, set, get_or, replicate, true, false, not, ◌&&◌, if◌then◌else◌, is_ok, IfOk, OnErr, OnOk};
ghost use Rattle.shm_base.specs.Page.{zero_page};
ghost use Rattle.shm_pager_core.specs.Pages.{last_count, next_count, pager_seen, served, SlotUnknown, CountsErr, KeepsMost, TriesWrite, TriesRead};
ghost use Rattle.shm_pager_core.specs.Failing.{sooner, place_after, places, with_place};
ghost use Rattle.shm_pager.specs.Fuse.{after_read, after_write, new_fuse, is_bad_slot, is_listed, is_past, read_is_bad, write_is_bad, scorched_page, fuse_calls, fuse_most, without_slot};
ghost use Rattle.shm_pager.specs.Areas.{fuse_seen};
ghost use Rattle.shm_pager_core.specs.Failing.{FailsLater, IsRefusedFailure, calls_failing, endless, is_to_come};
ghost use Rattle.shm_pager.specs.Failing.{will_fail, with_bad_slot};

use crate::asked::read_if;
use shm_base::{HostMemory, PAGE_BYTES};
use shm_pager_core::{
    ClonePager, ComingFailure, FailPager, FailRefused, Pager, PagerFault, try_write,
};
use std::alloc::AllocError;
use std::marker::Model;

// The byte that a failing write leaves throughout its slot.
const SCORCH: u8 = 0xa5;

/// A pager around another one. Its reads and writes fail at the listed places, and from the place on from which
/// each fails; so do reads of a bad slot, until it is written. Reads and writes are counted apart, each from 1; a
/// count stops at `u64::MAX`. Failures of the inner pager are passed on. An inner pager whose own count of
/// failures is `u64::MAX` is not called any more, and each such call fails.
pub struct FusePager<P: Pager> {
    inner: P,
    bad_reads: Vec<u64>,
    bad_writes: Vec<u64>,
    reads_end: Option<u64>,
    writes_end: Option<u64>,
    bad_slots: Vec<u32>,
    had_bad_slots: bool,
    reads: u64,
    writes: u64,
    failed: u64,
}

impl<P: Pager> Model for FusePager<P> {
    ghost use Rattle.shm_pager_core.specs.Pages.{pager_seen};
    ghost use Rattle.shm_pager.specs.Fuse.{FuseView};

    ghost Value = { FuseView };

    ghost view = { λ f. record {
      inner = pager_seen P.content P.failed P.most P.calls f.inner;
      side = record {
        bad_reads = f.bad_reads.items;
        bad_writes = f.bad_writes.items;
        reads_end = f.reads_end;
        writes_end = f.writes_end;
        bad_slots = f.bad_slots.items;
        had_bad_slots = f.had_bad_slots;
        reads = f.reads;
        writes = f.writes;
      };
      failed = f.failed;
    } };
}

// Whether every call from some place on fails, and this is one of them.
fn is_past(end: Option<u64>, call: u64) -> bool
    ensures { result ≡ is_past end call }
{
    match end {
        Some(end) => end <= call,
        None => false,
    }
}

// Counts the next call, and returns whether it fails.
fn next_call(listed: &Vec<u64>, end: Option<u64>, call: &mut u64) -> bool
    ensures call { call.new ≡ next_count call.old }
    ensures listed { result
        ≡ (is_listed listed.now.items (next_count call.old) || is_past end (next_count call.old)) }
{
    *call = call.saturating_add(1);
    listed.contains(call) || is_past(end, *call)
}

// A slot that was written can be read again.
fn mend(slots: &mut Vec<u32>, slot: u32)
    ensures { slots.new.items ≡ without_slot slot slots.old.items }
{
    slots.retain(|&bad| bad != slot);
}

// The lower of this place and the one from which on every call fails.
fn sooner(end: Option<u64>, place: u64) -> u64
    ensures { result ≡ sooner end place }
{
    match end {
        Some(end) => end.min(place),
        None => place,
    }
}

// Lists a call to come, after this many calls; if it is lasting, each later one too.
fn list_call(
    listed: &mut Vec<u64>,
    end: &mut Option<u64>,
    calls: u64,
    failure: &ComingFailure,
) -> Result<(), AllocError>
    ensures ok { let place = place_after calls failure.now.call in
        OnOk result (places listed.new.items end.new
        ≡ with_place failure.now.is_lasting place (places listed.old.items end.old)) }
    ensures err { OnErr result ((listed.new.items ≡ listed.old.items) × (end.new ≡ end.old)) }
{
    let place = calls.saturating_add(failure.call);
    if failure.is_lasting {
        *end = Some(sooner(*end, place));
        return Ok(());
    }
    listed.push(place)?;
    Ok(())
}

impl<P: Pager> FusePager<P> {
    /// A pager whose listed calls fail.
    pub fn new(inner: P, bad_reads: Vec<u64>, bad_writes: Vec<u64>) -> FusePager<P>
        ensures { let view = pager_seen P.content P.failed P.most P.calls in
            result ≡ new_fuse (view inner) bad_reads.items bad_writes.items 0 }
    {
        FusePager::new_at(inner, bad_reads, bad_writes, 0)
    }

    /// As [`FusePager::new`], but for a pager that has counted this many failures already. At `u64::MAX` it
    /// can't count any more, and [`try_read`](crate::try_read) and [`try_write`](crate::try_write) no longer
    /// call it.
    pub fn new_at(
        inner: P,
        bad_reads: Vec<u64>,
        bad_writes: Vec<u64>,
        failures: u64,
    ) -> FusePager<P>
        ensures { let view = pager_seen P.content P.failed P.most P.calls in
            result ≡ new_fuse (view inner) bad_reads.items bad_writes.items failures }
    {
        let bad_slots = Vec::new(*bad_reads.allocator());
        FusePager {
            inner,
            bad_reads,
            bad_writes,
            reads_end: None,
            writes_end: None,
            bad_slots,
            had_bad_slots: false,
            reads: 0,
            writes: 0,
            failed: failures,
        }
    }

    // Whether the slot can't be read until it is written.
    fn is_bad_slot(&self, slot: u32) -> bool
        ensures { result ≡ is_bad_slot self.now slot }
    {
        self.had_bad_slots && self.bad_slots.contains(&slot)
    }

    /// The bad slots, with one more.
    pub(crate) fn bad_slots_with(&self, slot: u32) -> Result<Vec<u32>, AllocError>
        ensures { IfOk result (λ slots. slots.items ≡ self.now.side.bad_slots ++ slot ∷ []) }
    {
        let mut slots = self.bad_slots.clone()?;
        slots.push(slot)?;
        Ok(slots)
    }

    /// Makes these slots bad, and no others.
    pub(crate) fn set_bad_slots(&mut self, slots: Vec<u32>)
        ensures { self.new ≡ record self.old { side = record self.old.side { bad_slots = slots.items; had_bad_slots = true } } }
    {
        self.bad_slots = slots;
        self.had_bad_slots = true;
    }

    /// Makes a call to come fail, whatever its side. AllocError: the host refused memory, and nothing changed.
    pub(crate) fn list_failure(&mut self, failure: &ComingFailure) -> Result<(), AllocError>
        ensures ok { OnOk result (self.new ≡ will_fail failure.now self.old) }
        ensures later { 1 ≤ failure.now.call →
            OnOk result (FailsLater failure.now (fuse_seen self.old) (fuse_seen self.new)) }
        ensures err { OnErr result (self.new ≡ self.old) }
    {
        if failure.is_write {
            list_call(
                &mut self.bad_writes,
                &mut self.writes_end,
                self.writes,
                failure,
            )
        } else {
            list_call(
                &mut self.bad_reads,
                &mut self.reads_end,
                self.reads,
                failure,
            )
        }
    }
}

impl<P: Pager> Pager for FusePager<P> {
    ghost content = { λ f. f.inner.pages };

    ghost failed = { λ f. f.failed };

    /// Its count, the listed places that its counts of calls have not passed, and the failures that its pager
    /// may still count.
    ghost most = { fuse_most };

    ghost calls = { fuse_calls };

    fn slots(&self) -> u32 {
        self.inner.slots()
    }

    fn failures(&self) -> u64 {
        self.failed
    }

    /// A listed write first fills the slot with the byte 0xa5. After a write a bad slot can be read again.
    fn write(&mut self, slot: u32, page: &[u8; PAGE_BYTES]) -> Result<(), PagerFault>
        requires there { slot < length self.old.inner.pages }
        requires countable { self.old.failed < last_count }
        ensures others { SlotUnknown slot self.old.inner.pages self.new.inner.pages }
        ensures page { IfOk result (λ _.
            self.new.inner.pages ≡ set self.old.inner.pages slot page.now) }
        ensures failed { CountsErr result self.old.failed self.new.failed }
        ensures most { KeepsMost result (fuse_most self.old) (fuse_most self.new) }
        ensures bounded { self.new.failed ≤ fuse_most self.new }
        ensures cause { is_ok result
            ≡ (not (write_is_bad self.old) && served self.old.inner self.new.inner) }
        ensures inner { let given = (if write_is_bad self.old then scorched_page else page.now) in
            TriesWrite slot given self.old.inner self.new.inner }
        ensures rest { self.new ≡ record self.old {
          inner = self.new.inner;
          side = after_write slot self.old.side;
          failed = self.new.failed;
        } }
    {
        let bad = next_call(&self.bad_writes, self.writes_end, &mut self.writes);
        let page = if bad { &[SCORCH; PAGE_BYTES] } else { page };
        mend(&mut self.bad_slots, slot);
        let written = try_write(&mut self.inner, slot, page).is_ok();
        if written && !bad {
            return Ok(());
        }
        self.failed += 1;
        Err(PagerFault)
    }

    /// A listed read, or one of a bad slot, does not call the inner pager.
    fn read(&mut self, slot: u32, page: &mut [u8; PAGE_BYTES]) -> Result<(), PagerFault>
        requires there { slot < length self.old.inner.pages }
        requires countable { self.old.failed < last_count }
        ensures content { self.new.inner.pages ≡ self.old.inner.pages }
        ensures page { IfOk result (λ _. get_or self.old.inner.pages slot [] ≡ page.new) }
        ensures failed { CountsErr result self.old.failed self.new.failed }
        ensures most { KeepsMost result (fuse_most self.old) (fuse_most self.new) }
        ensures bounded { self.new.failed ≤ fuse_most self.new }
        ensures cause { is_ok result
            ≡ (not (read_is_bad self.old slot) && served self.old.inner self.new.inner) }
        ensures inner { read_is_bad self.old slot ≡ false → TriesRead self.old.inner self.new.inner }
        ensures unasked { read_is_bad self.old slot ≡ true → self.new.inner ≡ self.old.inner }
        ensures rest { self.new ≡ record self.old {
          inner = self.new.inner;
          side = after_read self.old.side;
          failed = self.new.failed;
        } }
    {
        let is_bad_slot = self.is_bad_slot(slot);
        let bad = next_call(&self.bad_reads, self.reads_end, &mut self.reads) || is_bad_slot;
        if read_if(!bad, &mut self.inner, slot, page) {
            return Ok(());
        }
        self.failed += 1;
        Err(PagerFault)
    }

    fn discard(&mut self, slot: u32)
        requires { slot < length self.old.inner.pages }
        ensures content { SlotUnknown slot self.old.inner.pages self.new.inner.pages }
        ensures rest { self.new ≡ record self.old {
          inner = record self.old.inner { pages = self.new.inner.pages };
        } }
    {
        self.inner.discard(slot);
    }

    fn wipe(&mut self)
        ensures { self.new ≡ record self.old {
          inner = record self.old.inner { pages = replicate (length self.old.inner.pages) zero_page };
        } }
    {
        self.inner.wipe();
    }
}

impl<P: Pager> FailPager for FusePager<P> {
    ghost has_right = { λ _. false };

    fn fail(&mut self, failure: &ComingFailure) -> Result<(), FailRefused>
        ensures ok { OnOk result (FailsLater failure.now (fuse_seen self.old) (fuse_seen self.new)) }
        ensures exact { OnOk result (self.new ≡ will_fail failure.now self.old) }
        ensures calls { OnOk result
            (fuse_calls self.new ≡ calls_failing failure.now (fuse_calls self.old)) }
        ensures granted { OnOk result (is_to_come false failure.now ≡ true) }
        ensures err { OnErr result (self.new ≡ self.old) }
        ensures cause { IsRefusedFailure false failure.now result }
    {
        if !failure.is_to_come(false) {
            return Err(FailRefused::NotThere);
        }
        match self.list_failure(failure) {
            Ok(()) => Ok(()),
            Err(_) => Err(FailRefused::HostMemory),
        }
    }

    fn fail_slot(&mut self, slot: u32) -> Result<(), HostMemory>
        requires { slot < length self.old.inner.pages }
        ensures ok { OnOk result (fuse_seen self.new ≡ endless slot (fuse_seen self.old)) }
        ensures exact { OnOk result (self.new ≡ with_bad_slot slot self.old) }
        ensures err { OnErr result (self.new ≡ self.old) }
    {
        let slots = self.bad_slots_with(slot)?;
        self.set_bad_slots(slots);
        Ok(())
    }
}

impl<P: ClonePager> ClonePager for FusePager<P> {
    fn try_clone(&self) -> Result<FusePager<P>, HostMemory> {
        Ok(FusePager {
            inner: self.inner.try_clone()?,
            bad_reads: self.bad_reads.clone()?,
            bad_writes: self.bad_writes.clone()?,
            reads_end: self.reads_end,
            writes_end: self.writes_end,
            bad_slots: self.bad_slots.clone()?,
            had_bad_slots: self.had_bad_slots,
            reads: self.reads,
            writes: self.writes,
            failed: self.failed,
        })
    }
}

impl<P: Pager> Drop for FusePager<P> {
    fn drop(mut self) {
        self.wipe();
        let FusePager {
            inner: _,
            bad_reads: _,
            bad_writes: _,
            reads_end: _,
            writes_end: _,
            bad_slots: _,
            had_bad_slots: _,
            reads: _,
            writes: _,
            failed: _,
        } = self;
    }
}

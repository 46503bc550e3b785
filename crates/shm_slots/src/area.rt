//! One swap area: its pager while it has one, and the owner of each slot.
ghost use Rattle.std.specs.Prelude.{◌≡◌, ◌<◌, ◌≤◌, [], length, get_or, Some, None, IfOk, IfErr, OnErr, OnOk};
ghost use Rattle.shm_pager_core.specs.Pages.{pager_seen, SlotUnknown};
ghost use Rattle.shm_slots.specs.Owners.{IsLeastFree};

use crate::owners::Owners;
use shm_base::{HostMemory, PAGE_BYTES, PageRef};
use shm_pager_core::{
    ClonePager, ComingFailure, FailPager, FailRefused, Pager, PagerFault, try_read, try_write,
};
use std::alloc::{AllocError, Global};
use std::marker::Model;

/// A swap area. It keeps its pager's count of failures at the start and, once the pager is gone, the last
/// one.
pub(crate) struct Area<P: Pager> {
    pager: Option<P>,
    owners: Owners,
    start: u64,
    last: u64,
}

impl<P: Pager> Drop for Area<P> {
    fn drop(self) {
        let Area {
            pager: _,
            owners: _,
            start: _,
            last: _,
        } = self;
    }
}

impl<P: Pager> Model for Area<P> {
    ghost use Rattle.std.specs.Prelude.{is_some};
    ghost use Rattle.shm_slots.specs.View.{AreaView, calls_of, content_of, count_of, IsArea, IsCountOf};

    ghost Value = { AreaView };

    ghost view = { λ a. record {
      here = is_some a.pager;
      pages = content_of P.content a.pager;
      owners = a.owners;
      start = a.start;
      failed = count_of P.failed a.last a.pager;
      most = count_of P.most a.last a.pager;
      calls = calls_of P.calls a.pager;
    } };

    ghost invariant = { λ a. IsArea (record {
      here = is_some a.pager;
      pages = content_of P.content a.pager;
      owners = a.owners;
      start = a.start;
      failed = count_of P.failed a.last a.pager;
      most = count_of P.most a.last a.pager;
      calls = calls_of P.calls a.pager;
    }) × IsCountOf P.failed a.start × IsCountOf P.failed a.last };
}

impl<P: Pager> Area<P> {
    ghost use Rattle.shm_base.specs.declared.bounds.TheConstants.{MOST_SLOTS};
    ghost use Rattle.shm_slots.specs.View.{with_calls, with_page, with_owner, AfterReadFault, AfterWriteFault, is_spent, rise, off, fresh, size_of, IsArea, IsCounted};

    /// An area with no slot owned.
    pub(crate) fn new(alloc: Global, pager: P) -> Result<Area<P>, AllocError>
        requires { length (P.content pager) ≤ MOST_SLOTS }
        ensures made { IfOk result (λ a. a ≡ fresh (pager_seen P.content P.failed P.most P.calls pager)) }
        ensures sound { IfOk result IsArea }
    {
        let start = pager.failures();
        let owners = Owners::new(alloc, pager.slots())?;
        Ok(Area {
            pager: Some(pager),
            owners,
            start,
            last: start,
        })
    }

    /// The pager's count of failures, or the last one.
    pub(crate) fn count(&self) -> u64
        ensures { result ≡ self.now.failed }
    {
        match &self.pager {
            Some(pager) => pager.failures(),
            None => self.last,
        }
    }

    /// Whether the count is at its last value.
    pub(crate) fn is_spent(&self) -> bool
        ensures { result ≡ is_spent self.now }
    {
        self.count() == u64::MAX
    }

    /// How much the pager's count has risen.
    pub(crate) fn rise(&self) -> u64
        ensures rise { result ≡ rise self.now }
        ensures counted { IsCounted P.failed self.now }
    {
        self.count() - self.start
    }

    /// The number of slots, if the area is active.
    pub(crate) fn size(&self) -> Option<u32>
        ensures { result ≡ size_of self.now }
    {
        Some(self.pager.as_ref()?.slots())
    }

    /// The owner of each slot.
    pub(crate) fn owners(&self) -> &Owners
        ensures { result.now ≡ self.now.owners }
    {
        &self.owners
    }

    /// Gives the least free slot an owner.
    pub(crate) fn take(&mut self, slot: u32, owner: PageRef)
        requires { IsLeastFree self.old.owners slot }
        ensures taken { self.new ≡ with_owner self.old slot (Some owner) }
        ensures sound { IsArea self.new }
    {
        self.owners.take(slot, owner);
    }

    /// Frees a slot, and tells the pager that its page is no longer needed.
    pub(crate) fn give(&mut self, slot: u32)
        requires { slot < length self.old.pages }
        ensures pages { SlotUnknown slot self.old.pages self.new.pages }
        ensures rest { self.new ≡ record (with_owner self.old slot None) { pages = self.new.pages } }
        ensures sound { IsArea self.new }
    {
        if let Some(pager) = &mut self.pager {
            pager.discard(slot);
        }
        self.owners.give(slot);
    }

    /// Writes a page to a slot.
    pub(crate) fn write(&mut self, slot: u32, page: &[u8; PAGE_BYTES]) -> Result<(), PagerFault>
        requires { slot < length self.old.pages }
        ensures ok { IfOk result (λ _.
            self.new ≡ with_calls (with_page self.old slot page.now) self.new.calls) }
        ensures err { IfErr result (λ _. AfterWriteFault slot self.old self.new) }
        ensures rest { self.new ≡ record self.old {
          pages = self.new.pages;
          failed = self.new.failed;
          most = self.new.most;
          calls = self.new.calls;
        } }
        ensures counts { self.old.failed ≤ self.new.failed }
        ensures most { self.new.most ≤ self.old.most }
        ensures sound { IsArea self.new }
    {
        match &mut self.pager {
            Some(pager) => try_write(pager, slot, page),
            None => unreachable!(),
        }
    }

    /// Reads the page in a slot.
    pub(crate) fn read(&mut self, slot: u32, page: &mut [u8; PAGE_BYTES]) -> Result<(), PagerFault>
        requires { slot < length self.old.pages }
        ensures ok { IfOk result (λ _. self.new ≡ with_calls self.old self.new.calls) }
        ensures page { IfOk result (λ _. get_or self.old.pages slot [] ≡ page.new) }
        ensures err { IfErr result (λ _. AfterReadFault self.old self.new) }
        ensures rest { self.new ≡ record self.old {
          failed = self.new.failed;
          most = self.new.most;
          calls = self.new.calls;
        } }
        ensures counts { self.old.failed ≤ self.new.failed }
        ensures most { self.new.most ≤ self.old.most }
        ensures sound { IsArea self.new }
    {
        match &mut self.pager {
            Some(pager) => try_read(pager, slot, page),
            None => unreachable!(),
        }
    }

    /// Drops the pager. The count stays.
    pub(crate) fn turn_off(&mut self)
        ensures gone { self.new ≡ off self.old }
        ensures sound { IsArea self.new }
    {
        self.last = self.count();
        self.pager = None;
        self.owners.clear();
    }
}

// A copy of the pager, if there is one.
fn copied_pager<P: ClonePager>(pager: &Option<P>) -> Result<Option<P>, HostMemory>
    ensures { IfOk result (λ copy. copy ≡ pager.now) }
{
    match pager {
        Some(pager) => Ok(Some(pager.try_clone()?)),
        None => Ok(None),
    }
}

impl<P: ClonePager> Area<P> {
    /// A copy of the area, with its own copy of the pager.
    pub(crate) fn try_clone(&self) -> Result<Area<P>, HostMemory>
        ensures { IfOk result (λ copy. copy ≡ self.now) }
    {
        Ok(Area {
            pager: copied_pager(&self.pager)?,
            owners: self.owners.try_clone()?,
            start: self.start,
            last: self.last,
        })
    }
}

impl<P: FailPager> Area<P> {
    ghost use Rattle.shm_slots.specs.Failing.{FailsInArea, IsRefusedIn, with_bad};
    ghost use Rattle.shm_slots.specs.View.{IsArea};

    /// Makes a call of the pager to come fail. `NotThere` also if the pager is gone.
    pub(crate) fn fail(&mut self, failure: &ComingFailure) -> Result<(), FailRefused>
        ensures ok { OnOk result (FailsInArea failure.now self.old self.new) }
        ensures err { OnErr result (self.new ≡ self.old) }
        ensures cause { IsRefusedIn self.old failure.now result }
        ensures rest { self.new
            ≡ record self.old { most = self.new.most; calls = self.new.calls } }
        ensures sound { IsArea self.new }
    {
        match &mut self.pager {
            Some(pager) => pager.fail(failure),
            None => Err(FailRefused::NotThere),
        }
    }

    /// Makes each read of a slot fail until the slot is written.
    pub(crate) fn fail_slot(&mut self, slot: u32) -> Result<(), HostMemory>
        requires { slot < length self.old.pages }
        ensures ok { OnOk result (self.new ≡ with_bad slot self.old) }
        ensures err { OnErr result (self.new ≡ self.old) }
        ensures rest { self.new
            ≡ record self.old { most = self.new.most; calls = self.new.calls } }
        ensures sound { IsArea self.new }
    {
        match &mut self.pager {
            Some(pager) => pager.fail_slot(slot),
            None => unreachable!(),
        }
    }
}

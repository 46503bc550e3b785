//! A swap area of any kind, as one type.
ghost use Rattle.std.specs.Prelude.{◌≡◌, ◌<◌, ◌≤◌, [], IfOk, OnErr, OnOk, get_or, length, replicate, set, true};
ghost use Rattle.shm_base.specs.Page.{zero_page};
ghost use Rattle.shm_pager.specs.Areas.{area_pages, failed_in, most_in, calls_in, calls_of, fails_at, IsOfKind, ReadsOnce, WritesOnce};
ghost use Rattle.shm_pager_core.specs.Failing.{FailsLater, IsRefusedFailure, calls_failing, endless, is_to_come};
ghost use Rattle.shm_pager.specs.Failing.{area_will_fail, area_with_bad_slot, is_mirror};
ghost use Rattle.shm_pager_core.specs.Pages.{last_count, pager_seen, CountsErr, KeepsMost, SlotUnknown};

use crate::fuse::FusePager;
use crate::mirror::MirrorPager;
use crate::ram::RamPager;
use crate::sparse::SparsePager;
use shm_base::{HostMemory, PAGE_BYTES};
use shm_pager_core::{ClonePager, ComingFailure, FailPager, FailRefused, Pager, PagerFault};
use std::alloc::Global;

/// A kind of swap area. `Ram`: a page of memory for each slot. `Sparse`: memory only for slots with a byte
/// other than 0. `Mirror`: two sides of the first kind, which hold the same pages.
#[derive(Clone, Copy, Debug, PartialEq, Eq)]
pub enum AreaKind {
    Ram,
    Sparse,
    Mirror,
}

/// Which calls of one side of an area fail: places of its reads and of its writes, each counted from 1.
#[derive(Debug, Drop)]
pub struct Failing {
    pub reads: Vec<u64>,
    pub writes: Vec<u64>,
}

/// A swap area whose listed reads and writes fail.
pub enum AreaPager {
    Ram(FusePager<RamPager>),
    Sparse(FusePager<SparsePager>),
    Mirror(MirrorPager<FusePager<RamPager>, FusePager<RamPager>>),
}

impl Drop for AreaPager {
    fn drop(self) {
        match self {
            AreaPager::Ram(_) => {}
            AreaPager::Sparse(_) => {}
            AreaPager::Mirror(_) => {}
        }
    }
}

// A side in memory.
fn ram(alloc: Global, slots: u32, failing: Failing) -> Result<FusePager<RamPager>, HostMemory>
    ensures { IfOk result (λ f. f ≡ fails_at slots 0 (calls_of failing)) }
{
    let Failing { reads, writes } = failing;
    Ok(FusePager::new(RamPager::new(alloc, slots)?, reads, writes))
}

impl AreaPager {
    /// An area with zeros in each slot. `right` counts only for a mirror. HostMemory: the host refused
    /// memory.
    pub fn new(
        alloc: Global,
        kind: AreaKind,
        slots: u32,
        left: Failing,
        right: Failing,
    ) -> Result<AreaPager, HostMemory>
        ensures pages { IfOk result (λ p. area_pages p ≡ replicate slots zero_page) }
        ensures failed { IfOk result (λ p. failed_in p ≡ 0) }
        ensures kind { IfOk result (IsOfKind kind slots (calls_of left) (calls_of right)) }
    {
        match kind {
            AreaKind::Ram => Ok(AreaPager::Ram(ram(alloc, slots, left)?)),
            AreaKind::Sparse => {
                let Failing { reads, writes } = left;
                let pages = SparsePager::new(alloc, slots)?;
                Ok(AreaPager::Sparse(FusePager::new(pages, reads, writes)))
            }
            AreaKind::Mirror => {
                let left = ram(alloc, slots, left)?;
                let right = ram(alloc, slots, right)?;
                match MirrorPager::new(alloc, left, right) {
                    Ok(mirror) => Ok(AreaPager::Mirror(mirror)),
                    Err(_) => Err(HostMemory),
                }
            }
        }
    }
}

impl Pager for AreaPager {
    ghost content = { area_pages };

    ghost failed = { failed_in };

    ghost most = { most_in };

    ghost calls = { calls_in };

    fn slots(&self) -> u32 {
        match self {
            AreaPager::Ram(pager) => pager.slots(),
            AreaPager::Sparse(pager) => pager.slots(),
            AreaPager::Mirror(pager) => pager.slots(),
        }
    }

    fn failures(&self) -> u64 {
        match self {
            AreaPager::Ram(pager) => pager.failures(),
            AreaPager::Sparse(pager) => pager.failures(),
            AreaPager::Mirror(pager) => pager.failures(),
        }
    }

    fn write(&mut self, slot: u32, page: &[u8; PAGE_BYTES]) -> Result<(), PagerFault>
        requires there { slot < length (area_pages self.old) }
        requires countable { failed_in self.old < last_count }
        ensures others { SlotUnknown slot (area_pages self.old) (area_pages self.new) }
        ensures page { IfOk result (λ _. area_pages self.new ≡ set (area_pages self.old) slot page.now) }
        ensures failed { CountsErr result (failed_in self.old) (failed_in self.new) }
        ensures most { KeepsMost result (most_in self.old) (most_in self.new) }
        ensures bounded { failed_in self.new ≤ most_in self.new }
        ensures once { WritesOnce slot page.now result self.old self.new }
    {
        match self {
            AreaPager::Ram(pager) => pager.write(slot, page),
            AreaPager::Sparse(pager) => pager.write(slot, page),
            AreaPager::Mirror(pager) => pager.write(slot, page),
        }
    }

    fn read(&mut self, slot: u32, page: &mut [u8; PAGE_BYTES]) -> Result<(), PagerFault>
        requires there { slot < length (area_pages self.old) }
        requires countable { failed_in self.old < last_count }
        ensures content { area_pages self.new ≡ area_pages self.old }
        ensures page { IfOk result (λ _. get_or (area_pages self.old) slot [] ≡ page.new) }
        ensures failed { CountsErr result (failed_in self.old) (failed_in self.new) }
        ensures most { KeepsMost result (most_in self.old) (most_in self.new) }
        ensures bounded { failed_in self.new ≤ most_in self.new }
        ensures once { ReadsOnce slot page.new result self.old self.new }
    {
        match self {
            AreaPager::Ram(pager) => pager.read(slot, page),
            AreaPager::Sparse(pager) => pager.read(slot, page),
            AreaPager::Mirror(pager) => pager.read(slot, page),
        }
    }

    fn discard(&mut self, slot: u32) {
        match self {
            AreaPager::Ram(pager) => pager.discard(slot),
            AreaPager::Sparse(pager) => pager.discard(slot),
            AreaPager::Mirror(pager) => pager.discard(slot),
        }
    }

    fn wipe(&mut self) {
        match self {
            AreaPager::Ram(pager) => pager.wipe(),
            AreaPager::Sparse(pager) => pager.wipe(),
            AreaPager::Mirror(pager) => pager.wipe(),
        }
    }
}

impl FailPager for AreaPager {
    ghost has_right = { is_mirror };

    fn fail(&mut self, failure: &ComingFailure) -> Result<(), FailRefused>
        ensures ok { let view = pager_seen area_pages failed_in most_in calls_in in
            OnOk result (FailsLater failure.now (view self.old) (view self.new)) }
        ensures exact { OnOk result (self.new ≡ area_will_fail failure.now self.old) }
        ensures calls { OnOk result
            (calls_in self.new ≡ calls_failing failure.now (calls_in self.old)) }
        ensures granted { OnOk result (is_to_come (is_mirror self.old) failure.now ≡ true) }
        ensures err { OnErr result (self.new ≡ self.old) }
        ensures cause { IsRefusedFailure (is_mirror self.old) failure.now result }
    {
        match self {
            AreaPager::Ram(pager) => pager.fail(failure),
            AreaPager::Sparse(pager) => pager.fail(failure),
            AreaPager::Mirror(pager) => pager.fail(failure),
        }
    }

    fn fail_slot(&mut self, slot: u32) -> Result<(), HostMemory>
        requires { slot < length (area_pages self.old) }
        ensures ok { let view = pager_seen area_pages failed_in most_in calls_in in
            OnOk result (view self.new ≡ endless slot (view self.old)) }
        ensures exact { OnOk result (self.new ≡ area_with_bad_slot slot self.old) }
        ensures err { OnErr result (self.new ≡ self.old) }
    {
        match self {
            AreaPager::Ram(pager) => pager.fail_slot(slot),
            AreaPager::Sparse(pager) => pager.fail_slot(slot),
            AreaPager::Mirror(pager) => pager.fail_slot(slot),
        }
    }
}

impl ClonePager for AreaPager {
    fn try_clone(&self) -> Result<AreaPager, HostMemory> {
        match self {
            AreaPager::Ram(pager) => Ok(AreaPager::Ram(pager.try_clone()?)),
            AreaPager::Sparse(pager) => Ok(AreaPager::Sparse(pager.try_clone()?)),
            AreaPager::Mirror(pager) => Ok(AreaPager::Mirror(pager.try_clone()?)),
        }
    }
}

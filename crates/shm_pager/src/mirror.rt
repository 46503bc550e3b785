//! Two pagers that hold the same pages.
ghost use Rattle.std.specs.Prelude.{◌≡◌, ◌≢◌, ◌<◌, ◌==◌, length, set, replicate, if◌then◌else◌, true, IfOk, IfErr, IsErr, OnErr, OnOk};
ghost use Rattle.shm_pager.specs.Areas.{both_calls, mirror_pages};
ghost use Rattle.shm_pager_core.specs.Failing.{FailsLater, IsRefusedFailure, calls_failing, endless, is_to_come};
ghost use Rattle.shm_pager.specs.Failing.{side_will_fail, with_bad_sides};
ghost use Rattle.shm_pager.specs.Fuse.{FuseView};
ghost use Rattle.shm_pager_core.specs.Pages.{last_count, pager_seen};
ghost use Rattle.shm_pager.specs.Mirror.{MirrorView, mirror_of, mirror_seen, mirror_calls, left_alone, both_sides, pages_shown, ReadsMirror, WritesMirror, DiscardsMirror, WipesMirror};

use crate::asked::read_if;
use crate::fuse::FusePager;
use shm_base::{HostMemory, PAGE_BYTES};
use shm_pager_core::{
    ClonePager, ComingFailure, FailPager, FailRefused, Pager, PagerFault, Side, try_write,
};
use std::alloc::{AllocError, Global};
use std::marker::Model;
use thiserror::Error;

/// Which sides are good for a slot: those that hold its page.
#[derive(Clone, Copy, Debug, PartialEq, Eq)]
pub struct Good {
    pub left: bool,
    pub right: bool,
}

/// Why a mirror was refused: the sides differ in size, or the host refused memory.
#[derive(Clone, Copy, Debug, PartialEq, Eq, Error)]
pub enum MirrorCause {
    #[error("the two sides differ in size")]
    Unequal,
    #[error("out of memory")]
    HostMemory,
}

/// A mirror was refused; the caller gets both sides back.
#[derive(Debug, Drop, Error)]
#[error("{cause}")]
pub struct MirrorRefused<L, R> {
    pub left: L,
    pub right: R,
    pub cause: MirrorCause,
}

/// Two pagers of one size. A write goes to both sides, and succeeds if one of them took it. From then on
/// exactly those that took it are good for the slot. A read tries the good sides, left first, until one
/// succeeds. A discarded slot has no good side, so a read of it fails. The mirror counts only its own
/// failures. It does not call a side whose count of failures is `u64::MAX`.
pub struct MirrorPager<L: Pager, R: Pager> {
    left: L,
    right: R,
    good: Vec<Good>,
    failed: u64,
}

impl<L: Pager, R: Pager> Model for MirrorPager<L, R> {
    ghost use Rattle.shm_pager.specs.Mirror.{MirrorView, IsMirror, mirror_of, mirror_seen};

    ghost Value = { MirrorView L R };

    ghost view = { λ m. mirror_of m.left m.right m.good.items m.failed };

    ghost invariant = { λ m. let seen = mirror_seen L.content L.failed L.most L.calls R.content R.failed R.most R.calls in
        IsMirror (seen (mirror_of m.left m.right m.good.items m.failed)) };
}

// Makes both sides good for each slot.
fn mark_both(good: &mut Vec<Good>)
    ensures { good.new.items ≡ replicate (length good.old.items) both_sides }
{
    for mark in good.iter_mut() {
        *mark = Good {
            left: true,
            right: true,
        };
    }
}

// Only the left side is good for each slot.
fn left_good(alloc: Global, slots: u32) -> Result<Vec<Good>, AllocError>
    ensures { IfOk result (λ good. good.items ≡ replicate slots left_alone) }
{
    let mut good = Vec::with_capacity(alloc, slots as usize)?;
    for _i in 0..slots {
        good.push(Good {
            left: true,
            right: false,
        })?;
    }
    Ok(good)
}

impl<L: Pager, R: Pager> MirrorPager<L, R> {
    /// A mirror with the pages of the left side. `Unequal`: the sides differ in size. HostMemory: the host
    /// refused memory.
    pub fn new(alloc: Global, left: L, right: R) -> Result<MirrorPager<L, R>, MirrorRefused<L, R>>
        ensures ok { IfOk result (λ m.
            let good = replicate (length (L.content left)) left_alone in
            m ≡ mirror_of left right good 0) }
        ensures unequal { length (L.content left) ≢ length (R.content right) → IsErr result }
        ensures refused { IfErr result (λ e.
            let equal = length (L.content left) == length (R.content right) in
            let cause = (if equal then MirrorCause.HostMemory else MirrorCause.Unequal) in
            e ≡ record { left = left; right = right; cause = cause }) }
    {
        let slots = left.slots();
        if slots != right.slots() {
            return Err(MirrorRefused {
                left,
                right,
                cause: MirrorCause::Unequal,
            });
        }
        let Ok(good) = left_good(alloc, slots) else {
            return Err(MirrorRefused {
                left,
                right,
                cause: MirrorCause::HostMemory,
            });
        };
        Ok(MirrorPager {
            left,
            right,
            good,
            failed: 0,
        })
    }
}

#[tactic(auto, using(crate::proofs::Merged::merging))]
impl<L: Pager, R: Pager> Pager for MirrorPager<L, R> {
    ghost content = { λ m. pages_shown (mirror_seen L.content L.failed L.most L.calls R.content R.failed R.most R.calls m) };

    ghost failed = { λ m. m.failed };

    /// A slot that no side is good for is unreadable, as often as it is read.
    ghost most = { λ _. last_count };

    ghost calls = { λ m. mirror_calls (mirror_seen L.content L.failed L.most L.calls R.content R.failed R.most R.calls m) };

    fn slots(&self) -> u32 {
        self.left.slots()
    }

    fn failures(&self) -> u64 {
        self.failed
    }

    fn write(&mut self, slot: u32, page: &[u8; PAGE_BYTES]) -> Result<(), PagerFault>
        requires there { let seen = mirror_seen L.content L.failed L.most L.calls R.content R.failed R.most R.calls in
            slot < length (pages_shown (seen self.old)) }
        requires countable { self.old.failed < last_count }
        ensures { let seen = mirror_seen L.content L.failed L.most L.calls R.content R.failed R.most R.calls in
            WritesMirror slot page.now (seen self.old) (seen self.new) result }
    {
        let left = try_write(&mut self.left, slot, page).is_ok();
        let right = try_write(&mut self.right, slot, page).is_ok();
        self.good[slot as usize] = Good { left, right };
        if left || right {
            return Ok(());
        }
        self.failed += 1;
        Err(PagerFault)
    }

    /// Does not call a side that is not good for the slot, nor the right side if the left one succeeds.
    fn read(&mut self, slot: u32, page: &mut [u8; PAGE_BYTES]) -> Result<(), PagerFault>
        requires there { let seen = mirror_seen L.content L.failed L.most L.calls R.content R.failed R.most R.calls in
            slot < length (pages_shown (seen self.old)) }
        requires countable { self.old.failed < last_count }
        ensures { let seen = mirror_seen L.content L.failed L.most L.calls R.content R.failed R.most R.calls in
            ReadsMirror slot page.new (seen self.old) (seen self.new) result }
    {
        let good = self.good[slot as usize];
        if read_if(good.left, &mut self.left, slot, page) {
            return Ok(());
        }
        if read_if(good.right, &mut self.right, slot, page) {
            return Ok(());
        }
        self.failed += 1;
        Err(PagerFault)
    }

    fn discard(&mut self, slot: u32)
        requires { let seen = mirror_seen L.content L.failed L.most L.calls R.content R.failed R.most R.calls in
            slot < length (pages_shown (seen self.old)) }
        ensures { let seen = mirror_seen L.content L.failed L.most L.calls R.content R.failed R.most R.calls in
            DiscardsMirror slot (seen self.old) (seen self.new) }
    {
        self.left.discard(slot);
        self.right.discard(slot);
        self.good[slot as usize] = Good {
            left: false,
            right: false,
        };
    }

    /// Afterwards both sides are good for each slot.
    fn wipe(&mut self)
        ensures { let seen = mirror_seen L.content L.failed L.most L.calls R.content R.failed R.most R.calls in
            WipesMirror (seen self.old) (seen self.new) }
    {
        self.left.wipe();
        self.right.wipe();
        mark_both(&mut self.good);
    }
}

impl<P: Pager, Q: Pager> FailPager for MirrorPager<FusePager<P>, FusePager<Q>> {
    ghost has_right = { λ _. true };

    fn fail(&mut self, failure: &ComingFailure) -> Result<(), FailRefused>
        ensures ok { let view = pager_seen mirror_pages (λ (m : MirrorView FuseView FuseView). m.failed)
            (λ (_ : MirrorView FuseView FuseView). last_count) both_calls in
            OnOk result (FailsLater failure.now (view self.old) (view self.new)) }
        ensures exact { OnOk result (self.new ≡ side_will_fail failure.now self.old) }
        ensures calls { OnOk result
            (both_calls self.new ≡ calls_failing failure.now (both_calls self.old)) }
        ensures granted { OnOk result (is_to_come true failure.now ≡ true) }
        ensures err { OnErr result (self.new ≡ self.old) }
        ensures cause { IsRefusedFailure true failure.now result }
    {
        if !failure.is_to_come(true) {
            return Err(FailRefused::NotThere);
        }
        let listed = match failure.side {
            Side::Left => self.left.list_failure(failure),
            Side::Right => self.right.list_failure(failure),
        };
        match listed {
            Ok(()) => Ok(()),
            Err(_) => Err(FailRefused::HostMemory),
        }
    }

    fn fail_slot(&mut self, slot: u32) -> Result<(), HostMemory>
        requires { slot < length (mirror_pages self.old) }
        ensures ok { let view = pager_seen mirror_pages (λ (m : MirrorView FuseView FuseView). m.failed)
            (λ (_ : MirrorView FuseView FuseView). last_count) both_calls in
            OnOk result (view self.new ≡ endless slot (view self.old)) }
        ensures exact { OnOk result (self.new ≡ with_bad_sides slot self.old) }
        ensures err { OnErr result (self.new ≡ self.old) }
    {
        let left = self.left.bad_slots_with(slot)?;
        let right = self.right.bad_slots_with(slot)?;
        self.left.set_bad_slots(left);
        self.right.set_bad_slots(right);
        Ok(())
    }
}

impl<L: ClonePager, R: ClonePager> ClonePager for MirrorPager<L, R> {
    fn try_clone(&self) -> Result<MirrorPager<L, R>, HostMemory> {
        let alloc = *self.good.allocator();
        Ok(MirrorPager {
            left: self.left.try_clone()?,
            right: self.right.try_clone()?,
            good: Vec::from_slice(alloc, &self.good)?,
            failed: self.failed,
        })
    }
}

impl<L: Pager, R: Pager> Drop for MirrorPager<L, R> {
    fn drop(mut self) {
        self.wipe();
        let MirrorPager {
            left: _,
            right: _,
            good: _,
            failed: _,
        } = self;
    }
}

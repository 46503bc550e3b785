//! What each pager promises. A pager that broke its promise could change bytes of segments. One that fails in
//! the ways named here can not.
ghost use Rattle.std.specs.Prelude.{◌≡◌, ℕ, ◌<◌, ◌≤◌, List, [], length, set, get_or, replicate, is_ok, IfOk};
ghost use Rattle.shm_base.specs.Page.{zero_page};
ghost use Rattle.shm_pager_core.specs.Pages.{SideCalls, last_count, pager_seen, served, SlotUnknown, CountsErr, KeepsMost, TriesWrite, TriesRead};

use shm_base::{HostMemory, PAGE_BYTES};
use thiserror::Error;

/// A pager did not do a read or a write.
#[derive(Clone, Copy, Debug, PartialEq, Eq, Error)]
#[error("a pager failed")]
pub struct PagerFault;

/// A store of pages of 4096 bytes. Slots count from 0.
pub trait Pager: Drop {
    /// The page in each slot.
    ghost content: { Self → List (List ℕ) };

    /// How many reads and writes have failed.
    ghost failed: { Self → ℕ };

    /// The most reads and writes that will ever have failed; `u64::MAX` if no lower bound is known.
    ghost most: { Self → ℕ };

    /// The calls of each side that fails at chosen ones: how many there were, and which ones fail. A pager that
    /// does not fail at chosen calls has none.
    ghost calls: { Self → List SideCalls };

    /// How many slots there are. No call changes it.
    fn slots(&self) -> u32
        ensures { result ≡ length (content self.now) };

    /// How many reads and writes have failed. A pager whose count is `u64::MAX` must not be read or written
    /// any more: see [`try_read`] and [`try_write`].
    fn failures(&self) -> u64
        ensures count { result ≡ failed self.now }
        ensures bounded { failed self.now ≤ most self.now };

    /// Writes a page to a slot. After an error the slot's bytes are unknown; the other slots are unchanged.
    fn write(&mut self, slot: u32, page: &[u8; PAGE_BYTES]) -> Result<(), PagerFault>
        requires there { slot < length (content self.old) }
        requires countable { failed self.old < last_count }
        ensures others { SlotUnknown slot (content self.old) (content self.new) }
        ensures page { IfOk result (λ _. content self.new ≡ set (content self.old) slot page.now) }
        ensures failed { CountsErr result (failed self.old) (failed self.new) }
        ensures most { KeepsMost result (most self.old) (most self.new) }
        ensures bounded { failed self.new ≤ most self.new };

    /// Reads the page in a slot. After an error the buffer's bytes are unknown.
    fn read(&mut self, slot: u32, page: &mut [u8; PAGE_BYTES]) -> Result<(), PagerFault>
        requires there { slot < length (content self.old) }
        requires countable { failed self.old < last_count }
        ensures content { content self.new ≡ content self.old }
        ensures page { IfOk result (λ _. get_or (content self.old) slot [] ≡ page.new) }
        ensures failed { CountsErr result (failed self.old) (failed self.new) }
        ensures most { KeepsMost result (most self.old) (most self.new) }
        ensures bounded { failed self.new ≤ most self.new };

    /// Says that a slot's bytes are no longer needed. Afterwards they are unknown.
    fn discard(&mut self, slot: u32)
        requires { slot < length (content self.old) }
        ensures content { SlotUnknown slot (content self.old) (content self.new) }
        ensures failed { failed self.new ≡ failed self.old }
        ensures most { most self.new ≡ most self.old }
        ensures calls { calls self.new ≡ calls self.old };

    /// Fills each slot with zeros.
    fn wipe(&mut self)
        ensures content { content self.new ≡ replicate (length (content self.old)) zero_page }
        ensures failed { failed self.new ≡ failed self.old }
        ensures most { most self.new ≡ most self.old }
        ensures calls { calls self.new ≡ calls self.old };
}

/// A pager that can be copied. Afterwards the copy and the original are independent.
pub trait ClonePager: Pager {
    /// A second pager in the same state: the same page in each slot and the same counts, and the same reads
    /// and writes will fail. Takes memory only for pages that have memory in this one. HostMemory: the host
    /// refused memory.
    fn try_clone(&self) -> Result<Self, HostMemory>
        ensures { IfOk result (λ copy. copy ≡ self.now) };
}

/// Writes to a pager, unless it has counted its last failure: then the pager is not called, and the write
/// fails.
pub fn try_write<P: Pager>(
    pager: &mut P,
    slot: u32,
    page: &[u8; PAGE_BYTES],
) -> Result<(), PagerFault>
    requires { slot < length (P.content pager.old) }
    ensures pager { let view = pager_seen P.content P.failed P.most P.calls in
        TriesWrite slot page.now (view pager.old) (view pager.new) }
    ensures ok { let view = pager_seen P.content P.failed P.most P.calls in
        is_ok result ≡ served (view pager.old) (view pager.new) }
{
    if pager.failures() == u64::MAX {
        return Err(PagerFault);
    }
    pager.write(slot, page)
}

/// Reads from a pager, unless it has counted its last failure: then the pager is not called, and the read
/// fails.
pub fn try_read<P: Pager>(
    pager: &mut P,
    slot: u32,
    page: &mut [u8; PAGE_BYTES],
) -> Result<(), PagerFault>
    requires { slot < length (P.content pager.old) }
    ensures pager { let view = pager_seen P.content P.failed P.most P.calls in
        TriesRead (view pager.old) (view pager.new) }
    ensures ok { let view = pager_seen P.content P.failed P.most P.calls in
        is_ok result ≡ served (view pager.old) (view pager.new) }
    ensures page { IfOk result (λ _. get_or (P.content pager.old) slot [] ≡ page.new) }
{
    if pager.failures() == u64::MAX {
        return Err(PagerFault);
    }
    pager.read(slot, page)
}

/// A pager of a kind that is not known at compile time. Code over pagers is generic, and this is one of its
/// types; the caller makes the boxes.
pub type AnyPager = Box<dyn Pager + Send>;

impl Pager for AnyPager {
    ghost content = { λ b. (Pager-box b).content b.value };

    ghost failed = { λ b. (Pager-box b).failed b.value };

    ghost most = { λ b. (Pager-box b).most b.value };

    ghost calls = { λ b. (Pager-box b).calls b.value };

    fn slots(&self) -> u32 {
        (**self).slots()
    }

    fn failures(&self) -> u64 {
        (**self).failures()
    }

    fn write(&mut self, slot: u32, page: &[u8; PAGE_BYTES]) -> Result<(), PagerFault> {
        (**self).write(slot, page)
    }

    fn read(&mut self, slot: u32, page: &mut [u8; PAGE_BYTES]) -> Result<(), PagerFault> {
        (**self).read(slot, page)
    }

    fn discard(&mut self, slot: u32) {
        (**self).discard(slot)
    }

    fn wipe(&mut self) {
        (**self).wipe()
    }
}

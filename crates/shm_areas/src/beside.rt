//! The ranges that the host reserved, and the least gap beside them.
ghost use Rattle.std.specs.Prelude.{◌≡◌, ◌*◌, ◌+◌, ◌≤◌, length, max};
ghost use Rattle.shm_base.specs.Space as flat;
ghost use Rattle.shm_base.specs.declared.bounds.TheConstants.{MOST_SHMALL};
ghost use Rattle.shm_base.specs.declared.paging.TheConstants.{PAGE_SIZE};
ghost use Rattle.shm_areas.specs.Arranged.{Arranged, bare_all};
ghost use Rattle.shm_areas.specs.FreeGap.{AreRanges, ChoosesLeast, free_from, lesser_of};

use crate::space::Space;
use shm_base::{HostRange, PAGE_SIZE};

/// Whether the host has reserved, for a process, a page of the range from an address up to another.
pub fn is_reserved(ranges: &[HostRange], pid: u32, from: u64, to: u64) -> bool
    ensures { result ≡ flat.is_reserved (flat.ranges_of pid ranges.now) from to }
{
    for range in ranges {
        if range.pid == pid && range.from < to && from < range.to {
            return true;
        }
    }
    false
}

fn lesser_of(one: Option<u64>, other: Option<u64>) -> Option<u64>
    ensures { result ≡ lesser_of one other }
{
    match (one, other) {
        (Some(one), Some(other)) => Some(one.min(other)),
        (Some(one), None) => Some(one),
        (None, other) => other,
    }
}

impl Space {
    // The least gap at or above an address, if no reserved range of the process meets it.
    fn free_from(&self, ranges: &[HostRange], pid: u32, from: u64, pages: u32) -> Option<u64>
        requires pages { (1 ≤ pages) × (pages ≤ MOST_SHMALL) }
        requires from { from ≤ flat.end_address }
        ensures value { let reserved = flat.ranges_of pid ranges.now in
            result ≡ free_from (bare_all self.now.pieces) reserved pages from }
        ensures arranged { Arranged flat.lowest_address (bare_all self.now.pieces) }
    {
        let base = self.gap_from(from, pages)?;
        if is_reserved(ranges, pid, base, base + PAGE_SIZE * pages as u64) {
            return None;
        }
        Some(base)
    }

    /// The address of the least gap for this many pages beside the pieces and the reserved ranges of a
    /// process, at or above 0x40000000, a multiple of 4096. None if no gap is large enough. Tries the least gap
    /// among the pieces, and if a range meets it, also those from the end of each range.
    pub fn choose_beside(&self, ranges: &[HostRange], pid: u32, pages: u32) -> Option<u64>
        requires pages { (1 ≤ pages) × (pages ≤ MOST_SHMALL) }
        requires ranges { AreRanges ranges.now }
        ensures value { let reserved = flat.ranges_of pid ranges.now in
            result ≡ flat.choose_beside (bare_all self.now.pieces) reserved pages }
        ensures least { let reserved = flat.ranges_of pid ranges.now in
            ChoosesLeast (bare_all self.now.pieces) reserved pages result }
    {
        let mut best = self.free_from(ranges, pid, 0, pages);
        if best.is_some() {
            return best;
        }
        for range in ranges {
            if range.pid == pid {
                best = lesser_of(best, self.free_from(ranges, pid, range.to, pages));
            }
        }
        best
    }
}

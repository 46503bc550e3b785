//! Pages, frames and slots, and the counts of a machine.
ghost use Rattle.std.specs.Prelude.{◌≡◌, ◌≤◌, ◌^◌, ◌<◌};
ghost use Rattle.shm_base.specs.State as flat;
ghost use Rattle.shm_base.specs.Bounds.{within};
ghost use Rattle.shm_base.specs.Page.{zero_page};
ghost use Rattle.shm_base.specs.declared.bounds.TheConstants.{PROFILE_SLOTS};

use crate::bounds::PROFILE_SLOTS;

/// The bytes of a page. SHMLBA, the unit of attach addresses, is the same.
pub const PAGE_SIZE: u64 = 4096;

/// The same as the length of an array.
pub const PAGE_BYTES: usize = PAGE_SIZE as usize;

/// A page of zeros.
#[tactic(auto, unfolding(crate::specs::Page::zero_page))]
pub fn zeros() -> [u8; PAGE_BYTES]
    ensures { result ≡ zero_page }
{
    [0; PAGE_BYTES]
}

/// The number of a frame, from 0.
pub type FrameNo = u32;

/// A page of a segment, by the segment's identifier and the page's number from 0.
#[derive(Clone, Copy, Debug, PartialEq, Eq)]
pub struct PageRef {
    pub seg: u32,
    pub page: u32,
}

/// A slot of a swap area. Areas and slots count from 0.
#[derive(Clone, Copy, Debug, PartialEq, Eq)]
pub struct Slot {
    pub area: u32,
    pub slot: u32,
}

/// Bytes within one page of a segment: `len` bytes from byte `at` of the segment on. `frame` is the page's
/// frame if it is resident.
#[derive(Clone, Copy, Debug, PartialEq, Eq)]
pub struct Span {
    pub seg: u32,
    pub at: u64,
    pub len: u64,
    pub frame: Option<FrameNo>,
}

/// What a flush round did: pages that it wrote, and writes that failed.
#[derive(Clone, Copy, Debug, PartialEq, Eq)]
pub struct FlushReport {
    pub written: u64,
    pub failed: u64,
}

/// The counts of a machine. `reserved` are the pages of all segments, `locked` those of the locked ones,
/// `slots` the slots of all active areas. `ins` counts successful pager reads for faults, `outs` successful
/// pager writes for evictions and flushes. `ins`, `outs` and `failures` stop at their last value.
#[derive(Clone, Copy, Debug, PartialEq, Eq)]
pub struct Tally {
    pub events: u64,
    pub segments: u64,
    pub reserved: u64,
    pub locked: u64,
    pub frames: u64,
    pub resident: u64,
    pub dirty: u64,
    pub slots: u64,
    pub used: u64,
    pub ins: u64,
    pub outs: u64,
    pub failures: u64,
}

/// Whether a swap area of the profile may have this many slots: 1 to 65536.
pub fn is_slot_count(slots: u64) -> bool
    ensures { result ≡ within 1 PROFILE_SLOTS slots }
{
    1 <= slots && slots <= u64::from(PROFILE_SLOTS)
}

/// How many pages `size` bytes need.
pub fn pages_of(size: u64) -> u64
    ensures value { result ≡ flat.pages_of size }
    ensures small { result ≤ 2 ^ 52 }
{
    size.div_ceil(PAGE_SIZE)
}

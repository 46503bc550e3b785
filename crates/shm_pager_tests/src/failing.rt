//! Pagers in memory that fail.
use shm_pager::{FusePager, RamPager};
use std::alloc::{AllocError, Global};

/// A pager of this many slots whose reads and writes with these numbers fail.
pub fn fuse(
    alloc: Global,
    slots: u32,
    reads: &[u64],
    writes: &[u64],
) -> Result<FusePager<RamPager>, AllocError> {
    fuse_at(alloc, slots, reads, writes, 0)
}

/// The same with a pager that has counted this many failures.
pub fn fuse_at(
    alloc: Global,
    slots: u32,
    reads: &[u64],
    writes: &[u64],
    failures: u64,
) -> Result<FusePager<RamPager>, AllocError> {
    let ram = RamPager::new(alloc, slots)?;
    let reads = reads.to_vec(alloc)?;
    let writes = writes.to_vec(alloc)?;
    Ok(FusePager::new_at(ram, reads, writes, failures))
}

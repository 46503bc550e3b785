//! A pager that counts its calls. The counts can be read while it is in use and after it was dropped.
use crate::failing::fuse_at;
use shm_pager::{FusePager, RamPager};
use shm_pager_core::{Pager, PagerFault};
use std::alloc::{AllocError, Global};
use std::sync::Arc;
use std::sync::atomic::{AtomicU64, Ordering};

#[derive(Drop)]
struct Counts {
    made: AtomicU64,
    reads: AtomicU64,
    writes: AtomicU64,
    discards: AtomicU64,
    discarded: AtomicU64,
    wipes: AtomicU64,
    drops: AtomicU64,
}

/// A pager around another one. It notes each call, and then makes it.
pub struct CountedPager<P: Pager> {
    inner: P,
    counts: Arc<Counts>,
}

pub type CountedRam = CountedPager<FusePager<RamPager>>;

impl<P: Pager> Pager for CountedPager<P> {
    ghost content = { λ p. P.content p.inner };

    ghost failed = { λ p. P.failed p.inner };

    ghost most = { λ p. P.most p.inner };

    ghost calls = { λ p. P.calls p.inner };

    fn slots(&self) -> u32 {
        self.inner.slots()
    }

    fn failures(&self) -> u64 {
        self.inner.failures()
    }

    fn write(&mut self, slot: u32, page: &[u8; 4096]) -> Result<(), PagerFault> {
        self.counts.writes.fetch_add(1, Ordering::SeqCst);
        self.inner.write(slot, page)
    }

    fn read(&mut self, slot: u32, page: &mut [u8; 4096]) -> Result<(), PagerFault> {
        self.counts.reads.fetch_add(1, Ordering::SeqCst);
        self.inner.read(slot, page)
    }

    fn discard(&mut self, slot: u32) {
        self.counts.discards.fetch_add(1, Ordering::SeqCst);
        self.counts
            .discarded
            .store(u64::from(slot), Ordering::SeqCst);
        self.inner.discard(slot);
    }

    fn wipe(&mut self) {
        self.counts.wipes.fetch_add(1, Ordering::SeqCst);
        self.inner.wipe();
    }
}

impl<P: Pager> Drop for CountedPager<P> {
    fn drop(self) {
        self.counts.drops.fetch_add(1, Ordering::SeqCst);
        let CountedPager {
            inner: _,
            counts: _,
        } = self;
    }
}

/// Has the counts of the pagers that it makes.
#[derive(Drop)]
pub struct Counter {
    counts: Arc<Counts>,
}

impl Counter {
    pub fn new(alloc: Global) -> Result<Counter, AllocError> {
        let counts = Counts {
            made: AtomicU64::new(0),
            reads: AtomicU64::new(0),
            writes: AtomicU64::new(0),
            discards: AtomicU64::new(0),
            discarded: AtomicU64::new(0),
            wipes: AtomicU64::new(0),
            drops: AtomicU64::new(0),
        };
        Ok(Counter {
            counts: Arc::new(alloc, counts)?,
        })
    }

    pub fn pager<P: Pager>(&self, inner: P) -> Result<CountedPager<P>, AllocError> {
        let counts = Arc::try_clone(&self.counts)?;
        counts.made.fetch_add(1, Ordering::SeqCst);
        Ok(CountedPager { inner, counts })
    }

    /// Pages in memory that have counted this many failures.
    pub fn ram(&self, alloc: Global, slots: u32, failures: u64) -> Result<CountedRam, AllocError> {
        self.pager(fuse_at(alloc, slots, &[], &[], failures)?)
    }

    /// How many pagers were made.
    pub fn made(&self) -> u64 {
        self.counts.made.load(Ordering::SeqCst)
    }

    /// How often pages were read and written, and slots discarded.
    pub fn asks(&self) -> (u64, u64, u64) {
        (
            self.counts.reads.load(Ordering::SeqCst),
            self.counts.writes.load(Ordering::SeqCst),
            self.counts.discards.load(Ordering::SeqCst),
        )
    }

    /// The slot that was discarded last; 0 before the first.
    pub fn last_discarded(&self) -> u64 {
        self.counts.discarded.load(Ordering::SeqCst)
    }

    pub fn wipes(&self) -> u64 {
        self.counts.wipes.load(Ordering::SeqCst)
    }

    pub fn drops(&self) -> u64 {
        self.counts.drops.load(Ordering::SeqCst)
    }
}

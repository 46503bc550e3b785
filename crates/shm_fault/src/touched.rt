//! What an access counts and names.
ghost use Rattle.shm_fault.specs.Access.{IsUntouched};

use arrayvec::ArrayVec;
use shm_base::{FrameNo, PageRef};
use thiserror::Error;

/// A page left its frame, or came into one.
#[derive(Clone, Copy, Debug, PartialEq, Eq)]
pub enum PageMove {
    Gone(PageRef),
    Came(PageRef, FrameNo),
}

impl Default for PageMove {
    fn default() -> PageMove {
        PageMove::Gone(PageRef { seg: 0, page: 0 })
    }
}

/// The pager reads and writes that were done for an access, and the pages that moved, in order.
#[derive(Debug)]
pub struct Touched {
    pub ins: u64,
    pub outs: u64,
    pub moved: ArrayVec<PageMove, 4>,
}

impl Drop for Touched {
    fn drop(self) {
        let Touched {
            ins: _,
            outs: _,
            moved: _,
        } = self;
    }
}

/// A pager failed. What was read and written before is counted, and the pages that moved are named.
#[derive(Debug, Error)]
#[error("a pager failed")]
pub struct PagerFailed {
    pub touched: Touched,
}

impl Drop for PagerFailed {
    fn drop(self) {
        let PagerFailed { touched: _ } = self;
    }
}

/// The pages in frames, those of them that are dirty, the slots of the active areas, the slots that pages
/// have, the successful pager reads for faults, the successful pager writes for evictions and flushes, and
/// the failures that the pagers counted. The last three stay at `u64::MAX`.
#[derive(Clone, Copy, Debug, PartialEq, Eq)]
pub struct PageTally {
    pub resident: u64,
    pub dirty: u64,
    pub slots: u64,
    pub used: u64,
    pub ins: u64,
    pub outs: u64,
    pub failures: u64,
}

impl Touched {
    /// Nothing yet: an access begins with it.
    #[inline(always)]
    pub fn none() -> Touched
        ensures { IsUntouched result }
    {
        Touched {
            ins: 0,
            outs: 0,
            moved: ArrayVec::new(),
        }
    }
}

//! The page store: segments as lists of bytes, over frames and swap.
//!
//! A page is in a frame, in a slot of a swap area, in both, or in neither; then its bytes are zeros. It keeps
//! its slot until its segment is destroyed or its area is turned off. A frame is dirty if its bytes may
//! differ from the slot's. No byte is lost, whatever is evicted and whichever pager fails.
#![tactic(auto)]

mod access;
mod act;
mod adding;
mod copying;
mod dropping;
mod failing;
mod flushing;
mod loans;
mod moving;
mod page_table;
mod page_tables;
mod paging;
mod shown;
mod store;
mod touched;

pub use act::Act;
pub use loans::FrameInfo;
pub use page_tables::PageRec;
pub use store::PageStore;
pub use touched::{PageMove, PageTally, PagerFailed, Touched};

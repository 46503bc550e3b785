//! What a pager promises: a store of pages by slot, any of whose reads and writes may fail.
#![tactic(auto)]

mod failing;
mod pager;

pub use failing::{ComingFailure, FailPager, FailRefused, Side};
pub use pager::{AnyPager, ClonePager, Pager, PagerFault, try_read, try_write};

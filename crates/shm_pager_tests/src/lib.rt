//! Tests of pagers, through what their crate makes public; and for the tests of other crates a pager that counts
//! its calls.
#![tactic(auto)]

mod counting;
mod failing;

pub use counting::{CountedPager, CountedRam, Counter};
pub use failing::{fuse, fuse_at};

#[cfg(test)]
mod areas;
#[cfg(test)]
mod pagers;

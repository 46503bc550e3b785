//! Relates runs with threads to schedules, and to the outcomes that a search lists.
#![tactic(auto)]

mod schedule;

pub use schedule::{rerun, scheduled};

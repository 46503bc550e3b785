//! The clock: it chooses the page that leaves its frame, if a frame is wanted and none is free.
#![tactic(auto)]

mod clock;

pub use clock::{frame_after, next_victim, victim};

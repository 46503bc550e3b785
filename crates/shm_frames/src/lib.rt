//! Frames: the places for the pages of a machine that are in memory. A frame is free or owned by one page,
//! and has a referenced and a dirty bit.
//!
//! All memory is reserved when the frames are made, and touched when a frame is first used. No later call
//! takes memory.
#![tactic(auto)]

mod frames;
mod looks;
mod skips;

pub use frames::Frames;
pub use looks::Looks;
pub use skips::{BLOCK_FRAMES, Skips};

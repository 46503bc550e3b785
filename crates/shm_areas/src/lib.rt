//! The address space of a process: attached pieces that do not overlap.
#![tactic(auto)]

mod beside;
mod cut;
mod filling;
mod piece;
mod rests;
mod search;
mod space;
mod taking;

pub use beside::is_reserved;
pub use piece::{Piece, Place};
pub use rests::Rests;
pub use space::Space;

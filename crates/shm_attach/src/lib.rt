//! The pieces of all processes, the number of pieces of each segment, the frame of each of their pages, and
//! the spans of an access.
#![tactic(auto)]

mod attach;
mod changes;
mod copying;
mod detach;
mod failing;
mod fork;
mod guest;
mod keys;
mod listing;
mod lost;
mod mapping;
mod process;
mod spaces;
mod spans;
mod table;
mod tables;

pub use process::{Caller, Child, Life, Listed};
pub use spaces::Spaces;
pub use spans::{Segv, Spans};

//! The segments of a machine: a table of their heads, and a store of their bytes.
//!
//! Contracts see one list, the flat machine's table, and say what each call does to it. How heads and bytes
//! are kept is private to this crate.
#![tactic(auto)]

mod copying;
mod failing;
mod head;
mod loans;
mod memory;
mod segments;

pub use head::{Found, Head};
pub use segments::Segments;

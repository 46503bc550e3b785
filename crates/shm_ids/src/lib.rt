//! Identifiers of shared memory segments, and the keys that find them: a table that gives each row an
//! identifier that no row had before.
#![tactic(auto)]

mod copying;
mod rows;
mod table;

pub use rows::Rows;
pub use table::{Entry, IdTable, LookRefused, Row};

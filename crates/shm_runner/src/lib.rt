//! A whole run: reads a script, runs its lines in file order or each process in its own thread, and writes the replies.
#![tactic(auto)]

mod fault;
mod serial;
mod threaded;
mod world;

pub use serial::run_serial;
pub use threaded::{run_threaded, write_outcome};

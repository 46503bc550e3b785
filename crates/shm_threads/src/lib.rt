//! A thread for each process of a script, over one world under a lock.
#![tactic(auto)]

mod births;
mod callers;
mod entry_list;
mod flusher;
mod gate;
mod lines;
mod origin;
mod outcome;
mod run;
mod shared;
mod start;
mod strand;
mod transcript;
mod worker;

pub use entry_list::EntryList;
pub use gate::{Gate, OpenGate};
pub use outcome::{Outcome, RunError};
pub use run::{run_threads, run_threads_gauged, run_threads_unkept};
pub use transcript::{Answer, Entry, Transcript};

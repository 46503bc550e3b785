//! Runs of a script along schedules, and their outcomes.
#![tactic(auto)]

mod cuts;
mod digests;
mod engine;
mod events;
mod finding;
mod followers;
mod laws;
mod lines;
mod outcome;
mod runs;
mod search_error;
mod simulated;
mod text;

pub use cuts::{is_any, past, until};
pub use engine::Engine;
pub use events::{is_change, is_refusal};
pub use finding::Finding;
pub use followers::push_followers;
pub use laws::times_reach_times;
pub use lines::reply_count;
pub use outcome::{Lists, Outcome, Replies};
pub use runs::Run;
pub use search_error::SearchError;
pub use simulated::Simulated;
pub use text::{put, put_line, put_line_as, put_number, put_schedule, reply_words};

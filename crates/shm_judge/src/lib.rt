//! Verdicts on logs of a script, and single runs that are drawn at random.
#![tactic(auto)]

mod fault;
mod guess;
mod judging;
mod log;
mod plan;
mod reading;
mod report;
mod sampling;
mod verdict;

pub use fault::{LogFault, LogFaultKind, LogRefused};
pub use judging::judge_log;
pub use log::{Answer, Answers, Entry, Log};
pub use reading::{log_of, read_log};
pub use report::verdict_text;
pub use sampling::samples;
pub use verdict::{Stuck, Verdict};

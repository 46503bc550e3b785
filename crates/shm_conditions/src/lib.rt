//! Conditions over the replies of an outcome: what a text says, and whether it is true.
#![tactic(auto)]

mod condition;
mod fault;
mod formula;
mod levels;
mod naming;
mod reading;
mod reply;
mod tokens;

pub use condition::{Condition, read_condition};
pub use fault::{ConditionFault, ConditionFaultKind};

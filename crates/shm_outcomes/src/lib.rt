//! Every outcome that a script can have, in any order of its processes.
#![tactic(auto)]

mod effects;
mod findings;
mod frontier;
mod groups;
mod keys;
mod levels;
mod masking;
mod nodes;
mod relevant;
mod search;
mod text;
mod transitions;

pub use keys::Key;
pub use masking::masked_outcomes;
pub use nodes::Node;
pub use search::outcomes;
pub use text::outcomes_text;

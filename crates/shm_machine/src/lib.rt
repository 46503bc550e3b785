//! A machine as one type without parameters: swap areas of three kinds, and methods for the calls. It keeps
//! no history, so its memory does not grow with the number of calls.
#![tactic(auto)]

mod access;
mod calls;
mod copy;
mod machine;
mod opening;
mod refusal;
mod stretch;

pub use machine::Machine;
pub use opening::{AreaConfig, Failure};
pub use refusal::Refusal;
pub use shm_pager::AreaKind;
pub use shm_pager_core::Side;
pub use stretch::Progress;

//! The machine that serves the calls: each call of a process is one step of the flat machine.
#![tactic(auto)]

mod access;
mod changing;
mod copying;
mod enlarging;
mod exec_exit;
mod failing;
mod fixed;
mod fork;
mod guest;
mod kernel;
mod limiting;
mod listing;
mod loans;
mod mapping;
mod notices;
mod reserving;
mod residency;
mod rows;
mod shmat;
mod shmctl;
mod shmdt;
mod shmget;
mod shown;
mod start;
mod swapoff;
mod sweep;
mod system;
mod typed;

pub use changing::COUNTS;
pub use failing::PageNotFailed;
pub use limiting::NewLimits;
pub use listing::ShmInfo;
pub use loans::{LendRefusal, NotReady, ReturnRefusal};
pub use notices::Notice;
pub use residency::SegmentPages;
pub use start::{StartError, first_area_error};
pub use system::{Opening, System};

//! Laws of whole histories, for programs that rely on the machine. The contract of each function says that
//! its law holds for the given world.
#![tactic(auto)]

mod identity;
mod isolation;
mod keys;
mod laws;
mod permission;
mod pieces;
mod removal;
mod replay;
mod sizes;
mod spaces;
mod worked;
mod writing;

pub use identity::named_once;
pub use isolation::isolated;
pub use keys::found_by_key;
pub use laws::lawful;
pub use permission::kept_out;
pub use pieces::pieces_stand;
pub use removal::removed_in_time;
pub use replay::replayed;
pub use sizes::pages_kept;
pub use spaces::laid_out;
pub use writing::last_written;

//! The machine for programs in C: a handle, and a function for each call. The header, bindings/c/nogcuvema.h,
//! lists the codes of each function.
#![tactic(auto)]

mod about;
mod access;
mod code;
mod exchange;
mod failing;
mod handle;
mod hosting;
mod inspect;
mod listing;
mod loans;
mod lookups;
mod notices;
mod open;
mod owned;
mod parts;
mod perform;
mod ranges;
mod segments;
mod snapshot;
mod stretch;
mod structs;

pub use about::{nog_layout, nog_text, nog_version};
pub use access::{nog_add, nog_load, nog_store};
pub use exchange::{nog_compare_exchange, nog_exchange};
pub use failing::{nog_fail, nog_fail_page};
pub use handle::Handle;
pub use hosting::{nog_admit, nog_dismiss, nog_set_limits, nog_set_time, nog_swapon};
pub use inspect::{nog_calls, nog_flush, nog_indexes, nog_segment_at, nog_tally_of};
pub use listing::{
    nog_absent_at, nog_failed_at, nog_info, nog_piece_at, nog_process_at, nog_stat_at,
};
pub use loans::{nog_frame_at, nog_give_back, nog_leaver, nog_lend, nog_page_at};
pub use lookups::{nog_limits_of, nog_loans, nog_pages_of, nog_piece_of, nog_segment_of};
pub use notices::{nog_changes, nog_gone};
pub use open::{nog_close, nog_open};
pub use owned::Kept;
pub use perform::{
    nog_detach, nog_exec, nog_exit, nog_fork, nog_lock, nog_protect, nog_remove, nog_set,
    nog_set_user, nog_swapoff, nog_unlock, nog_unmap,
};
pub use ranges::{nog_release, nog_reserve};
pub use segments::{nog_attach, nog_get, nog_stat};
pub use snapshot::nog_snapshot;
pub use stretch::{nog_copy, nog_read, nog_write};
pub use structs::{
    NogArea, NogFailure, NogFlushed, NogFrame, NogLimits, NogPiece, NogProcess, NogSegment,
    NogTally, NogUsage,
};

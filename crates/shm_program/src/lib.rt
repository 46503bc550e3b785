//! What the programs that run a script share: the words for swap areas, the input as a script, the world
//! that it opens, the run of a line, the variables of its processes, the output, and the faults with their
//! messages and statuses. Also the texts of a world: the listing, the counts, and the record of each step
//! for the viewer. A record has the step's action, the segments, the processes with their pieces, the
//! frames, the swap areas and the counts.
#![tactic(auto)]

mod action;
mod areas;
mod counts;
mod ends;
mod fault;
mod lines;
mod memory;
mod opening;
mod options;
mod processes;
mod running;
mod step;
mod values;

pub use action::Action;
pub use areas::areas_of;
pub use counts::usage;
pub use ends::{WriteFault, whole_script, write_output};
pub use fault::RunFault;
pub use lines::listing;
pub use opening::open_world;
pub use options::{SwapWord, read_swaps};
pub use running::run_line;
pub use step::push_step;
pub use values::Values;

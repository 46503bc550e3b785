//! What every layer of the shared memory facility uses: identifiers, limits, flags, errors, calls and
//! replies. Its `specs/` define the flat machine, in which a segment is one list of bytes and a call is one
//! step.
#![tactic(auto)]

mod access;
mod bounds;
mod call;
mod errno;
mod flags;
mod guest;
mod limits;
mod memory;
mod numbers;
mod owner;
mod paging;

pub use access::{AccessBytes, AccessLen, Chunk, Word};
pub use bounds::{
    END_ADDRESS, FIRST_GAP, INDEXES, LAST_ID, LAST_PID, LONGEST_ACCESS, LONGEST_SCRIPT,
    LONGEST_WORD, LOWEST_ADDRESS, MODES, MOST_AREAS, MOST_COMMANDS, MOST_FLUSHED, MOST_FRAMES,
    MOST_PIECES, MOST_PROCESSES, MOST_SHMALL, MOST_SHMMAX, MOST_SHMMNI, MOST_SLOTS, PROFILE_FRAMES,
    PROFILE_PIECES, PROFILE_PROCESSES, PROFILE_SHMALL, PROFILE_SHMMAX, PROFILE_SHMMNI,
    PROFILE_SLOTS, SEQUENCES,
};
pub use call::{Call, Event, Placed, Process, Reply, ShmId, ShmidDs, Step, has_pid, index_of};
pub use errno::Errno;
pub use flags::{AtFlags, GetFlags, Rules, Status};
pub use guest::{AdmitRefusal, DismissRefusal, HostRange, RangeRefusal};
pub use limits::{BadLimits, Limits, Sizes};
pub use memory::HostMemory;
pub use numbers::Numbers;
pub use owner::{Cred, Perm, Want, grants};
pub use paging::{
    FlushReport, FrameNo, PAGE_BYTES, PAGE_SIZE, PageRef, Slot, Span, Tally, is_slot_count,
    pages_of, zeros,
};

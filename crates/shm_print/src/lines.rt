//! The lines of a listing: its header, and the line of a segment.
ghost use Rattle.std.specs.Prelude.{◌≡◌, IfOk, string_bytes};
ghost use Rattle.shm_print.specs.Listing as listing;

use crate::words::{Key, Octal, StatusWord};
use shm_base::{ShmId, ShmidDs};
use std::alloc::{AllocError, Global};

/// The header of a listing. AllocError: the host refused memory.
pub fn header_line(alloc: Global) -> Result<String, AllocError>
    ensures { IfOk result (λ s. string_bytes s ≡ listing.header_line) }
{
    format!(in alloc; "key        shmid      owner      perms      bytes      nattch     status\n")
}

/// The line of a segment: its key, identifier, owner, mode, size, attach count and marks. Every cell but the
/// last is 10 characters wide. AllocError: the host refused memory.
pub fn segment_line(alloc: Global, id: ShmId, shown: &ShmidDs) -> Result<String, AllocError>
    ensures { IfOk result (λ s. string_bytes s ≡ listing.segment_line id shown.now) }
{
    let (key, uid, mode) = (Key(shown.key), shown.perm.uid, Octal(shown.perm.mode));
    let (size, nattch, status) = (shown.size, shown.nattch, StatusWord(shown.status));
    let head = format!(in alloc; "{key} {id:<10} {uid:<10} {mode}        ")?;
    format!(in alloc; "{head}{size:<10} {nattch:<10} {status}\n")
}

ghost use Rattle.std.specs.Prelude.{◌≡◌, ◌++◌, IfOk, OnOk, string_bytes};
ghost use Rattle.shm_program.specs.Listing.{line_shown, listing_of};

use shm_base::{ShmId, ShmidDs};
use shm_history::World;
use shm_pager_core::Pager;
use shm_print::{header_line, segment_line};
use std::alloc::{AllocError, Global};

// Appends the line of a segment to a text, if there is one.
fn push_line(
    alloc: Global,
    text: &mut String,
    segment: Option<(ShmId, ShmidDs)>,
) -> Result<(), AllocError>
    ensures { OnOk result (string_bytes text.new ≡ string_bytes text.old ++ line_shown segment) }
{
    if let Some((id, shown)) = segment {
        let line = segment_line(alloc, id, &shown)?;
        text.push_str(&line)?;
    }
    Ok(())
}

/// The listing of a machine: the header, and a line for each segment in the order of their indexes, including
/// those marked for removal. AllocError: the host refused memory.
pub fn listing<P: Pager>(alloc: Global, world: &World<P>) -> Result<String, AllocError>
    ensures { IfOk result (λ s. string_bytes s ≡ listing_of world.now.machine) }
{
    let mut text = header_line(alloc)?;
    for index in 0..world.system().indexes() {
        push_line(alloc, &mut text, world.segment(index))?;
    }
    Ok(text)
}

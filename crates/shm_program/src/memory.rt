//! The frames and the swap areas, each with its owners.
ghost use Rattle.std.specs.Prelude.{◌≡◌, ◌++◌, ◌<◌, length, Some, None, OnOk, string_bytes};
ghost use Rattle.shm_slots.specs.View.{area_at};
ghost use Rattle.shm_frames.specs.Frame.{frame_at};
ghost use Rattle.shm_program.specs.Record.{numbered, frame_line, frames_text, slot_line, area_text, areas_text};

use shm_base::PageRef;
use shm_fault::PageStore;
use shm_frames::{Frames, Looks};
use shm_pager_core::Pager;
use shm_slots::Swap;
use std::alloc::AllocError;

// Appends the line of a frame to a text, if a page owns it. Reading the referenced bit here is not one of the
// clock's looks, which are counted.
fn push_frame(text: &mut String, frames: &Frames, frame: u32) -> Result<(), AllocError>
    requires { frame < length frames.now }
    ensures { OnOk result
        (string_bytes text.new ≡ string_bytes text.old ++ frame_line frame (frame_at frames.now frame)) }
{
    let Some(PageRef { seg, page }) = frames.owner(frame) else {
        return Ok(());
    };
    let referenced = if frames.referenced(frame, &mut Looks::new()) {
        "r"
    } else {
        "-"
    };
    let dirty = if frames.is_dirty(frame) { "d" } else { "-" };
    write!(text, "frame {frame} {seg} {page} {referenced}{dirty}\n")
}

fn push_owned(text: &mut String, frames: &Frames) -> Result<(), AllocError>
    ensures { OnOk result
        (string_bytes text.new ≡ string_bytes text.old ++ numbered frame_line 0 frames.now) }
{
    for frame in 0..frames.count() {
        push_frame(text, frames, frame)?;
    }
    Ok(())
}

// Appends the frames to a text, with the position of the clock's hand.
pub(crate) fn push_frames<P: Pager>(
    text: &mut String,
    store: &PageStore<P>,
) -> Result<(), AllocError>
    ensures { OnOk result (string_bytes text.new ≡ string_bytes text.old ++ frames_text store.now) }
{
    let frames = store.frames();
    let (count, hand) = (frames.count(), store.hand());
    write!(text, "frames {count} hand {hand}\n")?;
    push_owned(text, frames)
}

fn push_slot(
    text: &mut String,
    area: u32,
    slot: usize,
    owner: Option<PageRef>,
) -> Result<(), AllocError>
    ensures { OnOk result (string_bytes text.new ≡ string_bytes text.old ++ slot_line area slot owner) }
{
    match owner {
        Some(PageRef { seg, page }) => write!(text, "slot {area} {slot} {seg} {page}\n"),
        None => Ok(()),
    }
}

fn push_slots(text: &mut String, area: u32, owners: &[Option<PageRef>]) -> Result<(), AllocError>
    ensures { OnOk result
        (string_bytes text.new ≡ string_bytes text.old ++ numbered (slot_line area) 0 owners.now) }
{
    for slot in 0..owners.len() {
        push_slot(text, area, slot, owners[slot])?;
    }
    Ok(())
}

// Appends the lines of an area's owned slots to a text.
fn push_owners<P: Pager>(text: &mut String, swap: &Swap<P>, area: u32) -> Result<(), AllocError>
    ensures { let owners = (area_at swap.now area).owners in
        OnOk result (string_bytes text.new ≡ string_bytes text.old ++ numbered (slot_line area) 0 owners) }
{
    push_slots(text, area, swap.owners(area))
}

fn push_area<P: Pager>(text: &mut String, swap: &Swap<P>, area: u32) -> Result<(), AllocError>
    requires { area < length swap.now.areas }
    ensures { OnOk result
        (string_bytes text.new ≡ string_bytes text.old ++ area_text area (area_at swap.now area)) }
{
    match swap.size(area) {
        Some(slots) => write!(text, "area {area} {slots}\n")?,
        None => write!(text, "area {area} gone\n")?,
    }
    push_owners(text, swap, area)
}

// Appends the swap areas to a text.
pub(crate) fn push_areas<P: Pager>(text: &mut String, swap: &Swap<P>) -> Result<(), AllocError>
    ensures { OnOk result (string_bytes text.new ≡ string_bytes text.old ++ areas_text swap.now) }
{
    for area in 0..swap.areas() {
        push_area(text, swap, area)?;
    }
    Ok(())
}

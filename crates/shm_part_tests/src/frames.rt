use shm_base::PageRef;
use shm_frames::{Frames, Looks};
use std::process::Abort;
use std::test::Fail;

// Puts a page into the first free frame, after its bytes. Returns whether that was possible and this many are
// resident.
fn comes(frames: &mut Frames, seg: u32, resident: u64) -> bool {
    let Some(frame) = frames.free_frame() else {
        return false;
    };
    frames.bytes_mut(frame)[4095] = 9;
    let page = PageRef { seg, page: 2 };
    frames.fill(frame, page);
    u64::from(frame) + 1 == resident
        && frames.resident_page(frame) == page
        && frames.bytes(frame)[4095] == 9
        && frames.resident() == resident
}

// Whether a frame's bits are the expected ones. Looks once more.
fn has_bits(frames: &Frames, frame: u32, looks: &mut Looks, referenced: bool, dirty: bool) -> bool {
    frame < frames.count()
        && looks.count() < 4
        && frames.is_dirty(frame) == dirty
        && frames.referenced(frame, looks) == referenced
}

// Sets both bits of a frame, the second one twice, if it is taken. Returns whether it is.
fn set_bits(frames: &mut Frames, frame: u32) -> bool {
    if frame >= frames.count() || frames.owner(frame).is_none() {
        return false;
    }
    frames.set_referenced(frame, true);
    frames.set_dirty(frame, true);
    frames.set_dirty(frame, true);
    true
}

// Empties a frame, if it is taken. Returns whether it is, and is the first free frame afterwards, with its
// bytes.
fn empties(frames: &mut Frames, frame: u32) -> bool {
    if frame >= frames.count() || frames.owner(frame).is_none() {
        return false;
    }
    frames.empty(frame);
    frames.owner(frame).is_none()
        && frames.free_frame() == Some(frame)
        && frames.bytes_mut(frame)[4095] == 9
}

/// A change of frames or a question about them.
#[derive(Clone, Copy)]
enum Act {
    /// A page of a segment comes in, and this many are resident.
    Come(u32, u64),
    /// Both bits of a frame are set.
    Set(u32),
    /// A frame is emptied.
    Empty(u32),
    /// A frame's referenced bit and its dirty bit.
    Bits(u32, bool, bool),
    /// How many frames are resident, and how many are dirty.
    Counts(u64, u64),
}

// Performs an act, and returns whether everything is as expected.
fn answers(frames: &mut Frames, looks: &mut Looks, act: Act) -> bool {
    match act {
        Act::Come(seg, resident) => comes(frames, seg, resident),
        Act::Set(frame) => set_bits(frames, frame),
        Act::Empty(frame) => empties(frames, frame),
        Act::Bits(frame, referenced, dirty) => has_bits(frames, frame, looks, referenced, dirty),
        Act::Counts(resident, dirty) => frames.resident() == resident && frames.dirty() == dirty,
    }
}

const ACTS: &[Act] = &[
    Act::Come(5, 1),
    Act::Bits(0, false, false),
    Act::Come(6, 2),
    Act::Bits(1, false, false),
    Act::Counts(2, 0),
    Act::Set(1),
    Act::Bits(1, true, true),
    Act::Counts(2, 1),
    Act::Empty(1),
    Act::Bits(1, false, false),
    Act::Counts(1, 0),
];

fn come_and_go(rt: &impl Abort, frames: &mut Frames) {
    let mut looks = Looks::new();
    for (row, &act) in ACTS.iter().enumerate() {
        assert!(rt; answers(frames, &mut looks, act), "at row {row}");
    }
    assert_eq!(rt; looks.count(), 4);
}

#[test]
fn frames_come_and_go(rt: HostRuntime) -> Result<(), Fail> {
    let mut frames = Frames::new(rt.alloc(), 3)?;
    assert_eq!(rt; frames.count(), 3);
    come_and_go(&rt, &mut frames);
    Ok(())
}

#[test]
fn dirty_frames_are_found_in_each_block(rt: HostRuntime) -> Result<(), Fail> {
    let mut frames = Frames::new(rt.alloc(), 200)?;
    for seg in 0..131_u32 {
        assert!(rt;
            comes(&mut frames, seg, u64::from(seg) + 1),
            "page of segment {seg}"
        );
    }
    assert_eq!(rt; frames.next_dirty(0), None);
    assert!(rt; set_bits(&mut frames, 130), "frame 130 is taken");
    assert!(rt; set_bits(&mut frames, 65), "frame 65 is taken");
    assert_eq!(rt; frames.next_dirty(0), Some(65));
    assert_eq!(rt; frames.next_dirty(66), Some(130));
    assert_eq!(rt; frames.next_dirty(131), None);
    assert!(rt; empties(&mut frames, 65), "frame 65 is emptied");
    assert_eq!(rt; frames.next_dirty(0), Some(130));
    Ok(())
}

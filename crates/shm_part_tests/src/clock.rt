ghost use Rattle.std.specs.Prelude.{◌≡◌, ◌+◌, ◌<◌, ◌≤◌, ◌^◌, length, IfOk, IfSome, true, ◌≢◌, []};
ghost use Rattle.shm_clock.specs.Clock.{may_go, candidates};
ghost use Rattle.shm_clock.specs.Skips.{AreSkipped};
ghost use Rattle.shm_part_tests.specs.Unlocked.{is_unlocked};

use shm_base::{FrameNo, HostMemory, PageRef};
use shm_clock::victim;
use shm_frames::{Frames, Looks, Skips};
use std::alloc::Global;
use std::process::Abort;
use std::sync::atomic::{AtomicU64, Ordering};
use std::test::Fail;

fn may_go(frames: &Frames, frame: FrameNo, locked: u32, pinned: Option<FrameNo>) -> bool
    requires { frame < length frames.now }
    ensures { result ≡ may_go (is_unlocked locked) pinned frames.now frame }
{
    let held = match pinned {
        Some(other) => other == frame,
        None => false,
    };
    let unlocked = match frames.owner(frame) {
        Some(page) => page.seg != locked,
        None => false,
    };
    unlocked && !held
}

// Whether a frame, other than the pinned one, has a page of a segment other than the locked one.
fn some_unlocked(frames: &Frames, hand: FrameNo, locked: u32, pinned: Option<FrameNo>) -> bool
    requires { hand < length frames.now }
    ensures { result ≡ true → candidates (is_unlocked locked) pinned frames.now hand ≢ [] }
{
    for frame in 0..frames.count() {
        if may_go(frames, frame, locked, pinned) {
            return true;
        }
    }
    false
}

// The victim among the frames whose segment is not the locked one; none if there is none. Counts the tests of
// pages.
fn unlocked_victim(
    frames: &mut Frames,
    hand: &mut FrameNo,
    locked: u32,
    pinned: Option<FrameNo>,
    looks: &mut Looks,
    asked: &AtomicU64,
    skips: &mut Skips,
) -> Option<FrameNo>
    requires hand { hand.old < length frames.old }
    requires countable { looks.old + length frames.old < 2 ^ 64 }
    requires skipped { AreSkipped (is_unlocked locked) frames.old skips.old }
    ensures unlocked { IfSome result (λ frame. may_go (is_unlocked locked) pinned frames.old frame ≡ true) }
    ensures skipped { AreSkipped (is_unlocked locked) frames.new skips.new }
{
    if !some_unlocked(frames, *hand, locked, pinned) {
        return None;
    }
    let unlocked = move |page: PageRef| {
        asked.fetch_add(1, Ordering::SeqCst);
        page.seg != locked
    };
    Some(victim(frames, hand, &unlocked, pinned, looks, skips))
}

// Frames in order, each with a page of a segment and a bit.
fn frames_with(alloc: Global, pages: &[(u32, bool)]) -> Result<Frames, HostMemory>
    requires { length pages.now ≤ 8 }
{
    let mut frames = Frames::new(alloc, pages.len() as u32)?;
    for (seg, referenced) in pages {
        if let Some(frame) = frames.free_frame() {
            frames.fill(frame, PageRef { seg: *seg, page: 0 });
            frames.set_referenced(frame, *referenced);
        }
    }
    Ok(frames)
}

// Frames by their segments and bits, a hand and a pinned frame; segment 9 is locked. Then the victim, and the
// bits, the hand and the looks afterwards.
#[derive(Clone, Copy)]
struct Turn {
    pages: &'static [(u32, bool)],
    hand: FrameNo,
    pinned: Option<FrameNo>,
    victim: Option<FrameNo>,
    bits: &'static [bool],
    hand_after: FrameNo,
    looks: u64,
    /// The most pages that are asked about. The hand asks about a page twice if the frame before its own may not be taken.
    asked: u64,
}

const TURNS: &[Turn] = &[
    Turn {
        pages: &[(1, false), (2, false)],
        hand: 0,
        pinned: None,
        victim: Some(0),
        bits: &[false, false],
        hand_after: 1,
        looks: 1,
        asked: 1,
    },
    Turn {
        pages: &[(1, true), (2, false), (3, true)],
        hand: 0,
        pinned: None,
        victim: Some(1),
        bits: &[false, false, true],
        hand_after: 2,
        looks: 2,
        asked: 2,
    },
    Turn {
        pages: &[(1, true), (2, true), (3, false), (4, true)],
        hand: 3,
        pinned: None,
        victim: Some(2),
        bits: &[false, false, false, false],
        hand_after: 3,
        looks: 4,
        asked: 4,
    },
    Turn {
        pages: &[(1, true), (2, true), (3, true)],
        hand: 2,
        pinned: None,
        victim: Some(2),
        bits: &[false, false, false],
        hand_after: 0,
        looks: 3,
        asked: 3,
    },
    Turn {
        pages: &[(9, true), (1, true), (2, true), (3, true)],
        hand: 3,
        pinned: Some(3),
        victim: Some(1),
        bits: &[true, false, false, true],
        hand_after: 2,
        looks: 2,
        asked: 5,
    },
    Turn {
        pages: &[(9, false), (1, false)],
        hand: 0,
        pinned: Some(1),
        victim: None,
        bits: &[false, false],
        hand_after: 0,
        looks: 0,
        asked: 0,
    },
];

// Whether the frames have exactly these bits.
fn has_bits(frames: &Frames, bits: &[bool]) -> bool {
    for (frame, &bit) in bits.iter().enumerate() {
        if frame >= frames.count() as usize {
            return false;
        }
        if frames.referenced(frame as u32, &mut Looks::new()) != bit {
            return false;
        }
    }
    frames.count() as usize == bits.len()
}

// No block of the frames is skipped.
fn none_skipped(alloc: Global, frames: &Frames) -> Result<Skips, HostMemory>
    ensures { IfOk result (AreSkipped (is_unlocked 9) frames.now) }
{
    let skips = Skips::new(alloc, frames.count())?;
    Ok(skips)
}

// Whether a turn over these frames, which are in its first state, ends as expected.
fn ends_so(frames: &mut Frames, skips: &mut Skips, turn: &Turn) -> bool
    requires skipped { AreSkipped (is_unlocked 9) frames.old skips.old }
{
    let mut hand = turn.hand;
    if hand >= frames.count() || frames.count() > 8 {
        return false;
    }
    let (mut looks, asked) = (Looks::new(), AtomicU64::new(0));
    let victim = unlocked_victim(frames, &mut hand, 9, turn.pinned, &mut looks, &asked, skips);
    victim == turn.victim
        && asked.load(Ordering::SeqCst) <= turn.asked
        && hand == turn.hand_after
        && looks.count() == turn.looks
        && has_bits(frames, turn.bits)
}

fn makes_turn(
    rt: &impl Abort,
    alloc: Global,
    number: usize,
    turn: &Turn,
) -> Result<(), HostMemory> {
    assert!(rt; turn.pages.len() <= 8);
    let mut frames = frames_with(alloc, turn.pages)?;
    let mut skips = none_skipped(alloc, &frames)?;
    assert!(rt; ends_so(&mut frames, &mut skips, turn), "turn {number}");
    Ok(())
}

#[test]
fn turns_of_the_hand(rt: HostRuntime) -> Result<(), Fail> {
    for (number, turn) in TURNS.iter().enumerate() {
        makes_turn(&rt, rt.alloc(), number, turn)?;
    }
    Ok(())
}

// Two blocks of frames of the locked segment, and two frames of another; the bit of the last is set.
fn locked_frames(alloc: Global) -> Result<Frames, HostMemory> {
    let mut frames = Frames::new(alloc, 130)?;
    for page in 0..130 {
        if let Some(frame) = frames.free_frame() {
            let seg = if frame < 128 { 9 } else { 1 };
            frames.fill(frame, PageRef { seg, page });
            frames.set_referenced(frame, frame == 129);
        }
    }
    Ok(frames)
}

// How many pages a turn asks about.
fn asked_by(frames: &mut Frames, hand: &mut FrameNo, skips: &mut Skips) -> u64
    requires skipped { AreSkipped (is_unlocked 9) frames.old skips.old }
    ensures skipped { AreSkipped (is_unlocked 9) frames.new skips.new }
{
    if *hand >= frames.count() {
        return 0;
    }
    let (mut looks, asked) = (Looks::new(), AtomicU64::new(0));
    let _ = unlocked_victim(frames, hand, 9, None, &mut looks, &asked, skips);
    asked.load(Ordering::SeqCst)
}

#[test]
fn blocks_of_locked_frames_are_asked_about_in_the_first_turn(rt: HostRuntime) -> Result<(), Fail> {
    let mut frames = locked_frames(rt.alloc())?;
    let mut skips = none_skipped(rt.alloc(), &frames)?;
    let mut hand = 0;
    assert!(rt; asked_by(&mut frames, &mut hand, &mut skips) >= 128);
    assert!(rt; hand == 129);
    assert!(rt; asked_by(&mut frames, &mut hand, &mut skips) <= 3);
    assert!(rt; hand == 129);
    Ok(())
}

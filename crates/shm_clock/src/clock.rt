//! Second chance replacement, as a hand that turns over the frames.
//!
//! The hand passes eligible frames whose referenced bit is set, and clears that bit. It stops at the first
//! eligible frame whose bit is clear: the victim. If all bits were set, the victim is the first eligible
//! frame, whose bit is clear by then. Other frames keep their bits. The caller evicts the victim's page.
//!
//! The hand skips blocks of frames whose pages have to stay ([`Skips`]). It marks a block once it has looked
//! through all of it and found no page that may go.
ghost use Rattle.std.specs.Prelude.{ℕ, ◌≡◌, ◌≢◌, [], true, false, ◌+◌, ◌-◌, ◌*◌, ◌<◌, ◌≤◌, ◌^◌, Bool, length};
ghost use Rattle.shm_base.specs.declared.paging.PageRef.{PageRef};
ghost use Rattle.shm_frames.specs.Frame.{frame_at};
ghost use Rattle.shm_clock.specs.Clock.{ring_at, owner_passes, may_go, candidates, victim_of, Decides};
ghost use Rattle.shm_clock.specs.Skips.{AreSkipped};
ghost use Rattle.shm_clock.specs.Turning.{CanTurn, Turns, FindsVictim, CountsLooks};

use shm_base::{FrameNo, PageRef};
use shm_frames::{BLOCK_FRAMES, Frames, Looks, Skips};

/// The frame that is this many steps after the hand, round the ring of the frames.
pub fn frame_after(hand: FrameNo, step: u32, count: u32) -> FrameNo
    requires hand { hand < count }
    requires step { step < count }
    ensures number { result ≡ ring_at hand count step }
    ensures there { result < count }
{
    if step < count - hand {
        hand + step
    } else {
        step - (count - hand)
    }
}

// Whether a frame has a page that may go. Pinned frames are not considered.
fn passes<E: Fn(PageRef) -> bool>(frames: &Frames, frame: FrameNo, eligible: &E) -> bool
    ghost passes: { PageRef → Bool }
    requires there { frame < length frames.now }
    requires eligible { Decides (E.IsAlwaysCallable eligible.now) (E.post eligible.now) passes }
    ensures { result ≡ owner_passes passes (frame_at frames.now frame).owner }
{
    match frames.owner(frame) {
        Some(page) => eligible(page),
        None => false,
    }
}

// Whether a frame has a page that may go, and is not pinned.
fn may_go<E: Fn(PageRef) -> bool>(
    frames: &Frames,
    frame: FrameNo,
    eligible: &E,
    pinned: Option<FrameNo>,
) -> bool
    ghost passes: { PageRef → Bool }
    requires there { frame < length frames.now }
    requires eligible { Decides (E.IsAlwaysCallable eligible.now) (E.post eligible.now) passes }
    ensures { result ≡ may_go passes pinned frames.now frame }
{
    let is_pinned = match pinned {
        Some(other) => other == frame,
        None => false,
    };
    let passed = passes(frames, frame, eligible);
    passed && !is_pinned
}

// The first frame from `first` up to `last` whose page may go; `last` if there is none.
fn next_passing<E: Fn(PageRef) -> bool>(
    frames: &Frames,
    first: FrameNo,
    last: FrameNo,
    eligible: &E,
) -> FrameNo
    ghost passes: { PageRef → Bool }
    requires there { last ≤ length frames.now }
    requires order { first ≤ last }
    requires eligible { Decides (E.IsAlwaysCallable eligible.now) (E.post eligible.now) passes }
    ensures on { first ≤ result }
    ensures within { result ≤ last }
    ensures over { (i : ℕ) → first ≤ i → i < result
        → owner_passes passes (frame_at frames.now i).owner ≡ false }
    ensures stop { result < last → owner_passes passes (frame_at frames.now result).owner ≡ true }
{
    for frame in first..last {
        if passes(frames, frame, eligible) {
            return frame;
        }
    }
    last
}

// How far the hand moves from a frame that is not eligible: past the blocks that are skipped, or to the next
// frame of its block whose page may go. If it looks through a whole block and finds no such frame, it marks
// the block.
#[inline(never)]
fn stride<E: Fn(PageRef) -> bool>(
    frames: &Frames,
    frame: FrameNo,
    eligible: &E,
    skips: &mut Skips,
) -> u32
    ghost passes: { PageRef → Bool }
    requires there { frame < length frames.now }
    requires eligible { Decides (E.IsAlwaysCallable eligible.now) (E.post eligible.now) passes }
    requires skipped { AreSkipped passes frames.now skips.old }
    ensures on { 1 ≤ result }
    ensures within { frame + result ≤ length frames.now }
    ensures over { (i : ℕ) → frame < i → i < frame + result
        → owner_passes passes (frame_at frames.now i).owner ≡ false }
    ensures skipped { AreSkipped passes frames.now skips.new }
{
    let count = frames.count();
    let open = skips.next(frame).min(count as usize) as u32;
    if open > frame {
        return open - frame;
    }
    let end = frame + (BLOCK_FRAMES - frame % BLOCK_FRAMES).min(count - frame);
    let next = next_passing(frames, frame + 1, end, eligible);
    if next == end && frame % BLOCK_FRAMES == 0 && !passes(frames, frame, eligible) {
        skips.mark(frame);
    }
    next - frame
}

// Finds the victim in at most one turn of the hand, which clears the bits that it passes.
fn turn<E: Fn(PageRef) -> bool>(
    frames: &mut Frames,
    hand: FrameNo,
    eligible: &E,
    pinned: Option<FrameNo>,
    looks: &mut Looks,
    skips: &mut Skips,
) -> FrameNo
    ghost passes: { PageRef → Bool }
    requires eligible { Decides (E.IsAlwaysCallable eligible.now) (E.post eligible.now) passes }
    requires turn { CanTurn passes pinned hand frames.old skips.old }
    requires countable { looks.old + length frames.old < 2 ^ 64 }
    ensures turned { Turns passes pinned hand frames.old frames.new skips.new result }
    ensures looks { let going = candidates passes pinned frames.old hand in
        CountsLooks frames.old going result looks.old looks.new }
{
    let count = frames.count();
    let mut first = None;
    let mut step = 0;
    while step < count {
        let frame = frame_after(hand, step, count);
        if may_go(frames, frame, eligible, pinned) {
            if !frames.referenced(frame, looks) {
                return frame;
            }
            frames.set_referenced(frame, false);
            first = Some(first.unwrap_or(frame));
            step += 1;
        } else {
            step += stride(frames, frame, eligible, skips).min(count - step);
        }
    }
    match first {
        Some(frame) => frame,
        None => unreachable!(),
    }
}

/// The frame that [`victim`] would choose. Nothing changes.
pub fn next_victim<E: Fn(PageRef) -> bool>(
    frames: &Frames,
    hand: FrameNo,
    eligible: &E,
    pinned: Option<FrameNo>,
) -> FrameNo
    ghost passes: { PageRef → Bool }
    requires eligible { Decides (E.IsAlwaysCallable eligible.now) (E.post eligible.now) passes }
    requires hand { hand < length frames.now }
    requires one { candidates passes pinned frames.now hand ≢ [] }
    ensures there { result < length frames.now }
    ensures victim { result ≡ victim_of frames.now (candidates passes pinned frames.now hand) }
{
    let count = frames.count();
    let mut looks = Looks::new();
    let mut first = None;
    let mut step = 0;
    while step < count {
        let frame = frame_after(hand, step, count);
        if may_go(frames, frame, eligible, pinned) {
            if !frames.referenced(frame, &mut looks) {
                return frame;
            }
            first = Some(first.unwrap_or(frame));
        }
        step += 1;
    }
    match first {
        Some(frame) => frame,
        None => unreachable!(),
    }
}

/// Chooses the victim: the frame whose page is evicted. `eligible` says whether a page may go; the pinned
/// frame stays. The hand is then at the frame after the victim, or at 0 if the victim is the last frame.
///
/// Precondition: there is an eligible frame other than the pinned one, and no page in the blocks of `skips`
/// is eligible. Each referenced bit is looked at once at most: those of the frames that are passed, and the
/// victim's if it is clear.
pub fn victim<E: Fn(PageRef) -> bool>(
    frames: &mut Frames,
    hand: &mut FrameNo,
    eligible: &E,
    pinned: Option<FrameNo>,
    looks: &mut Looks,
    skips: &mut Skips,
) -> FrameNo
    ghost passes: { PageRef → Bool }
    requires eligible { Decides (E.IsAlwaysCallable eligible.now) (E.post eligible.now) passes }
    requires turn { CanTurn passes pinned hand.old frames.old skips.old }
    requires countable { looks.old + length frames.old < 2 ^ 64 }
    ensures found { FindsVictim passes pinned hand.old hand.new frames.old frames.new skips.new result }
    ensures looks { let going = candidates passes pinned frames.old hand.old in
        CountsLooks frames.old going result looks.old looks.new }
{
    let count = frames.count();
    let frame = turn(frames, *hand, eligible, pinned, looks, skips);
    *hand = if frame + 1 < count { frame + 1 } else { 0 };
    frame
}

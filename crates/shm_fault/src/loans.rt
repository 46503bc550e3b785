//! Pages on loan to the host, and the page that leaves its frame next. The clock chooses without regard to
//! loans, so a caller that lends pages calls `is_barred` before each visit.
ghost use Rattle.std.specs.Prelude.{◌≡◌, ◌≢◌, ◌<◌, ◌∷◌, ℕ, [], length, Some, None, IfSome, IsSome};
ghost use Rattle.shm_clock.specs.Clock.{candidates, victim_of};
ghost use Rattle.shm_frames.specs.Frame.{lent_of};
ghost use Rattle.shm_fault.specs.Goes.{frame_by, referenced_at, unlocked};
ghost use Rattle.shm_fault.specs.Acting.{PutAt};
ghost use Rattle.shm_fault.specs.Held.{FitsPage};
ghost use Rattle.shm_fault.specs.Loans.{SetsLent, frame_met, frame_or_leaver, info_of, is_barred, leaver_in, with_loan};
ghost use Rattle.shm_fault.specs.Placing.{places};
ghost use Rattle.shm_fault.specs.Segs.{rec_by};
ghost use Rattle.shm_fault.specs.Sound.{IsStoreSound};
ghost use Rattle.shm_fault.specs.Store.{held, ref_of};

use crate::page_tables::PageTables;
use crate::store::PageStore;
use shm_base::{FrameNo, PageRef, Span};
use shm_clock::{frame_after, next_victim};
use shm_frames::{Frames, Looks};
use shm_pager_core::Pager;

/// What a frame shows of itself: its page, whether that is referenced, dirty, and on loan, and whether its
/// segment is locked. A free frame has no page, and all else is false.
#[derive(Clone, Copy, Debug, PartialEq, Eq)]
pub struct FrameInfo {
    pub owner: Option<PageRef>,
    pub is_referenced: bool,
    pub is_dirty: bool,
    pub is_lent: bool,
    pub is_locked: bool,
}

// The frame that the clock would choose. Nothing changes.
fn foresee(segs: &PageTables, frames: &Frames, hand: FrameNo, pinned: Option<FrameNo>) -> FrameNo
    requires hand { hand < length frames.now }
    requires one { candidates (unlocked segs.now) pinned frames.now hand ≢ [] }
    ensures victim { result ≡ victim_of frames.now (candidates (unlocked segs.now) pinned frames.now hand) }
    ensures there { result < length frames.now }
{
    let eligible = |page: PageRef| !segs.is_locked(page.seg);
    next_victim(frames, hand, &eligible, pinned)
}

impl<P: Pager> PageStore<P> {
    /// How many pages are on loan.
    #[inline(always)]
    pub fn lent(&self) -> u64
        ensures { result ≡ lent_of self.now.frames }
    {
        self.frames.lent()
    }

    /// The frame whose page would leave it if a page came in now, while the pinned frame stays; none if a
    /// frame is free. Nothing changes.
    pub fn leaver(&self, pinned: Option<FrameNo>) -> Option<FrameNo>
        ensures value { result ≡ leaver_in pinned (places self.now) }
        ensures there { IfSome result (λ f. f < length self.now.frames) }
    {
        if self.frames.resident() < u64::from(self.frames.count()) {
            return None;
        }
        Some(foresee(&self.segs, &self.frames, self.hand, pinned))
    }

    // The frame that a visit to a page would touch or empty: the page's own, or else that of the page that
    // would be evicted.
    fn frame_or_leaver(&self, page: PageRef, pinned: Option<FrameNo>) -> Option<FrameNo>
        ensures value { let known = (rec_by self.now.segs page).frame in
            result ≡ frame_or_leaver known pinned (places self.now) }
        ensures there { IfSome result (λ f. f < length self.now.frames) }
    {
        match self.segs.page(page).frame {
            Some(frame) => Some(frame),
            None => self.leaver(pinned),
        }
    }

    /// Whether a visit to a page, while the pinned frame stays, would touch a page on loan, or would send one
    /// out of its frame.
    pub fn is_barred(&self, page: PageRef, pinned: Option<FrameNo>) -> bool
        ensures { result ≡ is_barred page pinned (places self.now) }
    {
        match self.frame_or_leaver(page, pinned) {
            Some(frame) => self.frames.is_lent(frame),
            None => false,
        }
    }

    /// What a frame shows of itself.
    pub fn frame_info(&self, frame: FrameNo) -> FrameInfo
        requires { frame < length self.now.frames }
        ensures { result ≡ info_of self.now frame }
    {
        let owner = self.frames.owner(frame);
        FrameInfo {
            owner,
            is_referenced: self.frames.referenced(frame, &mut Looks::new()),
            is_dirty: self.frames.is_dirty(frame),
            is_lent: self.frames.is_lent(frame),
            is_locked: match owner {
                Some(page) => self.segs.is_locked(page.seg),
                None => false,
            },
        }
    }

    /// The frame that the clock's hand meets after `place` others; none if there are not that many frames.
    pub fn frame_at(&self, place: u32) -> Option<FrameInfo>
        ensures { result ≡ frame_met self.now place }
    {
        let count = self.frames.count();
        if place >= count {
            return None;
        }
        Some(self.frame_info(frame_after(self.hand, place, count)))
    }

    /// Notes that a resident page is on loan, or that it is not any more.
    pub fn set_lent(&mut self, page: PageRef, lent: bool)
        requires here { IsSome (frame_by self.old page) }
        ensures { SetsLent page lent self.old self.new }
    {
        let Some(frame) = self.segs.page(page).frame else {
            unreachable!();
        };
        self.frames.set_lent(frame, lent);
    }

    /// Replaces bytes of a resident page. Its frame is dirty then, and no referenced bit changes.
    pub fn put_back(&mut self, span: &Span, bytes: &[u8])
        requires fit { FitsPage (held self.old) span.now }
        requires here { IsSome (frame_by self.old (ref_of span.now)) }
        requires size { span.now.len ≡ length bytes.now }
        ensures { PutAt bytes.now (span.now ∷ []) self.old self.new }
    {
        let page = self.page_at(span);
        let Some(frame) = self.segs.page(page).frame else {
            unreachable!();
        };
        self.store(span, frame, bytes);
    }
}

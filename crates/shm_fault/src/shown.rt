//! Read access to the parts of a store: its frames, its swap areas, and the position of the clock's hand.
ghost use Rattle.std.specs.Prelude.{◌≡◌};

use crate::store::PageStore;
use shm_base::FrameNo;
use shm_frames::Frames;
use shm_pager_core::Pager;
use shm_slots::Swap;

impl<P: Pager> PageStore<P> {
    /// The frames with their owners and bits. Looks at referenced bits other than the clock's have a counter
    /// of their own.
    pub fn frames(&self) -> &Frames
        ensures { result.now ≡ self.now.frames }
    {
        &self.frames
    }

    /// The swap areas, and who owns their slots.
    pub fn swap(&self) -> &Swap<P>
        ensures { result.now ≡ self.now.swap }
    {
        &self.swap
    }

    /// The frame at which the clock's hand is.
    pub fn hand(&self) -> FrameNo
        ensures { result ≡ self.now.hand }
    {
        self.hand
    }
}

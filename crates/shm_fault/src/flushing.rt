//! Writes dirty frames before their pages are evicted.
ghost use Rattle.std.specs.Prelude.{◌≡◌, ◌+◌, ◌-◌, ◌<◌, ◌^◌, true, false, length, IsSome};
ghost use Rattle.shm_slots.specs.View.{sizes};
ghost use Rattle.shm_slots.specs.Cause.{GoesOn};
ghost use Rattle.shm_frames.specs.Frame.{frame_at};
ghost use Rattle.shm_fault.specs.Store.{held, Still};
ghost use Rattle.shm_fault.specs.Sound.{IsStoreSound};
ghost use Rattle.shm_fault.specs.Steps.{LockedPagesStay};
ghost use Rattle.shm_fault.specs.Flushing.{IsFlushed, WritesOne, may_flush};

use crate::store::PageStore;
use shm_base::{FlushReport, FrameNo};
use shm_pager_core::Pager;

impl<P: Pager> PageStore<P> {
    // Whether the segment of a dirty frame's page is not locked.
    fn is_flushable(&self, frame: FrameNo) -> bool
        requires there { frame < length self.now.frames }
        requires dirty { (frame_at self.now.frames frame).dirty ≡ true }
        ensures { result ≡ may_flush self.now frame }
    {
        match self.frames.owner(frame) {
            Some(page) => !self.segs.is_locked(page.seg),
            None => false,
        }
    }

    // Writes a dirty frame out, and counts whether that succeeded.
    fn flush_frame(&mut self, frame: FrameNo, report: &mut FlushReport)
        requires there { frame < length self.old.frames }
        requires owned { IsSome (frame_at self.old.frames frame).owner }
        requires dirty { (frame_at self.old.frames frame).dirty ≡ true }
        requires small { report.old.written + report.old.failed < 2 ^ 64 - 1 }
        ensures { WritesOne frame self.old self.new report.old report.new }
    {
        match self.page_out(frame) {
            Ok(()) => report.written += 1,
            Err(_) => report.failed += 1,
        }
    }

    /// Writes the first `n` dirty frames of segments that are not locked, in the order of their numbers, each
    /// to the slot of its page, as an eviction would. A frame whose write failed stays dirty, and is one of
    /// the `n`. The clock's hand stays.
    pub fn flush(&mut self, n: u64) -> FlushReport
        ensures flushed { IsFlushed self.old self.new n result }
        ensures held { held self.new ≡ held self.old }
        ensures still { Still self.old self.new }
        ensures kept { LockedPagesStay self.old self.new }
        ensures counts { GoesOn self.old.swap self.new.swap }
        ensures sizes { sizes self.new.swap ≡ sizes self.old.swap }
        ensures count { length self.new.frames ≡ length self.old.frames }
        ensures sound { IsStoreSound self.new }
    {
        let mut report = FlushReport {
            written: 0,
            failed: 0,
        };
        let count = self.frames.count();
        let mut from = 0;
        while from < count && report.written + report.failed < n {
            let Some(frame) = self.frames.next_dirty(from) else {
                return report;
            };
            if self.is_flushable(frame) {
                self.flush_frame(frame, &mut report);
            }
            from = frame + 1;
        }
        report
    }
}

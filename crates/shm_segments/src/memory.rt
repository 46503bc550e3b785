//! The bytes of the segments, and the pages that have them.
ghost use Rattle.std.specs.Prelude.{◌≡◌, ◌<◌, ◌≤◌, ◌+◌, length, true, false, OnErr, OnOk};
ghost use Rattle.shm_base.specs.Access.{loaded};
ghost use Rattle.shm_base.specs.Segments.{reserved};
ghost use Rattle.shm_base.specs.Spans.{span_places};
ghost use Rattle.shm_fault.specs.Allowed.{IsAccess};
ghost use Rattle.shm_base.specs.declared.bounds.TheConstants.{MOST_AREAS};
ghost use Rattle.shm_pager_core.specs.Pages.{pager_seen};
ghost use Rattle.shm_slots.specs.View.{IsAreaSize, area_at, fresh, sizes, swap_slots, with_new};
ghost use Rattle.shm_fault.specs.Store.{Still, held};
ghost use Rattle.shm_fault.specs.Access.{NameFrames, IsUntouched, answer_of};
ghost use Rattle.shm_fault.specs.Acting.{FitsRoom, put_by, size_of};
ghost use Rattle.shm_segments.specs.Acted.{Acted};
ghost use Rattle.shm_fault.specs.Flushing.{IsFlushed};
ghost use Rattle.shm_fault.specs.Moving.{MovesOff};
ghost use Rattle.shm_segments.specs.Table.{SpanFits};
ghost use Rattle.shm_segments.specs.View.{IsTableExact, KeepsMemory};

use crate::segments::Segments;
use shm_base::{FlushReport, HostMemory, Span};
use shm_fault::{Act, PageStore, PagerFailed, Touched};
use shm_pager_core::{Pager, PagerFault};
use std::alloc::Global;

impl<P: Pager> Segments<P> {
    /// The store of the pages.
    pub fn store(&self) -> &PageStore<P>
        ensures value { result.now ≡ self.now.memory }
        ensures exact { IsTableExact self.now.table self.now.memory }
    {
        &self.store
    }

    /// Does an act at the bytes of one or two spans, each with the frame of its page. If `there` is as long as
    /// they are, it gets the old bytes. Brings in pages that are not resident. `touched` gets the counts and
    /// the pages that moved. PagerFault: a pager failed, and neither a byte nor `there` changed.
    #[inline(always)]
    pub fn access(
        &mut self,
        spans: &[Span],
        act: Act<'_>,
        there: &mut [u8],
        touched: &mut Touched,
    ) -> Result<(), PagerFault>
        requires spans { IsAccess (SpanFits self.old.table) spans.now (size_of act (length there.old)) }
        requires room { FitsRoom act (length there.old) }
        requires frames { NameFrames self.old.memory spans.now }
        requires none { IsUntouched touched.old }
        ensures { let answer = answer_of touched.new result in
            let put = put_by act.entry (loaded self.old.table (span_places false spans.now)) in
            Acted put spans.now there.old there.new self.old self.new result answer }
    {
        self.store.access(spans, act, there, touched)
    }

    /// Writes the first `n` dirty frames of segments that are not locked to their slots.
    pub fn flush(&mut self, n: u64) -> FlushReport
        ensures flushed { IsFlushed self.old.memory self.new.memory n result }
        ensures table { self.new.table ≡ self.old.table }
        ensures still { Still self.old.memory self.new.memory }
        ensures sizes { sizes self.new.memory.swap ≡ sizes self.old.memory.swap }
        ensures keeps { KeepsMemory self.old.memory self.new.memory }
    {
        self.store.flush(n)
    }

    /// Takes an active swap area away, and moves its pages elsewhere before. The other areas must have a slot
    /// for each page of each segment. PagerFailed: a pager failed, and the area stays.
    pub fn move_off(&mut self, area: u32) -> Result<(), PagerFailed>
        requires there { (area_at self.old.memory.swap area).here ≡ true }
        requires room { reserved self.old.table + length (area_at self.old.memory.swap area).pages
            ≤ swap_slots self.old.memory.swap }
        ensures moves { MovesOff area self.old.memory self.new.memory result }
        ensures table { self.new.table ≡ self.old.table }
        ensures keeps { KeepsMemory self.old.memory self.new.memory }
    {
        self.store.move_off(area)
    }

    /// One more swap area, with the next number; none of its slots is owned. No byte changes, and no page moves.
    /// HostMemory: the host refused memory, and nothing changed.
    pub fn add_area(&mut self, alloc: Global, pager: P) -> Result<(), HostMemory>
        requires few { length self.old.memory.swap.areas < MOST_AREAS }
        requires size { IsAreaSize (length (P.content pager)) }
        ensures memory { let area = fresh (pager_seen P.content P.failed P.most P.calls pager) in
            OnOk result (self.new.memory
            ≡ record self.old.memory { swap = with_new self.old.memory.swap area }) }
        ensures table { self.new.table ≡ self.old.table }
        ensures held { held self.new.memory ≡ held self.old.memory }
        ensures err { OnErr result (self.new ≡ self.old) }
    {
        self.store.add_area(alloc, pager)
    }
}

//! Pages on loan to the host: marks of resident pages, and bytes that come back.
ghost use Rattle.std.specs.Prelude.{◌≡◌, ◌∷◌, [], length, Some, false, IsSome};
ghost use Rattle.shm_base.specs.Spans.{span_places};
ghost use Rattle.shm_fault.specs.Acting.{PutAt};
ghost use Rattle.shm_fault.specs.Goes.{frame_by};
ghost use Rattle.shm_fault.specs.Loans.{SetsLent};
ghost use Rattle.shm_fault.specs.Store.{ref_of};
ghost use Rattle.shm_segments.specs.Table.{SpanFits, table_with};
ghost use Rattle.shm_segments.specs.View.{KeepsMemory};

use crate::segments::Segments;
use shm_base::{PageRef, Span};
use shm_pager_core::Pager;

impl<P: Pager> Segments<P> {
    /// The page of a span.
    pub fn page_at(&self, span: &Span) -> PageRef
        requires { SpanFits self.now.table span.now }
        ensures { result ≡ ref_of span.now }
    {
        self.store.page_at(span)
    }

    /// Notes that a resident page is on loan, or that it is not any more.
    pub fn set_lent(&mut self, page: PageRef, lent: bool)
        requires here { IsSome (frame_by self.old.memory page) }
        ensures set { SetsLent page lent self.old.memory self.new.memory }
        ensures table { self.new.table ≡ self.old.table }
        ensures keeps { KeepsMemory self.old.memory self.new.memory }
    {
        self.store.set_lent(page, lent);
    }

    /// Replaces bytes of a resident page. Its frame is dirty then, and no referenced bit changes.
    pub fn put_back(&mut self, span: &Span, bytes: &[u8])
        requires fit { SpanFits self.old.table span.now }
        requires here { IsSome (frame_by self.old.memory (ref_of span.now)) }
        requires size { span.now.len ≡ length bytes.now }
        ensures put { PutAt bytes.now (span.now ∷ []) self.old.memory self.new.memory }
        ensures table { let places = span_places false (span.now ∷ []) in
            self.new.table ≡ table_with self.old.table places (Some bytes.now) }
        ensures keeps { KeepsMemory self.old.memory self.new.memory }
    {
        self.store.put_back(span, bytes);
    }
}

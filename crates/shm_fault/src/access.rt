//! Reads and writes of bytes. The pages of an access come in first, in the order of its spans, and the first
//! stays while the second comes in. Only then are bytes read or changed. `after_access` says where each page
//! is then and which bits are set; `Stops` says it after a pager failed. A page that comes in is clean. A
//! write makes the frames of its pages dirty, even if it writes the bytes that were there.
ghost use Rattle.std.specs.Prelude.{◌≡◌, ℕ, ◌+◌, ◌%◌, ◌^◌, None, ◌<◌, ◌≤◌, [], ◌∷◌, length, map, set, true, Some, is_ok, IfOk, OnOk, OnErr, All, IsSome};
ghost use Rattle.std.specs.Int.{w64, from_le_bytes, to_le_bytes};
ghost use Rattle.shm_base.specs.Access.{same_bytes};
ghost use Rattle.shm_base.specs.declared.paging.Span.{Span as SpanValue};
ghost use Rattle.shm_base.specs.declared.paging.TheConstants.{PAGE_BYTES};
ghost use Rattle.shm_fault.specs.Held.{FitsPage, read_from, written, pasted, paste, span_bytes};
ghost use Rattle.shm_fault.specs.Allowed.{IsAccess};
ghost use Rattle.shm_frames.specs.Frame.{frame_at};
ghost use Rattle.shm_fault.specs.Segs.{HasPage};
ghost use Rattle.shm_fault.specs.Store.{held, ref_of};
ghost use Rattle.shm_fault.specs.Sound.{IsStoreSound};
ghost use Rattle.shm_fault.specs.Goes.{frame_by, referenced_at};
ghost use Rattle.shm_fault.specs.Placing.{places, with_bit, after_access, Stops};
ghost use Rattle.shm_fault.specs.Counting.{counted};
ghost use Rattle.shm_fault.specs.Access.{NameFrames, NamesFrame, IsUntouched, AreIn, Brings, answer_of};
ghost use Rattle.shm_fault.specs.Acting.{Acts, FitsRoom, HasOld, PutAt, Puts, put_by, size_of};

use crate::act::Act;
use crate::store::PageStore;
use crate::touched::{PagerFailed, Touched};
use shm_base::{FrameNo, MOST_FRAMES, PAGE_SIZE, PageRef, Span};
use shm_frames::Frames;
use shm_pager_core::{Pager, PagerFault};

/// The frames that the pages of one or two spans are in; the same frame twice for one span.
#[derive(Clone, Copy)]
pub(crate) struct InFrames {
    pub(crate) first: FrameNo,
    pub(crate) second: FrameNo,
}

impl InFrames {
    // For no span.
    const ANY: InFrames = InFrames {
        first: 0,
        second: 0,
    };
}

// Copies bytes; 8 of them, a machine word, without a call.
#[inline(always)]
fn copy_bytes(from: &[u8], to: &mut [u8])
    requires { length from.now ≡ length to.old }
    ensures { to.new ≡ from.now }
{
    if to.len() == 8 {
        to.copy_from_slice(&from[..8]);
    } else {
        to.copy_from_slice(from);
    }
}

// Makes an owned frame dirty.
#[inline(always)]
fn make_dirty(frames: &mut Frames, frame: FrameNo)
    requires there { frame < length frames.old }
    requires owned { IsSome (frame_at frames.old frame).owner }
    ensures { frames.new ≡ set frames.old frame (record (frame_at frames.old frame) { dirty = true }) }
{
    if !frames.is_dirty(frame) {
        frames.set_dirty(frame, true);
    }
}

// Writes bytes into a frame.
#[inline(always)]
fn paste_into(frames: &mut Frames, frame: FrameNo, from: usize, bytes: &[u8])
    requires there { frame < length frames.old }
    requires fit { from + length bytes.now ≤ PAGE_BYTES }
    ensures { let before = frame_at frames.old frame in
        frames.new ≡ set frames.old frame (record before { bytes = paste before.bytes from bytes.now }) }
{
    let page = frames.bytes_mut(frame);
    copy_bytes(bytes, &mut page[from..from + bytes.len()]);
}

// Whether bytes are the expected ones.
fn are_same(bytes: &[u8], expected: &[u8]) -> bool
    ensures { result ≡ same_bytes bytes.now expected.now }
{
    bytes == expected
}

// The number in eight bytes, with another added to it.
#[inline(always)]
fn sum_with(bytes: &[u8], more: u64) -> [u8; 8]
    requires { length bytes.now ≡ 8 }
    ensures { result ≡ to_le_bytes w64 ((from_le_bytes w64 bytes.now + more) % 2 ^ 64) }
{
    let mut number = [0; 8];
    number.copy_from_slice(bytes);
    u64::from_le_bytes(number).wrapping_add(more).to_le_bytes()
}

impl<P: Pager> PageStore<P> {
    /// The page of a span.
    pub fn page_at(&self, span: &Span) -> PageRef
        requires { FitsPage (held self.now) span.now }
        ensures page { result ≡ ref_of span.now }
        ensures has { HasPage self.now.segs result }
        ensures sound { IsStoreSound self.now }
    {
        // This brings in the store's invariant, on which the clauses and the cast rest.
        prove!((self.hand as u64) < MOST_FRAMES);
        PageRef {
            seg: span.seg,
            page: (span.at / PAGE_SIZE) as u32,
        }
    }

    // The frame that the page of a span is in. It is the one that the span names, as long as nothing moved.
    fn frame_now(&self, span: &Span, page: PageRef, touched: &Touched) -> Option<FrameNo>
        requires page { page ≡ ref_of span.now }
        requires still { touched.now.moved.items ≡ [] → NamesFrame self.now span.now }
        ensures { result ≡ frame_by self.now page }
    {
        if touched.moved.is_empty() {
            return span.frame;
        }
        self.segs.page(page).frame
    }

    // Brings in the page of a span.
    #[inline(always)]
    fn bring_one(&mut self, first: &Span, touched: &mut Touched) -> Result<InFrames, PagerFault>
        requires fit { FitsPage (held self.old) first.now }
        requires frame { NamesFrame self.old first.now }
        requires none { IsUntouched touched.old }
        ensures { Brings (first.now ∷ []) self.old self.new touched.new result }
    {
        let page = self.page_at(first);
        let frame = self.visit(page, first.frame, None, touched)?;
        Ok(InFrames {
            first: frame,
            second: frame,
        })
    }

    // Brings in the pages of two spans. If the first fails, the second is not tried. It takes the spans by
    // value, so that those of an access to one page can stay in registers.
    #[inline(never)]
    fn bring_two(
        &mut self,
        first: Span,
        second: Span,
        touched: &mut Touched,
    ) -> Result<InFrames, PagerFault>
        requires fit { FitsPage (held self.old) first × FitsPage (held self.old) second }
        requires frames { NamesFrame self.old first × NamesFrame self.old second }
        requires none { IsUntouched touched.old }
        ensures { Brings (first ∷ second ∷ []) self.old self.new touched.new result }
    {
        let page = self.page_at(&first);
        let near = self.visit(page, first.frame, None, touched)?;
        let page = self.page_at(&second);
        let known = self.frame_now(&second, page, touched);
        let far = self.visit(page, known, Some(near), touched)?;
        Ok(InFrames {
            first: near,
            second: far,
        })
    }

    // Brings in the pages of at most two spans, the first page first, and returns their frames.
    #[inline(always)]
    pub(crate) fn bring_spans(
        &mut self,
        spans: &[Span],
        touched: &mut Touched,
    ) -> Result<InFrames, PagerFault>
        requires few { length spans.now ≤ 2 }
        requires fit { All (FitsPage (held self.old)) spans.now }
        requires frames { NameFrames self.old spans.now }
        requires none { IsUntouched touched.old }
        ensures brings { Brings spans.now self.old self.new touched.new result }
        ensures sound { IsStoreSound self.new }
    {
        let brought = match spans {
            [] => Ok(InFrames::ANY),
            [first] => self.bring_one(first, touched),
            [first, second, ..] => self.bring_two(*first, *second, touched),
        };
        // This brings in the store's invariant, which is the clause `sound`.
        prove!((self.hand as u64) < MOST_FRAMES);
        brought
    }

    // Copies the bytes of a span out of the frame that its page is in.
    #[inline(always)]
    fn copy_out(&self, span: &Span, frame: FrameNo, out: &mut [u8])
        requires fit { FitsPage (held self.now) span.now }
        requires here { frame_by self.now (ref_of span.now) ≡ Some frame }
        requires size { span.now.len ≡ length out.old }
        ensures { out.new ≡ span_bytes (held self.now) span.now }
    {
        let from = (span.at % PAGE_SIZE) as usize;
        let bytes = self.frames.bytes(frame);
        copy_bytes(&bytes[from..from + out.len()], out);
    }

    // Writes bytes into the frame that the page of a span is in.
    #[inline(always)]
    pub(crate) fn store(&mut self, span: &Span, frame: FrameNo, bytes: &[u8])
        requires fit { FitsPage (held self.old) span.now }
        requires here { frame_by self.old (ref_of span.now) ≡ Some frame }
        requires size { span.now.len ≡ length bytes.now }
        ensures { PutAt bytes.now (span.now ∷ []) self.old self.new }
    {
        // The bit first: then the look at it and the write share one test of the frame's number.
        make_dirty(&mut self.frames, frame);
        let from = (span.at % PAGE_SIZE) as usize;
        paste_into(&mut self.frames, frame, from, bytes);
    }

    // As [`PageStore::copy_spans`], for two spans.
    #[inline(never)]
    fn copy_two(&self, first: Span, second: Span, here: InFrames, out: &mut [u8])
        requires spans { IsAccess (FitsPage (held self.now)) (first ∷ second ∷ []) (length out.old) }
        requires here { AreIn self.now (first ∷ second ∷ []) here }
        ensures { out.new ≡ read_from (held self.now) (first ∷ second ∷ []) }
    {
        let (front, back) = out.split_at_mut(first.len as usize);
        self.copy_out(&first, here.first, front);
        self.copy_out(&second, here.second, back);
    }

    // As [`PageStore::store_spans`], for two spans.
    #[inline(never)]
    fn store_two(&mut self, first: Span, second: Span, here: InFrames, bytes: &[u8])
        requires spans { IsAccess (FitsPage (held self.old)) (first ∷ second ∷ []) (length bytes.now) }
        requires here { AreIn self.old (first ∷ second ∷ []) here }
        requires sound { IsStoreSound self.old }
        ensures { PutAt bytes.now (first ∷ second ∷ []) self.old self.new }
    {
        let (front, back) = bytes.split_at(first.len as usize);
        self.store(&first, here.first, front);
        self.store(&second, here.second, back);
    }

    // Copies the bytes of spans out of the frames that their pages are in.
    #[inline(always)]
    pub(crate) fn copy_spans(&self, spans: &[Span], here: InFrames, out: &mut [u8])
        requires spans { IsAccess (FitsPage (held self.now)) spans.now (length out.old) }
        requires here { AreIn self.now spans.now here }
        ensures { out.new ≡ read_from (held self.now) spans.now }
    {
        match spans {
            [] => {}
            [first] => self.copy_out(first, here.first, out),
            [first, second, ..] => self.copy_two(*first, *second, here, out),
        }
    }

    // Writes bytes into the frames that the pages of spans are in.
    #[inline(always)]
    pub(crate) fn store_spans(&mut self, spans: &[Span], here: InFrames, bytes: &[u8])
        requires spans { IsAccess (FitsPage (held self.old)) spans.now (length bytes.now) }
        requires here { AreIn self.old spans.now here }
        requires sound { IsStoreSound self.old }
        ensures { PutAt bytes.now spans.now self.old self.new }
    {
        match spans {
            [] => {}
            [first] => self.store(first, here.first, bytes),
            [first, second, ..] => self.store_two(*first, *second, here, bytes),
        }
    }

    // Does an act at the bytes of spans, whose pages are in these frames.
    #[inline(always)]
    fn act(&mut self, spans: &[Span], here: InFrames, act: Act<'_>, there: &mut [u8])
        requires spans { IsAccess (FitsPage (held self.old)) spans.now (size_of act (length there.old)) }
        requires room { FitsRoom act (length there.old) }
        requires here { AreIn self.old spans.now here }
        requires sound { IsStoreSound self.old }
        ensures there { HasOld (held self.old) spans.now there.old there.new }
        ensures put { let put = put_by act.entry (read_from (held self.old) spans.now) in
            Puts put spans.now self.old self.new }
    {
        if there.len() == act.size(there.len()) {
            self.copy_spans(spans, here, there);
        }
        let mut sum = [0; 8];
        let bytes: &[u8] = match act {
            Act::Nothing => return,
            Act::PutIfEqual { expected, .. } if !are_same(there, expected) => return,
            Act::Put(bytes) | Act::PutIfEqual { bytes, .. } => bytes,
            Act::Add(more) => {
                sum = sum_with(there, more);
                &sum
            }
        };
        self.store_spans(spans, here, bytes);
    }

    /// Does an act at the bytes of at most two spans, once their pages are resident. If `there` is as long as
    /// they are, it gets the old bytes. A page that is not resident comes in, for which another may have to
    /// leave its frame. The first page stays while the second comes in. If the first fails, the second is not
    /// tried. The frames of bytes that are put are dirty then, and no others become dirty. The pagers do
    /// nothing else. `touched` begins as [`Touched::none`]; it gets the counts and the pages that moved.
    ///
    /// PagerFault: a pager failed, whose count rose in the call or was at its maximum before; no byte of any
    /// segment has changed, nor has `there`. Precondition: each span lies in one page of a held segment and
    /// names the frame that the page is in, and the lengths add up to that of the act's bytes.
    #[inline(always)]
    pub fn access(
        &mut self,
        spans: &[Span],
        act: Act<'_>,
        there: &mut [u8],
        touched: &mut Touched,
    ) -> Result<(), PagerFault>
        requires spans { IsAccess (FitsPage (held self.old)) spans.now (size_of act (length there.old)) }
        requires room { FitsRoom act (length there.old) }
        requires frames { NameFrames self.old spans.now }
        requires none { IsUntouched touched.old }
        ensures { let answer = answer_of touched.new result in
            let put = put_by act.entry (read_from (held self.old) spans.now) in
            Acts put spans.now there.old there.new self.old self.new result answer }
    {
        let here = self.bring_spans(spans, touched)?;
        self.act(spans, here, act, there);
        Ok(())
    }

    /// Reads the bytes of at most two spans, one after another, as [`PageStore::access`] does. Returns the
    /// counts and the pages that moved.
    pub fn read(&mut self, spans: &[Span], out: &mut [u8]) -> Result<Touched, PagerFailed>
        requires spans { IsAccess (FitsPage (held self.old)) spans.now (length out.old) }
        requires frames { NameFrames self.old spans.now }
        ensures { Acts None spans.now out.old out.new self.old self.new result result }
    {
        let mut touched = Touched::none();
        match self.access(spans, Act::Nothing, out, &mut touched) {
            Ok(()) => Ok(touched),
            Err(_) => Err(PagerFailed { touched }),
        }
    }

    /// Replaces the bytes of at most two spans, in their order, as [`PageStore::access`] does. Returns the
    /// counts and the pages that moved.
    pub fn write(&mut self, spans: &[Span], bytes: &[u8]) -> Result<Touched, PagerFailed>
        requires spans { IsAccess (FitsPage (held self.old)) spans.now (length bytes.now) }
        requires frames { NameFrames self.old spans.now }
        ensures { Acts (Some bytes.now) spans.now [] [] self.old self.new result result }
    {
        let mut touched = Touched::none();
        match self.access(spans, Act::Put(bytes), &mut [], &mut touched) {
            Ok(()) => Ok(touched),
            Err(_) => Err(PagerFailed { touched }),
        }
    }
}

//! Accesses: acts at the bytes from an address on, and the replies to the calls that they are.
ghost use Rattle.std.specs.Prelude.{◌≡◌, ◌∷◌, [], ◌≤◌, ◌-◌, ◌++◌, ℕ, None, Some, false, length, replicate, take, IfErr, IfOk, IfSome};
ghost use Rattle.shm_base.specs.Spans.{span_places};
ghost use Rattle.shm_base.specs.Callers.{caller_of};
ghost use Rattle.shm_base.specs.declared.paging.TheConstants.{PAGE_SIZE};
ghost use Rattle.shm_fault.specs.Access.{NameFrames};
ghost use Rattle.shm_fault.specs.Acting.{FitsRoom, size_of, writes};
ghost use Rattle.shm_fault.specs.Allowed.{IsAccess};
ghost use Rattle.shm_attach.specs.Spaces.{IsCaller, caller_seen, pieces_at};
ghost use Rattle.shm_attach.specs.Spans.{wanted_in};
ghost use Rattle.shm_segments.specs.Table.{SpanFits};
ghost use Rattle.shm_life.specs.Accessing.{Does, DoesBy, call_of, reply_of, sole_resident};
ghost use Rattle.shm_life.specs.MachineView.{Served, reply_in};

use crate::kernel::Kernel;
use shm_attach::{Caller, Spans};
use shm_base::{AccessLen, Chunk, Errno, LONGEST_ACCESS, Reply, Span};
use shm_fault::{Act, Touched};
use shm_pager_core::Pager;

// The span, if there is only one and its frame is known, so that no page has to come in.
#[inline(always)]
fn resident(spans: &[Span]) -> Option<Span>
    ensures is { result ≡ sole_resident spans.now }
    ensures sole { IfSome result (λ span. spans.now ≡ span ∷ []) }
{
    let [span] = spans else {
        return None;
    };
    if span.frame.is_none() {
        return None;
    }
    Some(*span)
}

// The reply to an act that found these bytes; zeros follow them.
#[inline(always)]
fn reply_with(act: &Act<'_>, old: [u8; LONGEST_ACCESS], room: usize) -> Reply
    requires fits { FitsRoom act.now room }
    requires size { (1 ≤ size_of act.now room) × (room ≤ 64) }
    requires zeros { old ≡ take room old ++ replicate (64 - room) 0 }
    ensures { result ≡ reply_of act.now room (take room old) }
{
    match act {
        Act::Add(_) => {
            let mut number = [0; 8];
            number.copy_from_slice(&old[..8]);
            Reply::Number(u64::from_le_bytes(number))
        }
        Act::Put(bytes) if bytes.len() != room => Reply::Done,
        _ => Reply::Bytes(Chunk::from_array(old, AccessLen::new(room as u64).unwrap())),
    }
}

impl<P: Pager> Kernel<P> {
    // The spans of an access, with the frames that are known. Sigsegv: an address has no piece, or a write
    // meets a read-only one.
    #[inline(always)]
    pub(crate) fn spans_of(
        &self,
        caller: &Caller,
        addr: u64,
        len: u64,
        write: bool,
    ) -> Result<Spans, Errno>
        requires caller { IsCaller caller.now self.now.flat.runners }
        requires size { (1 ≤ len) × (len ≤ PAGE_SIZE) }
        ensures fit { IfOk result (λ spans. IsAccess (SpanFits self.now.flat.table) spans len) }
        ensures frames { IfOk result (λ spans. NameFrames self.now.memory spans) }
        ensures places { let pieces = pieces_at self.now.flat.runners caller.now.index in
            IfOk result (λ spans. wanted_in write pieces addr len ≡ Some (span_places false spans)) }
        ensures none { let pieces = pieces_at self.now.flat.runners caller.now.index in
            IfErr result (λ e. (e ≡ Errno.Sigsegv) × (wanted_in write pieces addr len ≡ None)) }
    {
        self.spaces
            .spans_of(caller, addr, len, write)
            .or(Err(Errno::Sigsegv))
    }

    // Does an act at the bytes of spans, and notes which pages moved.
    #[inline(always)]
    pub(crate) fn act(
        &mut self,
        spans: &[Span],
        act: Act<'_>,
        there: &mut [u8],
    ) -> Result<(), Errno>
        requires spans { let size = size_of act (length there.old) in
            IsAccess (SpanFits self.old.flat.table) spans.now size }
        requires room { FitsRoom act (length there.old) }
        requires frames { NameFrames self.old.memory spans.now }
        ensures { Does act.entry (span_places false spans.now) there.old there.new self.old result self.new }
    {
        let mut touched = Touched::none();
        let done = self.segments.access(spans, act, there, &mut touched);
        // If a pager failed, pages may have moved before.
        self.spaces.note(touched.moved.as_slice());
        done.or(Err(Errno::Sigbus))
    }

    // As [`Kernel::act`], if pages may have to come in. Kept out of line, so that other accesses do not pay
    // for it.
    #[inline(never)]
    fn act_paged(&mut self, spans: Spans, act: Act<'_>, there: &mut [u8]) -> Result<(), Errno>
        requires spans { let size = size_of act (length there.old) in
            IsAccess (SpanFits self.old.flat.table) spans size }
        requires room { FitsRoom act (length there.old) }
        requires frames { NameFrames self.old.memory spans }
        ensures { Does act.entry (span_places false spans) there.old there.new self.old result self.new }
    {
        self.act(spans.as_slice(), act, there)
    }

    #[tactic(auto, using(crate::proofs::Running::kept_refl, crate::proofs::Running::pages_rest))]
    /// Does an act at the bytes from an address on. If `there` is as long as they are, it gets the old bytes.
    /// Sigsegv: an address has no piece, or a read-only one and the act needs more. Sigbus: a pager failed. If
    /// it is refused, neither a byte nor `there` changed.
    #[inline(always)]
    pub(crate) fn access(
        &mut self,
        caller: &Caller,
        addr: u64,
        act: Act<'_>,
        there: &mut [u8],
    ) -> Result<(), Errno>
        requires caller { IsCaller caller.now self.old.flat.runners }
        requires room { FitsRoom act (length there.old) }
        requires size { let size = size_of act (length there.old) in (1 ≤ size) × (size ≤ PAGE_SIZE) }
        ensures { let seen = Some (caller_seen caller.now self.old.flat.runners) in
            DoesBy act.entry addr seen there.old there.new self.old result self.new }
    {
        let spans = self.spans_of(caller, addr, act.size(there.len()) as u64, act.writes())?;
        match resident(spans.as_slice()) {
            Some(span) => self.act(&[span], act, there),
            None => self.act_paged(spans, act, there),
        }
    }

    /// As [`Kernel::access`], by the process with this pid. Esrch: it is not live.
    #[inline(always)]
    pub(crate) fn access_by(
        &mut self,
        pid: u32,
        addr: u64,
        act: Act<'_>,
        there: &mut [u8],
    ) -> Result<(), Errno>
        requires room { FitsRoom act (length there.old) }
        requires size { let size = size_of act (length there.old) in (1 ≤ size) × (size ≤ PAGE_SIZE) }
        ensures { let seen = caller_of self.old.flat pid in
            DoesBy act.entry addr seen there.old there.new self.old result self.new }
    {
        let Some(caller) = self.spaces.caller_again(pid) else {
            return Err(Errno::Esrch);
        };
        self.access(&caller, addr, act, there)
    }

    /// Serves the access that does an act at the bytes from an address on, with room for this many old ones;
    /// refused as [`Kernel::access`] is.
    #[inline(always)]
    pub(crate) fn serve_access(
        &mut self,
        caller: &Caller,
        addr: u64,
        act: Act<'_>,
        room: usize,
        reply: &mut Reply,
    ) -> Result<(), Errno>
        requires caller { IsCaller caller.now self.old.flat.runners }
        requires fits { FitsRoom act room }
        requires size { let size = size_of act room in (1 ≤ size) × (size ≤ PAGE_SIZE) }
        requires most { room ≤ 64 }
        ensures { let called = call_of act.entry addr room in
            (n : ℕ) → Served self.old n caller.now called (reply_in reply.new result) self.new }
    {
        let mut old = [0; LONGEST_ACCESS];
        if let Err(errno) = self.access(caller, addr, act, &mut old[..room]) {
            return Err(errno);
        }
        *reply = reply_with(&act, old, room);
        Ok(())
    }
}

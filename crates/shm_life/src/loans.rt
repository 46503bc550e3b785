//! Pages on loan to a machine's host, such as an emulator or a kernel, which keeps copies of them where its
//! guests reach them by a pointer. None of this is a call of a process.
//!
//! A page that is on loan stays in its frame. The calls of a process that touch pages do not look for loans, so
//! a host that lends pages asks [`System::make_ready`] before each of them.
ghost use Rattle.std.specs.Prelude.{◌≡◌, ◌≤◌, ◌∷◌, [], length, true, false, None, Some, OnErr, OnOk, IfSome, IsOk, IsSome, option_map};
ghost use Rattle.shm_base.specs.Access.{loaded};
ghost use Rattle.shm_base.specs.Callers.{caller_of};
ghost use Rattle.shm_base.specs.declared.paging.TheConstants.{PAGE_SIZE};
ghost use Rattle.shm_frames.specs.Frame.{lent_of};
ghost use Rattle.shm_fault.specs.Goes.{frame_by};
ghost use Rattle.shm_fault.specs.Loans.{frame_met, lent_at};
ghost use Rattle.shm_fault.specs.Placing.{after_visit, places};
ghost use Rattle.shm_fault.specs.Segs.{HasPage};
ghost use Rattle.shm_segments.specs.Table.{page_there};
ghost use Rattle.shm_life.specs.Accessing.{LeavesOrFails};
ghost use Rattle.shm_life.specs.Lending.{ArePages, Lends, MakesReady, PutsBytes, Returns, is_clear, leaver_seen, lend_refusal, listed, page_places, page_seen, pages_asked, return_refusal};
ghost use Rattle.shm_life.specs.Paging.{whole_page};
ghost use Rattle.shm_life.specs.SystemState.{seen};

use crate::kernel::Kernel;
use crate::system::System;
use shm_base::{Errno, PAGE_BYTES, PAGE_SIZE, PageRef, Span};
use shm_fault::{Act, FrameInfo};
use shm_pager_core::Pager;

/// Why a page is not lent.
#[derive(Clone, Copy, Debug, PartialEq, Eq)]
pub enum LendRefusal {
    /// No segment has the identifier.
    NoSegment,
    /// The segment has no such page.
    NoPage,
    /// The page is on loan, or it can come in only if a page on loan leaves its frame.
    Lent,
    /// A pager failed.
    Sigbus,
}

/// Why a page can't come back.
#[derive(Clone, Copy, Debug, PartialEq, Eq)]
pub enum ReturnRefusal {
    /// No segment has the identifier.
    NoSegment,
    /// The page is not on loan.
    NotLent,
}

/// Why an access may not be made now.
#[derive(Clone, Copy, Debug, PartialEq, Eq)]
pub enum NotReady {
    /// It touches a page on loan, or brings in a page for which one on loan would leave its frame.
    Lent,
    /// A pager failed for the first of its two pages.
    Sigbus,
}

// The pages of an access.
#[derive(Clone, Copy)]
enum Asked {
    Nothing,
    One(PageRef),
    Two(PageRef, PageRef),
}

impl<P: Pager> Kernel<P> {
    // All of a page.
    fn span_of(&self, page: PageRef) -> Span
        ensures value { result ≡ record (whole_page page) { frame = frame_by self.now.memory page } }
        ensures has { page_there self.now.flat.table page.seg page.page ≡ true →
            HasPage self.now.memory.segs page }
    {
        Span {
            seg: page.seg,
            at: u64::from(page.page) * PAGE_SIZE,
            len: PAGE_SIZE,
            frame: self.segments.store().frame(page.seg, page.page),
        }
    }

    // Why a page can't be lent, if no pager fails.
    fn lend_refusal(&self, page: PageRef) -> Option<LendRefusal>
        ensures { result ≡ lend_refusal self.now page }
    {
        let Some(found) = self.segments.find(page.seg) else {
            return Some(LendRefusal::NoSegment);
        };
        if page.page >= found.pages() {
            return Some(LendRefusal::NoPage);
        }
        if self.segments.store().is_barred(page, None) {
            return Some(LendRefusal::Lent);
        }
        None
    }

    // Brings a page in, as by a load of the host, and copies its bytes out.
    fn fetch(&mut self, page: PageRef, out: &mut [u8]) -> Result<(), Errno>
        requires there { page_there self.old.flat.table page.seg page.page ≡ true }
        requires size { length out.old ≡ PAGE_SIZE }
        ensures came { let rs = whole_page page ∷ [] in
            LeavesOrFails self.old.flat.table false rs self.old result self.new }
        ensures bytes { OnOk result (out.new ≡ loaded self.old.flat.table (page_places page)) }
        ensures kept { OnErr result (out.new ≡ out.old) }
        ensures here { OnOk result (IsSome (frame_by self.new.memory page)) }
    {
        let span = self.span_of(page);
        self.act(&[span], Act::Nothing, out)
    }

    fn lend(&mut self, page: PageRef, out: &mut [u8]) -> Result<(), LendRefusal>
        requires { length out.old ≡ PAGE_SIZE }
        ensures { Lends page self.old out.old out.new result self.new }
    {
        if let Some(refusal) = self.lend_refusal(page) {
            return Err(refusal);
        }
        if self.fetch(page, out).is_err() {
            return Err(LendRefusal::Sigbus);
        }
        self.segments.set_lent(page, true);
        Ok(())
    }

    // Whether a page is on loan.
    fn is_lent(&self, page: PageRef) -> bool
        ensures { result ≡ lent_at (places self.now.memory) (frame_by self.now.memory page) }
    {
        let store = self.segments.store();
        match store.frame(page.seg, page.page) {
            Some(frame) => store.frames().is_lent(frame),
            None => false,
        }
    }

    // Why a page can't come back.
    fn return_refusal(&self, page: PageRef) -> Option<ReturnRefusal>
        ensures { result ≡ return_refusal self.now page }
    {
        let Some(found) = self.segments.find(page.seg) else {
            return Some(ReturnRefusal::NoSegment);
        };
        if page.page < found.pages() && self.is_lent(page) {
            return None;
        }
        Some(ReturnRefusal::NotLent)
    }

    // Puts bytes into a resident page, if there are any.
    fn put_bytes(&mut self, page: PageRef, bytes: Option<&[u8]>)
        requires there { page_there self.old.flat.table page.seg page.page ≡ true }
        requires here { IsSome (frame_by self.old.memory page) }
        requires size { IfSome bytes (λ b. length b.now ≡ PAGE_SIZE) }
        ensures { let given = option_map (λ b. b.now) bytes.entry in
            PutsBytes page given self.old self.new }
    {
        let Some(bytes) = bytes else {
            return;
        };
        let span = self.span_of(page);
        self.segments.put_back(&span, bytes);
    }

    fn give_back(&mut self, page: PageRef, bytes: Option<&[u8]>) -> Result<(), ReturnRefusal>
        requires { IfSome bytes (λ b. length b.now ≡ PAGE_SIZE) }
        ensures { let given = option_map (λ b. b.now) bytes.entry in
            Returns page given self.old result self.new }
    {
        if let Some(refusal) = self.return_refusal(page) {
            return Err(refusal);
        }
        self.put_bytes(page, bytes);
        self.segments.set_lent(page, false);
        Ok(())
    }

    // The page of an address of a process, and whether the process may write there.
    fn page_at(&self, pid: u32, addr: u64) -> Result<(PageRef, bool), Errno>
        ensures { result ≡ page_seen (caller_of self.now.flat pid) addr }
    {
        let caller = self.spaces.caller(pid).ok_or(Errno::Esrch)?;
        let spans = self.spans_of(&caller, addr, 1, false)?;
        let [span, ..] = spans.as_slice() else {
            unreachable!();
        };
        let is_writable = self.spans_of(&caller, addr, 1, true).is_ok();
        Ok((self.segments.page_at(span), is_writable))
    }

    // The pages of an access of a process.
    fn pages_asked(&self, pid: u32, addr: u64, len: u64, write: bool) -> Asked
        requires { (1 ≤ len) × (len ≤ PAGE_SIZE) }
        ensures pages { listed result ≡ pages_asked self.now.flat pid addr len write }
        ensures there { ArePages self.now.flat.table (listed result) }
    {
        let Some(caller) = self.spaces.caller(pid) else {
            return Asked::Nothing;
        };
        let Ok(spans) = self.spans_of(&caller, addr, len, write) else {
            return Asked::Nothing;
        };
        match spans.as_slice() {
            [] => Asked::Nothing,
            [span] => Asked::One(self.segments.page_at(span)),
            [first, second, ..] => {
                let (first, second) = (self.segments.page_at(first), self.segments.page_at(second));
                if first == second {
                    Asked::One(first)
                } else {
                    Asked::Two(first, second)
                }
            }
        }
    }

    // Whether a visit to the first page, which changes nothing, and then one to the second touch no page on
    // loan and send none out of its frame.
    fn are_clear(&self, first: PageRef, second: PageRef) -> bool
        requires { let here = places self.now.memory in after_visit first None here ≡ here }
        ensures { result ≡ is_clear (first ∷ second ∷ []) (places self.now.memory) }
    {
        let store = self.segments.store();
        if store.is_barred(first, None) {
            return false;
        }
        !store.is_barred(second, store.frame(first.seg, first.page))
    }

    // As [`System::make_ready`], for two pages.
    fn make_two_ready(&mut self, first: PageRef, second: PageRef) -> Result<(), NotReady>
        requires { page_there self.old.flat.table first.seg first.page ≡ true }
        ensures { MakesReady (first ∷ second ∷ []) self.old result self.new }
    {
        if self.segments.store().is_barred(first, None) {
            return Err(NotReady::Lent);
        }
        let mut bytes = [0; PAGE_BYTES];
        if self.fetch(first, &mut bytes).is_err() {
            return Err(NotReady::Sigbus);
        }
        if !self.are_clear(first, second) {
            return Err(NotReady::Lent);
        }
        Ok(())
    }

    #[inline(never)]
    fn make_ready(&mut self, pid: u32, addr: u64, len: u64, write: bool) -> Result<(), NotReady>
        requires { (1 ≤ len) × (len ≤ PAGE_SIZE) }
        ensures { MakesReady (pages_asked self.old.flat pid addr len write) self.old result self.new }
    {
        match self.pages_asked(pid, addr, len, write) {
            Asked::Nothing => Ok(()),
            Asked::One(page) if self.segments.store().is_barred(page, None) => Err(NotReady::Lent),
            Asked::One(_) => Ok(()),
            Asked::Two(first, second) => self.make_two_ready(first, second),
        }
    }
}

impl<P: Pager> System<P> {
    /// How many pages are on loan.
    #[inline(always)]
    pub fn lent(&self) -> u64
        ensures { result ≡ lent_of self.now.memory.frames }
    {
        self.kernel.segments.store().lent()
    }

    /// Lends a page: it comes in as by a load of the host, and its 4,096 bytes are copied out. It stays in its
    /// frame until it is given back or its segment ends. Refused with the first [`LendRefusal`] that applies;
    /// then `out` is unchanged.
    pub fn lend(&mut self, page: PageRef, out: &mut [u8]) -> Result<(), LendRefusal>
        requires { length out.old ≡ PAGE_SIZE }
        ensures lends { Lends page (seen self.old) out.old out.new result (seen self.new) }
        ensures rest { self.new ≡ record self.old { memory = self.new.memory } }
    {
        self.kernel.lend(page, out)
    }

    /// Takes a page back, with the 4,096 bytes that it has now, or with none if it was not changed. Bytes are
    /// stored as by a store of the host, and the frame is dirty then. No page moves.
    pub fn give_back(&mut self, page: PageRef, bytes: Option<&[u8]>) -> Result<(), ReturnRefusal>
        requires { IfSome bytes (λ b. length b.now ≡ PAGE_SIZE) }
        ensures returns { let given = option_map (λ b. b.now) bytes.entry in
            Returns page given (seen self.old) result (seen self.new) }
        ensures rest { self.new ≡
            record self.old { machine = self.new.machine; memory = self.new.memory } }
    {
        self.kernel.give_back(page, bytes)
    }

    /// The frame whose page would leave it if a page came in now. None if a frame is free.
    pub fn leaver(&self) -> Option<FrameInfo>
        ensures { result ≡ leaver_seen self.now.memory }
    {
        let store = self.kernel.segments.store();
        Some(store.frame_info(store.leaver(None)?))
    }

    /// The frame that the clock's hand meets after `place` others. None if there are not that many frames.
    pub fn frame_at(&self, place: u32) -> Option<FrameInfo>
        ensures { result ≡ frame_met self.now.memory place }
    {
        self.kernel.segments.store().frame_at(place)
    }

    /// The page that an address of a process shows, and whether the process may write there.
    ///
    /// - Esrch: the process is not live.
    /// - Sigsegv: the address has no piece.
    pub fn page_at(&self, pid: u32, addr: u64) -> Result<(PageRef, bool), Errno>
        ensures { result ≡ page_seen (caller_of self.now.machine pid) addr }
    {
        self.kernel.page_at(pid, addr)
    }

    /// Makes ready for an access of a process, if pages are on loan: the access may be made next, and each of
    /// them stays in its frame. If the access has two pages, the first comes in, as by a load of the host.
    /// Refused with a [`NotReady`]. Changes nothing if no page is on loan.
    #[inline(always)]
    pub fn make_ready(&mut self, pid: u32, addr: u64, len: u64, write: bool) -> Result<(), NotReady>
        requires { (1 ≤ len) × (len ≤ PAGE_SIZE) }
        ensures ready { let rs = pages_asked self.old.machine pid addr len write in
            MakesReady rs (seen self.old) result (seen self.new) }
        ensures rest { self.new ≡ record self.old { memory = self.new.memory } }
        ensures none { lent_of self.old.memory.frames ≡ 0 → (self.new ≡ self.old) × IsOk result }
    {
        if self.lent() == 0 {
            return Ok(());
        }
        self.kernel.make_ready(pid, addr, len, write)
    }
}

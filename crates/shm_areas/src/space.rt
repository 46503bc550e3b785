//! A sorted list of pieces that do not overlap.
ghost use Rattle.std.specs.Prelude.{◌≡◌, ℕ, ◌+◌, ◌*◌, ◌%◌, ◌<◌, ◌≤◌, Bool, true, false, All, nat_lt, IfOk, length, IfNone, IfSome, Some, option_map, find};
ghost use Rattle.shm_base.specs.Access as access;
ghost use Rattle.shm_base.specs.Space as flat;
ghost use Rattle.shm_base.specs.State.{Piece as Flat};
ghost use Rattle.shm_areas.specs.Arranged.{bare, bare_all, Arranged, IsFit, IsCovering};
ghost use Rattle.shm_areas.specs.Edit.{stored_inserted, stored_cut, stored_without};
ghost use Rattle.shm_areas.specs.Gap.{HasNoGap, IsLeastGap};
ghost use Rattle.shm_areas.specs.Met.{met};
ghost use Rattle.shm_areas.specs.declared.piece.Piece.{Piece as Stored};
ghost use Rattle.shm_base.specs.declared.bounds.TheConstants.{MOST_PIECES, MOST_SHMALL};
ghost use Rattle.shm_base.specs.declared.paging.TheConstants.{PAGE_SIZE};

use crate::cut::{count_left, cut_of, put_at, replace};
use crate::filling::{lowered, raised};
use crate::piece::{Piece, Place};
use crate::rests::{Rests, rests_of};
use crate::search::{count_below, count_to, least_gap, run_in, run_of_origin};
use crate::taking::{first_with_origin, take_named};
use shm_base::{END_ADDRESS, FIRST_GAP, HostMemory, PAGE_SIZE};
use std::alloc::{AllocError, Global};
use std::marker::Model;

/// The pieces of a process in order of their bases. Room for the most that the process may have is reserved
/// at the beginning, so no change takes memory.
pub struct Space {
    pieces: Vec<Piece>,
    most: u32,
    // No piece has the page with this number or a higher one, so none is this many pages or more above the
    // address where its segment would begin.
    reach: u32,
    // Each address from 0x40000000 up to this one is in a piece, so no gap begins below.
    filled: u64,
}

impl Drop for Space {
    fn drop(self) {
        let Space {
            pieces: _,
            most: _,
            reach: _,
            filled: _,
        } = self;
    }
}

impl Model for Space {
    ghost use Rattle.std.specs.Prelude.{◌≤◌, vec_capacity};
    ghost use Rattle.shm_areas.specs.Arranged.{SpaceView, IsSpace, AreWithin, bare_all};
    ghost use Rattle.shm_areas.specs.Gap.{IsFilled};

    ghost Value = { SpaceView };

    ghost view = { λ s. record { pieces = s.pieces.items; most = s.most } };

    ghost invariant = { λ s. IsSpace (record { pieces = s.pieces.items; most = s.most })
        × (s.most ≤ vec_capacity s.pieces) × AreWithin s.reach (bare_all s.pieces.items)
        × IsFilled s.filled s.pieces.items };
}

impl Clone for Space {
    ghost is_clone = { λ s copy. copy ≡ s };

    /// A copy of the pieces, with the same room. AllocError: the host refused memory.
    fn clone(&self) -> Result<Space, AllocError> {
        let mut pieces = Vec::with_capacity(*self.pieces.allocator(), self.most as usize)?;
        pieces.extend_from_slice(&self.pieces)?;
        Ok(Space {
            pieces,
            most: self.most,
            reach: self.reach,
            filled: self.filled,
        })
    }
}

impl Space {
    ghost use Rattle.std.specs.Prelude.{[], MatchOption, max};
    ghost use Rattle.shm_areas.specs.Gap.{gap_from};

    /// An empty space, with room for the most pieces that there may be, at most 65530. HostMemory: the host
    /// refused memory.
    pub fn new(alloc: Global, most: u32) -> Result<Space, HostMemory>
        requires { most ≤ MOST_PIECES }
        ensures { IfOk result (λ s. s ≡ record { pieces = []; most = most }) }
    {
        let pieces = Vec::with_capacity(alloc, most as usize)?;
        Ok(Space {
            pieces,
            most,
            reach: 0,
            filled: FIRST_GAP,
        })
    }

    /// The most pieces that there may be.
    pub fn most(&self) -> u32
        ensures { result ≡ self.now.most }
    {
        self.most
    }

    /// The pieces in order of their bases.
    pub fn pieces(&self) -> &[Piece]
        ensures value { result.now ≡ self.now.pieces }
        ensures arranged { Arranged flat.lowest_address (bare_all self.now.pieces) }
        ensures count { length self.now.pieces ≤ self.now.most }
        ensures most { self.now.most ≤ MOST_PIECES }
    {
        self.pieces.as_slice()
    }

    /// The piece that an address is in, as it is stored. No other piece has the address.
    #[inline(always)]
    pub fn piece_at(&self, addr: u64) -> Option<Piece>
        ensures value { option_map bare result ≡ flat.covering addr (bare_all self.now.pieces) }
        ensures within { IfSome result (λ p. IsCovering addr p) }
        ensures whole { IfSome result (λ p. (b : ℕ) → p.base ≤ b → b < access.end_of (bare p)
            → flat.covering b (bare_all self.now.pieces) ≡ Some (bare p)) }
        ensures among { (test : Stored → Bool) → All (λ (p : Stored). test p ≡ true) self.now.pieces
            → IfSome result (λ p. test p ≡ true) }
    {
        let count = count_to(&self.pieces, addr);
        if count == 0 {
            return None;
        }
        let piece = &self.pieces[count - 1];
        if addr < piece.end() {
            Some(*piece)
        } else {
            None
        }
    }

    /// The byte that an address denotes.
    #[tactic(auto, using(crate::proofs::Placing::place_covering))]
    pub fn place(&self, addr: u64) -> Option<Place>
        ensures { result ≡ access.place (bare_all self.now.pieces) addr }
    {
        let piece = self.piece_at(addr)?;
        Some(Place {
            seg: piece.seg,
            at: piece.byte_at(addr),
            writable: piece.writable,
        })
    }

    /// The address of the least gap for this many pages at or above 0x40000000, a multiple of 4096 (this
    /// profile; shmop(2) leaves the choice to the system). None if no gap is large enough. Walks up the pieces
    /// that end above the filled addresses, to the gap.
    pub fn choose(&self, pages: u32) -> Option<u64>
        requires { (1 ≤ pages) × (pages ≤ MOST_SHMALL) }
        ensures value { result ≡ flat.choose (bare_all self.now.pieces) pages }
        ensures least { MatchOption result (HasNoGap (bare_all self.now.pieces) pages)
            (λ base. IsLeastGap (bare_all self.now.pieces) pages base) }
        ensures beside { result ≡ flat.choose_beside (bare_all self.now.pieces) [] pages }
    {
        self.gap_from(0, pages)
    }

    // The least gap for this many pages at or above an address and 0x40000000.
    #[tactic(auto, using(crate::proofs::Gaps::free_below))]
    pub(crate) fn gap_from(&self, from: u64, pages: u32) -> Option<u64>
        requires pages { (1 ≤ pages) × (pages ≤ MOST_SHMALL) }
        requires from { from ≤ flat.end_address }
        ensures value { let first = max from flat.first_chosen in
            result ≡ gap_from pages first (bare_all self.now.pieces) }
        ensures room { IfSome result (λ base. base + PAGE_SIZE * pages ≤ flat.end_address) }
        ensures arranged { Arranged flat.lowest_address (bare_all self.now.pieces) }
    {
        let from = from.max(self.filled);
        let run = run_in(&self.pieces, from, from + 1);
        least_gap(&self.pieces[run.first..], from, pages)
    }

    /// Whether a piece has a page among this many from an address on. The range may end above the last
    /// address.
    pub fn is_occupied(&self, base: u64, pages: u32) -> bool
        requires { (1 ≤ pages) × (pages ≤ MOST_SHMALL) }
        ensures { result ≡ flat.occupied (bare_all self.now.pieces) base (base + PAGE_SIZE * pages) }
    {
        let pieces = self.pieces();
        if base >= END_ADDRESS {
            return false;
        }
        let run = run_in(pieces, base, base + PAGE_SIZE * pages as u64);
        run.first < run.last
    }

    /// The pieces with a page in a range.
    pub fn met(&self, from: u64, to: u64) -> &[Piece]
        requires order { from < to }
        ensures value { result.now ≡ met from to self.now.pieces }
        ensures arranged { Arranged flat.lowest_address (bare_all self.now.pieces) }
        ensures count { length result.now ≤ self.now.most }
        ensures most { self.now.most ≤ MOST_PIECES }
        ensures occupied { flat.occupied (bare_all self.now.pieces) from to ≡ nat_lt 0 (length result.now) }
    {
        let run = run_in(&self.pieces, from, to);
        &self.pieces[run.first..run.last]
    }

    /// How many pieces would be left if a range were taken out.
    pub fn count_outside(&self, from: u64, to: u64) -> usize
        requires order { from < to }
        ensures { result ≡ length (flat.cut from to (bare_all self.now.pieces)) }
    {
        count_left(&self.pieces, cut_of(&self.pieces, from, to))
    }

    /// The segments of the pieces of which a cut of a range would leave a part.
    pub fn rests(&self, from: u64, to: u64) -> Rests
        requires order { from < to }
        ensures { result ≡ flat.rest_segments from to (bare_all self.now.pieces) }
    {
        rests_of(self.met(from, to), from, to)
    }

    /// Inserts a piece at free addresses.
    pub fn insert(&mut self, piece: Piece)
        requires room { length self.old.pieces < self.old.most }
        requires low { flat.lowest_address ≤ piece.base }
        requires fit { IsFit (bare piece) }
        requires free { let end = access.end_of (bare piece) in
            flat.occupied (bare_all self.old.pieces) piece.base end ≡ false }
        ensures kept { self.new ≡ record self.old { pieces = stored_inserted piece self.old.pieces } }
        ensures flat { bare_all self.new.pieces ≡ flat.inserted (bare piece) (bare_all self.old.pieces) }
    {
        let at = count_to(&self.pieces, piece.base);
        self.reach = self.reach.max(piece.first_page + piece.pages);
        self.filled = raised(self.filled, &piece);
        put_at(&mut self.pieces, at, piece);
    }

    /// Takes a range out. Of a piece that reaches beyond it the parts outside stay, each as a piece with its
    /// own first page and the same key.
    pub fn cut(&mut self, from: u64, to: u64)
        requires from { from % 4096 ≡ 0 }
        requires to { to % 4096 ≡ 0 }
        requires order { from < to }
        requires few { length (flat.cut from to (bare_all self.old.pieces)) ≤ self.old.most }
        ensures kept { self.new ≡ record self.old { pieces = stored_cut from to self.old.pieces } }
        ensures flat { bare_all self.new.pieces ≡ flat.cut from to (bare_all self.old.pieces) }
    {
        let cut = cut_of(&self.pieces, from, to);
        self.filled = lowered(self.filled, from);
        replace(&mut self.pieces, cut);
    }

    /// The lowest piece with this origin, as it is stored. A piece's origin is the address at which its
    /// segment, attached as a whole, would begin.
    pub fn origin_of(&self, addr: u64) -> Option<Piece>
        ensures stored { result ≡ find (λ (p : Stored). flat.has_origin addr (bare p)) self.now.pieces }
        ensures flat { option_map bare result ≡ flat.origin_of addr (bare_all self.now.pieces) }
    {
        let run = run_of_origin(&self.pieces, addr, self.reach);
        first_with_origin(&self.pieces[run.first..run.last], addr)
    }

    /// Takes out what is left of an attach: the lowest piece with this origin names the segment, and all
    /// pieces of that segment with this origin go. Returns the segment; none if no piece has this origin.
    pub fn take_at(&mut self, addr: u64) -> Option<u32>
        ensures segment { result
            ≡ option_map (λ (p : Flat). p.seg) (flat.origin_of addr (bare_all self.old.pieces)) }
        ensures none { IfNone result (self.new ≡ self.old) }
        ensures kept { IfSome result (λ seg.
            self.new ≡ record self.old { pieces = stored_without addr seg self.old.pieces }) }
        ensures flat { IfSome result (λ seg.
            bare_all self.new.pieces ≡ flat.without_named addr seg (bare_all self.old.pieces)) }
    {
        let run = run_of_origin(&self.pieces, addr, self.reach);
        let seg = first_with_origin(&self.pieces[run.first..run.last], addr)?.seg;
        self.filled = lowered(self.filled, addr);
        take_named(&mut self.pieces, run, addr, seg);
        Some(seg)
    }
}

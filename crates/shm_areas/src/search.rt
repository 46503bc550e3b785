//! Finds an address or a range among pieces in order, by binary search.
ghost use Rattle.std.specs.Prelude.{◌≡◌, ◌+◌, ◌*◌, ◌<◌, ◌≤◌, ℕ, length, slice_index_or};
ghost use Rattle.shm_base.specs.Space as flat;
ghost use Rattle.shm_base.specs.declared.bounds.TheConstants.{MOST_SHMALL};
ghost use Rattle.shm_areas.specs.Arranged.{bare_all, Arranged};
ghost use Rattle.shm_areas.specs.Gap.{gap_from};
ghost use Rattle.shm_areas.specs.Met.{IsPieceRange, IsOriginRange};
ghost use Rattle.shm_areas.specs.declared.piece.Piece.{Piece as Stored};

use crate::piece::Piece;
use shm_base::{END_ADDRESS, PAGE_SIZE};

/// Consecutive pieces: the index of the first, and the index after the last.
#[derive(Clone, Copy)]
pub(crate) struct PieceRange {
    pub(crate) first: usize,
    pub(crate) last: usize,
}

/// How many pieces begin at or below an address.
pub(crate) fn count_to(pieces: &[Piece], addr: u64) -> usize
    requires { Arranged flat.lowest_address (bare_all pieces.now) }
    ensures bound { result ≤ length pieces.now }
    ensures below { (k : ℕ) (d : Stored) → k < result → (slice_index_or pieces.now k d).base ≤ addr }
    ensures above { (k : ℕ) (d : Stored) → result ≤ k → k < length pieces.now
        → addr < (slice_index_or pieces.now k d).base }
{
    // New pieces often come after the last one, which needs no search.
    let Some(last) = pieces.last() else {
        return 0;
    };
    if last.base <= addr {
        return pieces.len();
    }
    pieces.partition_point(|p| p.base <= addr)
}

/// How many pieces begin below an address.
pub(crate) fn count_below(pieces: &[Piece], addr: u64) -> usize
    requires { Arranged flat.lowest_address (bare_all pieces.now) }
    ensures bound { result ≤ length pieces.now }
    ensures below { (k : ℕ) (d : Stored) → k < result → (slice_index_or pieces.now k d).base < addr }
{
    if addr == 0 {
        return 0;
    }
    count_to(pieces, addr - 1)
}

/// The pieces with a page in a range.
pub(crate) fn run_in(pieces: &[Piece], from: u64, to: u64) -> PieceRange
    requires arranged { Arranged flat.lowest_address (bare_all pieces.now) }
    requires order { from < to }
    ensures { IsPieceRange from to pieces.now result.first result.last }
{
    let count = count_to(pieces, from);
    let last = count_to(pieces, to - 1);
    if count > 0 && from < pieces[count - 1].end() {
        return PieceRange {
            first: count - 1,
            last,
        };
    }
    PieceRange { first: count, last }
}

/// The pieces that may have this origin, if no piece has the page `reach` or a higher one.
pub(crate) fn run_of_origin(pieces: &[Piece], addr: u64, reach: u32) -> PieceRange
    requires { Arranged flat.lowest_address (bare_all pieces.now) }
    ensures { IsOriginRange addr reach pieces.now result.first result.last }
{
    let to = addr.saturating_add(PAGE_SIZE * reach as u64);
    PieceRange {
        first: count_below(pieces, addr),
        last: count_to(pieces, to),
    }
}

/// The least gap for this many pages at or above an address. Goes up the pieces that end above it.
pub(crate) fn least_gap(pieces: &[Piece], from: u64, pages: u32) -> Option<u64>
    requires pages { (1 ≤ pages) × (pages ≤ MOST_SHMALL) }
    requires arranged { Arranged flat.lowest_address (bare_all pieces.now) }
    requires from { from ≤ flat.end_address }
    ensures { result ≡ gap_from pages from (bare_all pieces.now) }
{
    let size = PAGE_SIZE * pages as u64;
    let mut base = from;
    for piece in pieces {
        if base + size <= piece.base {
            return Some(base);
        }
        base = base.max(piece.end());
    }
    if base + size <= END_ADDRESS {
        Some(base)
    } else {
        None
    }
}

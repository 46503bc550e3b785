//! Takes a range out of pieces in order: at most one part stays below it, and one above.
ghost use Rattle.std.specs.Prelude.{◌≡◌, ◌+◌, ◌<◌, ◌≤◌, length, vec_capacity, option_to_list};
ghost use Rattle.std.specs.List.{insert as inserted_at, splice};
ghost use Rattle.shm_base.specs.Access as access;
ghost use Rattle.shm_base.specs.Space as flat;
ghost use Rattle.shm_areas.specs.Arranged.{bare, bare_all, Arranged, IsFit};
ghost use Rattle.shm_areas.specs.Edit.{stored_below, stored_above, stored_cut, IsCut, left_by};
ghost use Rattle.shm_base.specs.declared.bounds.TheConstants.{MOST_PIECES};

use crate::piece::Piece;
use crate::search::run_in;
use shm_base::PAGE_SIZE;

/// The effect of taking a range out: the pieces from index `first` up to `last` are replaced by their parts
/// outside the range.
#[derive(Clone, Copy)]
pub(crate) struct Cut {
    pub(crate) first: usize,
    pub(crate) last: usize,
    pub(crate) below: Option<Piece>,
    pub(crate) above: Option<Piece>,
}

/// The part of a piece below a range.
fn part_below(piece: &Piece, from: u64) -> Option<Piece>
    requires fit { IsFit (bare piece.now) }
    requires ends { from < access.end_of (bare piece.now) }
    ensures { option_to_list result ≡ stored_below from piece.now }
{
    if piece.base >= from {
        return None;
    }
    Some(Piece {
        pages: ((from - piece.base) / PAGE_SIZE) as u32,
        ..*piece
    })
}

/// The part of a piece above a range.
fn part_above(piece: &Piece, to: u64) -> Option<Piece>
    requires fit { IsFit (bare piece.now) }
    requires begins { piece.now.base < to }
    ensures { option_to_list result ≡ stored_above to piece.now }
{
    let end = piece.end();
    if end <= to {
        return None;
    }
    Some(Piece {
        base: to,
        first_page: piece.first_page + ((to - piece.base) / PAGE_SIZE) as u32,
        pages: ((end - to) / PAGE_SIZE) as u32,
        ..*piece
    })
}

/// The effect of taking a range out.
pub(crate) fn cut_of(pieces: &[Piece], from: u64, to: u64) -> Cut
    requires arranged { Arranged flat.lowest_address (bare_all pieces.now) }
    requires order { from < to }
    ensures { IsCut pieces.now result (stored_cut from to pieces.now) }
{
    let run = run_in(pieces, from, to);
    if run.first == run.last {
        return Cut {
            first: run.first,
            last: run.last,
            below: None,
            above: None,
        };
    }
    Cut {
        first: run.first,
        last: run.last,
        below: part_below(&pieces[run.first], from),
        above: part_above(&pieces[run.last - 1], to),
    }
}

fn count_of(part: Option<Piece>) -> usize
    ensures { result ≡ length (option_to_list part) }
{
    match part {
        Some(_) => 1,
        None => 0,
    }
}

/// How many pieces are left when the range is taken out.
pub(crate) fn count_left(pieces: &[Piece], cut: Cut) -> usize
    requires order { cut.first ≤ cut.last }
    requires bound { cut.last ≤ length pieces.now }
    requires few { length pieces.now ≤ MOST_PIECES }
    ensures { result ≡ length (left_by pieces.now cut) }
{
    cut.first + count_of(cut.below) + count_of(cut.above) + (pieces.len() - cut.last)
}

/// Inserts a piece at an index.
pub(crate) fn put_at(pieces: &mut Vec<Piece>, at: usize, piece: Piece)
    requires at { at ≤ length pieces.old.items }
    requires room { length pieces.old.items < vec_capacity pieces.old }
    ensures items { pieces.new.items ≡ inserted_at pieces.old.items at piece }
    ensures capacity { vec_capacity pieces.old ≤ vec_capacity pieces.new }
{
    let put = pieces.insert(at, piece);
    prove!(put.is_ok());
}

fn insert_part(pieces: &mut Vec<Piece>, at: usize, part: Option<Piece>)
    requires within { at ≤ length pieces.old.items }
    requires room { length pieces.old.items + length (option_to_list part) ≤ vec_capacity pieces.old }
    ensures items { pieces.new.items ≡ splice pieces.old.items at at (option_to_list part) }
    ensures capacity { vec_capacity pieces.old ≤ vec_capacity pieces.new }
{
    if let Some(piece) = part {
        put_at(pieces, at, piece);
    }
}

/// Takes the range out.
pub(crate) fn replace(pieces: &mut Vec<Piece>, cut: Cut)
    requires order { cut.first ≤ cut.last }
    requires bound { cut.last ≤ length pieces.old.items }
    requires room { length (left_by pieces.old.items cut) ≤ vec_capacity pieces.old }
    ensures items { pieces.new.items ≡ left_by pieces.old.items cut }
    ensures capacity { vec_capacity pieces.old ≤ vec_capacity pieces.new }
{
    pieces.drain(cut.first..cut.last);
    insert_part(pieces, cut.first, cut.above);
    insert_part(pieces, cut.first, cut.below);
}

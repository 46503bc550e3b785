//! Takes out what is left of an attach.
ghost use Rattle.std.specs.Prelude.{◌≡◌, ◌≤◌, find, length, vec_capacity};
ghost use Rattle.shm_base.specs.Space.{has_origin};
ghost use Rattle.shm_areas.specs.Arranged.{bare};
ghost use Rattle.shm_areas.specs.Edit.{taken_between};
ghost use Rattle.shm_areas.specs.declared.piece.Piece.{Piece as Stored};

use crate::piece::Piece;
use crate::search::PieceRange;

/// The lowest piece with an origin.
pub(crate) fn first_with_origin(pieces: &[Piece], addr: u64) -> Option<Piece>
    ensures { result ≡ find (λ (p : Stored). has_origin addr (bare p)) pieces.now }
{
    for piece in pieces {
        if piece.has_origin(addr) {
            return Some(*piece);
        }
    }
    None
}

/// Takes the pieces of a segment with this origin out of a run. The rest of the run moves down piece by
/// piece, and all later pieces at once.
pub(crate) fn take_named(pieces: &mut Vec<Piece>, run: PieceRange, addr: u64, seg: u32)
    requires order { run.first ≤ run.last }
    requires bound { run.last ≤ length pieces.old.items }
    ensures items { pieces.new.items ≡ taken_between addr seg pieces.old.items run.first run.last }
    ensures capacity { vec_capacity pieces.old ≤ vec_capacity pieces.new }
{
    let mut kept = run.first;
    for k in run.first..run.last {
        let piece = pieces[k];
        if !piece.is_named(addr, seg) {
            pieces[kept] = piece;
            kept += 1;
        }
    }
    pieces.drain(kept..run.last);
}

//! The filled addresses: from 0x40000000 up to a bound, every address is in a piece.
ghost use Rattle.std.specs.Prelude.{◌≡◌, nat_le, if◌then◌else◌, max, min};
ghost use Rattle.shm_base.specs.Access as access;
ghost use Rattle.shm_base.specs.Space as flat;
ghost use Rattle.shm_areas.specs.Arranged.{bare, IsFit};

use crate::piece::Piece;
use shm_base::FIRST_GAP;

/// The bound after a piece is inserted.
pub(crate) fn raised(filled: u64, piece: &Piece) -> u64
    requires { IsFit (bare piece.now) }
    ensures { let end = access.end_of (bare piece.now) in
        result ≡ (if nat_le piece.now.base filled then max filled end else filled) }
{
    if piece.base <= filled {
        filled.max(piece.end())
    } else {
        filled
    }
}

/// The bound after the addresses from one on became free.
pub(crate) fn lowered(filled: u64, from: u64) -> u64
    ensures { result ≡ min filled (max from flat.first_chosen) }
{
    filled.min(from.max(FIRST_GAP))
}

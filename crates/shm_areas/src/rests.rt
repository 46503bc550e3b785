//! What remains of the pieces that a cut meets: at most a part of the first below it, and one of the last
//! above.
ghost use Rattle.std.specs.Prelude.{◌≡◌, ◌++◌, ◌≤◌, length, option_to_list};
ghost use Rattle.shm_base.specs.Space as flat;
ghost use Rattle.shm_areas.specs.Arranged.{bare_all};
ghost use Rattle.shm_areas.specs.Met.{AreMet};

use crate::piece::Piece;
use std::marker::Model;

/// The segments of the pieces of which a cut leaves a part, in order of the pieces' bases; once for each such
/// piece.
#[derive(Debug, Drop)]
pub struct Rests {
    segments: [u32; 2],
    count: usize,
}

impl Model for Rests {
    ghost use Rattle.std.specs.Prelude.{◌≤◌, ℕ, List, take};

    ghost Value = { List ℕ };

    ghost view = { λ r. take r.count r.segments };

    ghost invariant = { λ r. r.count ≤ 2 };
}

impl Rests {
    fn of(below: Option<u32>, above: Option<u32>) -> Rests
        ensures { result ≡ option_to_list below ++ option_to_list above }
    {
        match (below, above) {
            (Some(first), Some(second)) => Rests {
                segments: [first, second],
                count: 2,
            },
            (Some(only), None) | (None, Some(only)) => Rests {
                segments: [only, 0],
                count: 1,
            },
            (None, None) => Rests {
                segments: [0, 0],
                count: 0,
            },
        }
    }

    /// The segments, at most two.
    pub fn segments(&self) -> &[u32]
        ensures value { result.now ≡ self.now }
        ensures few { length result.now ≤ 2 }
    {
        &self.segments[..self.count]
    }
}

/// The segments of the pieces of which a cut leaves a part.
pub(crate) fn rests_of(met: &[Piece], from: u64, to: u64) -> Rests
    requires { AreMet from to met.now }
    ensures { result ≡ flat.rest_segments from to (bare_all met.now) }
{
    let count = met.len();
    if count == 0 {
        return Rests::of(None, None);
    }
    let below = met[0].rest(from, to);
    let above = if count > 1 {
        met[count - 1].rest(from, to)
    } else {
        None
    };
    Rests::of(below, above)
}

use shm_base::PAGE_SIZE;
use std::marker::Model;

/// An attached run of pages of a segment. `key` finds the table with its translations.
#[derive(Clone, Copy, Debug, PartialEq, Eq)]
pub struct Piece {
    pub base: u64,
    pub seg: u32,
    pub first_page: u32,
    pub pages: u32,
    pub writable: bool,
    /// Whether the attach has write permission, so that the piece can become writable.
    pub may_write: bool,
    pub key: usize,
}

/// A byte of a segment.
#[derive(Clone, Copy, Debug, PartialEq, Eq)]
pub struct Place {
    pub seg: u32,
    pub at: u64,
    pub writable: bool,
}

impl Model for Place {
    ghost use Rattle.shm_base.specs.Access.{Place as Flat};

    ghost Value = { Flat };

    ghost view = { λ p. record { seg = p.seg; at = p.at; writable = p.writable } };

    ghost inverse = { λ p. record { seg = p.seg; at = p.at; writable = p.writable } };
}

impl Piece {
    ghost use Rattle.std.specs.Prelude.{◌≡◌, ◌<◌};
    ghost use Rattle.shm_base.specs.Access as flat;
    ghost use Rattle.std.specs.Prelude.{length, true, [], ◌∷◌, option_to_list};
    ghost use Rattle.shm_base.specs.Space.{has_origin, is_named, meets, parts, rest_segments};
    ghost use Rattle.shm_areas.specs.Arranged.{bare, IsFit, IsCovering};

    /// The first address after the piece.
    pub fn end(&self) -> u64
        requires { IsFit (bare self.now) }
        ensures { result ≡ flat.end_of (bare self.now) }
    {
        self.base + PAGE_SIZE * self.pages as u64
    }

    /// The byte of its segment that an address in the piece denotes.
    #[inline(always)]
    pub fn byte_at(&self, addr: u64) -> u64
        requires { IsCovering addr self.now }
        ensures { result ≡ (flat.place_by (bare self.now) addr).at }
    {
        PAGE_SIZE * self.first_page as u64 + (addr - self.base)
    }

    /// How many parts of a piece, which has a page in a range, are outside the range.
    pub fn parts_outside(&self, from: u64, to: u64) -> u32
        requires fit { IsFit (bare self.now) }
        requires meets { meets from to (bare self.now) ≡ true }
        ensures { result ≡ length (parts from to (bare self.now)) }
    {
        (self.base < from) as u32 + (to < self.end()) as u32
    }

    /// The piece's segment, if a part of the piece is outside a range that has one of its pages.
    pub(crate) fn rest(&self, from: u64, to: u64) -> Option<u32>
        requires fit { IsFit (bare self.now) }
        requires meets { meets from to (bare self.now) ≡ true }
        ensures { option_to_list result ≡ rest_segments from to (bare self.now ∷ []) }
    {
        if self.base < from || to < self.end() {
            Some(self.seg)
        } else {
            None
        }
    }

    /// Whether the piece's segment, attached as a whole, would begin at the address.
    pub(crate) fn has_origin(&self, addr: u64) -> bool
        ensures { result ≡ has_origin addr (bare self.now) }
    {
        self.base as u128 == addr as u128 + PAGE_SIZE as u128 * self.first_page as u128
    }
    /// Whether the piece is one of this segment with this origin.
    pub(crate) fn is_named(&self, addr: u64, seg: u32) -> bool
        ensures { result ≡ is_named addr seg (bare self.now) }
    {
        self.has_origin(addr) && self.seg == seg
    }
}

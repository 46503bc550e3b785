//! The segments that a change of pieces concerns: those that lost pieces, or those whose pieces were split.
ghost use Rattle.std.specs.Prelude.{◌≡◌, ◌+◌, ◌++◌, ◌≤◌, [], length, map, option_to_list, IfOk};
ghost use Rattle.shm_areas.specs.declared.piece.Piece.{Piece as Stored};

use shm_areas::Piece;
use shm_base::HostMemory;
use std::alloc::{AllocError, Global};
use std::marker::Model;

/// The segments that a call concerns, in order of the pieces' bases: once for each piece that was removed or
/// cut, or that a protect split. There is room for the most pieces of a process, so noting them takes no
/// memory.
pub(crate) struct Lost {
    segments: Vec<u32>,
    most: u32,
}

impl Drop for Lost {
    fn drop(self) {
        let Lost {
            segments: _,
            most: _,
        } = self;
    }
}

impl Model for Lost {
    ghost use Rattle.std.specs.Prelude.{◌≤◌, length, vec_capacity};
    ghost use Rattle.shm_attach.specs.Lost.{LostView};

    ghost Value = { LostView };

    ghost view = { λ l. record { segments = l.segments.items; most = l.most } };

    ghost invariant = { λ l. (length l.segments.items ≤ l.most) × (l.most ≤ vec_capacity l.segments) };
}

impl Lost {
    /// No segments, with room for the most that there may be. HostMemory: the host refused memory.
    pub(crate) fn new(alloc: Global, most: u32) -> Result<Lost, HostMemory>
        ensures { IfOk result (λ l. l ≡ record { segments = []; most = most }) }
    {
        let segments = Vec::with_capacity(alloc, most as usize)?;
        Ok(Lost { segments, most })
    }

    /// A copy, with room for the most that there may be.
    pub(crate) fn try_clone(&self) -> Result<Lost, AllocError>
        ensures { IfOk result (λ copy. copy ≡ self.now) }
    {
        let mut segments = Vec::with_capacity(*self.segments.allocator(), self.most as usize)?;
        segments.extend_from_slice(&self.segments)?;
        Ok(Lost {
            segments,
            most: self.most,
        })
    }

    /// Notes the segments of these pieces, and forgets those of an earlier call.
    pub(crate) fn note(&mut self, pieces: &[Piece])
        requires { length pieces.now ≤ self.old.most }
        ensures { self.new ≡ record self.old { segments = map (λ (p : Stored). p.seg) pieces.now } }
    {
        self.segments.clear();
        for piece in pieces {
            self.segments.push_reserved(piece.seg);
        }
    }

    /// Forgets the segments of an earlier call.
    pub(crate) fn clear(&mut self)
        ensures { self.new ≡ record self.old { segments = [] } }
    {
        self.segments.clear();
    }

    /// Notes one more segment, if there is one.
    pub(crate) fn add(&mut self, segment: Option<u32>)
        requires { length self.old.segments + length (option_to_list segment) ≤ self.old.most }
        ensures { self.new ≡ record self.old { segments = self.old.segments ++ option_to_list segment } }
    {
        if let Some(segment) = segment {
            self.segments.push_reserved(segment);
        }
    }

    pub(crate) fn segments(&self) -> &[u32]
        ensures value { result.now ≡ self.now.segments }
        ensures few { length result.now ≤ self.now.most }
    {
        self.segments.as_slice()
    }
}

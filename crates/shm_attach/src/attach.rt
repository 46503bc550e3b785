//! Attaches the pages of a segment.
ghost use Rattle.std.specs.Prelude.{◌≡◌, ◌+◌, ◌*◌, ◌≤◌, length, OnOk, OnErr};
ghost use Rattle.shm_base.specs.Segments.{attach_count};
ghost use Rattle.shm_base.specs.Space.{cut_segments};
ghost use Rattle.shm_attach.specs.Mapping.{own_pieces, left_beside, attached};
ghost use Rattle.shm_attach.specs.Spaces.{IsCaller, IsOnlyAt, AreTrue};
ghost use Rattle.shm_attach.specs.Place.{IsRange};
ghost use Rattle.shm_base.specs.declared.bounds.TheConstants.{MOST_SHMALL};
ghost use Rattle.shm_base.specs.declared.paging.TheConstants.{PAGE_SIZE};

use crate::changes::{exchange, space_at};
use crate::process::Caller;
use crate::spaces::Spaces;
use shm_areas::Piece;
use shm_base::{HostMemory, PAGE_SIZE};
use shm_fault::PageStore;
use shm_pager_core::Pager;

impl Spaces {
    /// Attaches all pages of a segment at a base, and replaces whatever its range has: pieces in the range
    /// are removed, and those that reach beyond it are cut. The segments that lost pages to it are noted. If
    /// the piece is the first of its segment, the translations are read from the store. All memory is taken
    /// first, and the segment's table is reserved, since the pieces that are removed may be its last.
    /// HostMemory: the host refused memory, and nothing changed.
    pub fn attach<P: Pager>(
        &mut self,
        caller: &Caller,
        seg: u32,
        base: u64,
        pages: u32,
        writable: bool,
        store: &PageStore<P>,
    ) -> Result<(), HostMemory>
        requires live { IsCaller caller.now self.old.runners }
        requires pages { (1 ≤ pages) × (pages ≤ MOST_SHMALL) }
        requires range { IsRange pages base }
        requires only { IsOnlyAt seg (attach_count self.old.runners) }
        requires room { length (left_beside self.old caller.now base pages) + 1 ≤ self.old.most }
        ensures lost { OnOk result (self.new.lost
            ≡ cut_segments base (base + PAGE_SIZE * pages) (own_pieces self.old caller.now)) }
        ensures runners { OnOk result (self.new.runners
            ≡ attached self.old caller.now seg base pages writable) }
        ensures most { self.new.most ≡ self.old.most }
        ensures translated { AreTrue self.old.translations store.now
            → AreTrue self.new.translations store.now }
        ensures err { OnErr result (self.new ≡ self.old) }
    {
        let end = base + PAGE_SIZE * pages as u64;
        let key = self.tables.reserve(store, seg, pages)?;
        self.lost
            .note(space_at(&self.processes, caller.index).met(base, end));
        let piece = Piece {
            base,
            seg,
            first_page: 0,
            pages,
            writable,
            may_write: writable,
            key,
        };
        exchange(&mut self.processes, &mut self.tables, caller.index, piece);
        Ok(())
    }
}

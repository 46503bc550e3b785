//! The address at which an access fails, and the first one whose page has no frame.
ghost use Rattle.std.specs.Prelude.{◌≡◌, ℕ, Option, All};
ghost use Rattle.shm_areas.specs.Arranged.{bare_all};
ghost use Rattle.shm_fault.specs.Store.{StoreView, frame_of};
ghost use Rattle.shm_attach.specs.Failing.{first_failed, first_absent};
ghost use Rattle.shm_attach.specs.Spaces.{AreTrue};
ghost use Rattle.shm_attach.specs.Spans.{pieces_by};
ghost use Rattle.shm_attach.specs.Table.{AllTrue};
ghost use Rattle.shm_attach.specs.Tables.{HasTable};

use crate::changes::space_at;
use crate::spaces::Spaces;
use crate::tables::Tables;
use shm_areas::Space;
use shm_base::PAGE_SIZE;

/// The first failing address of an access to a space. Searches piece by piece.
fn failed_in(space: &Space, addr: u64, len: u64, write: bool) -> Option<u64>
    ensures { result ≡ first_failed write (bare_all space.now.pieces) addr len }
{
    let mut at = addr;
    let mut left = len;
    while left > 0 {
        let Some(piece) = space.piece_at(at) else {
            return Some(at);
        };
        if write && !piece.writable {
            return Some(at);
        }
        let served = left.min(piece.end() - at);
        at += served;
        left -= served;
    }
    None
}

/// The first address of an access to a space whose page has no frame. Searches page by page.
fn absent_in(space: &Space, tables: &Tables, addr: u64, len: u64) -> Option<u64>
    requires { All (HasTable tables.now.slab) space.now.pieces }
    ensures { (frame : ℕ → ℕ → Option ℕ) → AllTrue frame tables.now.slab
        → result ≡ first_absent frame (bare_all space.now.pieces) addr len }
{
    let mut at = addr;
    let mut left = len;
    while left > 0 {
        let Some(piece) = space.piece_at(at) else {
            return None;
        };
        let page = piece.byte_at(at) / PAGE_SIZE;
        if tables.frame(piece.key, page as usize).is_none() {
            return Some(at);
        }
        let served = left.min(PAGE_SIZE - at % PAGE_SIZE);
        at += served;
        left -= served;
    }
    None
}

impl Spaces {
    /// The first address at which an access of a process fails: one without a piece or, for a write, one in a
    /// read-only piece. Addresses above 2^64 - 1 have no piece, and a process that is not live has none.
    pub fn failed_at(&self, pid: u32, addr: u64, len: u64, write: bool) -> Option<u64>
        ensures { result ≡ first_failed write (pieces_by pid self.now.runners) addr len }
    {
        if len == 0 {
            return None;
        }
        match self.caller(pid) {
            Some(caller) => failed_in(self.space(&caller), addr, len, write),
            None => Some(addr),
        }
    }
    /// The first address of an access whose page has no frame, if all addresses below it are in pieces. After
    /// a page-in failed, this is the address that the failure is about.
    pub fn absent_at(&self, pid: u32, addr: u64, len: u64) -> Option<u64>
        ensures { (m : StoreView) → AreTrue self.now.translations m
            → result ≡ first_absent (frame_of m) (pieces_by pid self.now.runners) addr len }
    {
        let caller = self.caller(pid)?;
        let space = space_at(&self.processes, caller.index);
        absent_in(space, &self.tables, addr, len)
    }
}

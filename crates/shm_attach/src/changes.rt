//! Changes of the pieces of one process. `put` adds every piece, `take_range` and `take_attach` remove every
//! piece, whatever the cause: shmat, a remap, shmdt, fork, exec and exit. Pieces, counts and translations change together, so the
//! counts stay exact and each piece has its segment's table. A shmat reserves that table, by one count more,
//! until its piece is in.
ghost use Rattle.std.specs.Prelude.{◌≡◌, ℕ, ◌<◌, ◌≤◌, ◌+◌, length, true, All, IfNone};
ghost use Rattle.shm_base.specs.Guest.{is_live};
ghost use Rattle.shm_base.specs.Space.{lowest_address, cut, inserted, meets, pieces_of};
ghost use Rattle.shm_areas.specs.declared.piece.Piece.{Piece as Stored};
ghost use Rattle.shm_base.specs.declared.bounds.TheConstants.{MOST_PIECES};
ghost use Rattle.shm_attach.specs.Exact.{most_of_segment};
ghost use Rattle.shm_areas.specs.Arranged.{bare, bare_all, Arranged};
ghost use Rattle.shm_attach.specs.Views.{life_view, with_life_at, runners_view, most_at};
ghost use Rattle.shm_attach.specs.Spaces.{life_at};
ghost use Rattle.shm_attach.specs.Tables.{counted, stored_at, HasTable, OneTableEach, KeepCounted, KeepTables};
ghost use Rattle.shm_attach.specs.Place.{IsPlaceFor};
ghost use Rattle.shm_attach.specs.Exact.{AreTablesSound, HasReservations, one_reserved};
ghost use Rattle.shm_attach.specs.Changes.{IsChanged, AreRecounted, attached_at, without_attach};
ghost use Rattle.shm_attach.specs.Mapping.{held, Exchanged, CanReplace, IsPageRange};

use crate::process::{Life, Runner};
use crate::tables::Tables;
use indexmap::IndexMap;
use shm_areas::{Piece, Space};

/// The address space of the process at an index.
#[inline(always)]
pub(crate) fn space_at(processes: &IndexMap<u32, Runner>, index: usize) -> &Space
    requires { index < length processes.now.entries }
    ensures flat { bare_all result.now.pieces ≡ held processes.now.entries index }
    ensures stored { result.now.pieces ≡ stored_at processes.now.entries index }
    ensures most { result.now.most ≡ most_at processes.now.entries index }
{
    &processes[index].space
}

/// Adds a piece. Its segment's table exists.
pub(crate) fn put(
    processes: &mut IndexMap<u32, Runner>,
    tables: &mut Tables,
    index: usize,
    piece: Piece,
)
    requires there { index < length processes.old.entries }
    requires live { is_live (life_at (runners_view processes.old.entries) index) ≡ true }
    requires place { IsPlaceFor (bare piece) (held processes.old.entries index) }
    requires room { length (held processes.old.entries index) < most_at processes.old.entries index }
    requires table { HasTable tables.old.slab piece }
    requires reservations { HasReservations processes.old.entries tables.old }
    ensures { let kept = KeepTables tables.old.slab tables.new.slab in
        let es = processes.old.entries in
        IsChanged kept es processes.new.entries tables.old tables.new index (inserted (bare piece)) }
{
    tables.replace(piece.seg, piece.key, 0, 1);
    processes[index].space.insert(piece);
}

/// Counts a cut of the pieces that a range meets: each is removed, and its parts outside the range are added.
fn recount(tables: &mut Tables, met: &[Piece], from: u64, to: u64)
    requires fit { Arranged lowest_address (bare_all met.now) }
    requires meets { All (λ (p : Stored). meets from to (bare p) ≡ true) met.now }
    requires tables { All (HasTable tables.old.slab) met.now }
    requires counted { (id : ℕ) → pieces_of id (bare_all met.now) ≤ counted tables.old id }
    requires small { (id : ℕ) → counted tables.old id ≤ most_of_segment + 1 }
    requires few { length met.now ≤ MOST_PIECES }
    requires tied { OneTableEach tables.old }
    ensures { AreRecounted met.now from to tables.old tables.new }
{
    for piece in met {
        let parts = piece.parts_outside(from, to);
        tables.replace(piece.seg, piece.key, 1, parts);
    }
}

/// Removes the addresses in a range: pieces there are removed, and those that reach beyond it are cut. Removes
/// the tables of segments that have no piece left.
pub(crate) fn take_range(
    processes: &mut IndexMap<u32, Runner>,
    tables: &mut Tables,
    index: usize,
    from: u64,
    to: u64,
)
    requires there { index < length processes.old.entries }
    requires range { IsPageRange from to }
    requires room { let es = processes.old.entries in
        length (cut from to (held es index)) ≤ most_at es index }
    requires reservations { HasReservations processes.old.entries tables.old }
    ensures { let kept = KeepCounted tables.old tables.new in
        let es = processes.old.entries in
        IsChanged kept es processes.new.entries tables.old tables.new index (cut from to) }
{
    let space = &mut processes[index].space;
    let met = space.met(from, to);
    if met.is_empty() {
        return;
    }
    recount(tables, met, from, to);
    space.cut(from, to);
}

/// Removes what is left of an attach, and its segment's table if the segment has no piece left. Returns the
/// segment; none if no piece has this origin.
pub(crate) fn take_attach(
    processes: &mut IndexMap<u32, Runner>,
    tables: &mut Tables,
    index: usize,
    addr: u64,
) -> Option<u32>
    requires there { index < length processes.old.entries }
    requires reservations { HasReservations processes.old.entries tables.old }
    ensures segment { result ≡ attached_at addr (held processes.old.entries index) }
    ensures changed { let kept = KeepCounted tables.old tables.new in
        let es = processes.old.entries in
        IsChanged kept es processes.new.entries tables.old tables.new index (without_attach addr) }
    ensures none { IfNone result (processes.new.entries ≡ processes.old.entries) }
    ensures same { IfNone result (tables.new ≡ tables.old) }
{
    let space = &mut processes[index].space;
    let before = space.pieces().len();
    let seg = space.take_at(addr)?;
    let gone = before - space.pieces().len();
    tables.release(seg, gone as u32);
    Some(seg)
}

/// Replaces whatever is in a piece's range by the piece: pieces there are removed, and those that reach
/// beyond it are cut. The segment's table was reserved before, because the pieces that are removed may be its
/// last.
pub(crate) fn exchange(
    processes: &mut IndexMap<u32, Runner>,
    tables: &mut Tables,
    index: usize,
    piece: Piece,
)
    requires can { CanReplace processes.old.entries tables.old index piece }
    requires reserved { AreTablesSound (one_reserved piece.seg) processes.old.entries tables.old }
    ensures { Exchanged processes.old.entries processes.new.entries tables.old tables.new index piece }
{
    take_range(processes, tables, index, piece.base, piece.end());
    put(processes, tables, index, piece);
    tables.replace(piece.seg, piece.key, 1, 0);
}

/// Sets the state of the process at an index.
pub(crate) fn set_life_at(processes: &mut IndexMap<u32, Runner>, index: usize, life: Life)
    requires { index < length processes.old.entries }
    ensures runners { let rs = runners_view processes.old.entries in
        runners_view processes.new.entries ≡ with_life_at rs index (life_view life) }
    ensures count { length processes.new.entries ≡ length processes.old.entries }
    ensures stored { (j : ℕ) → stored_at processes.new.entries j ≡ stored_at processes.old.entries j }
    ensures most { (j : ℕ) → most_at processes.new.entries j ≡ most_at processes.old.entries j }
{
    processes[index].life = life;
}

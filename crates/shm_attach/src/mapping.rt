//! What a process does to a range of its attached memory: it unmaps it (munmap(2)), or protects it
//! (mprotect(2)). Neither takes memory.
ghost use Rattle.std.specs.Prelude.{◌≡◌, ◌+◌, ◌%◌, ◌^◌, ◌<◌, ◌≤◌, [], Some, length, option_to_list, SomeIff, IfOk, OnOk, OnErr};
ghost use Rattle.shm_base.specs.Access as access;
ghost use Rattle.shm_base.specs.Mapping as flat;
ghost use Rattle.shm_base.specs.Space.{lowest_address, covering, cut_segments};
ghost use Rattle.shm_areas.specs.Arranged.{bare, bare_all, Arranged, IsFit, IsCovering};
ghost use Rattle.shm_attach.specs.Exact.{AreTablesSound, no_reservations};
ghost use Rattle.shm_attach.specs.Mapping.{refusal_in, IsPageRange, held, own_pieces, unmapped, unmap_refusal, protected, protected_by};
ghost use Rattle.shm_attach.specs.Mapping.{pieces_between, split_between, refusal_between, split_in, IsProtectedAt, Grows, IsStretch, KeepsOwn, Exchanged, CanReplace, MayProtect, AreNow};
ghost use Rattle.shm_attach.specs.Spaces.{IsCaller, KeepTrue};
ghost use Rattle.shm_attach.specs.Views.{most_at};

use crate::changes::{exchange, space_at, take_range};
use crate::lost::Lost;
use crate::process::{Caller, Runner};
use crate::spaces::Spaces;
use crate::tables::Tables;
use indexmap::IndexMap;
use shm_areas::{Piece, Space};
use shm_base::{Errno, PAGE_SIZE};

/// The end of a range of this many bytes, rounded up to whole pages; none if that is 2^64 or more.
fn range_end(addr: u64, len: u64) -> Option<u64>
    ensures { SomeIff result (addr + flat.rounded len < 2 ^ 64) (addr + flat.rounded len) }
{
    addr.checked_add(len.checked_next_multiple_of(PAGE_SIZE)?)
}

/// Whether one piece ends where the next begins, and both are parts of one attach.
fn goes_on(piece: &Piece, next: &Piece) -> bool
    requires piece { IsFit (bare piece.now) }
    requires next { IsFit (bare next.now) }
    ensures { result ≡ flat.goes_on (bare piece.now) (bare next.now) }
{
    piece.end() == next.base
        && piece.seg == next.seg
        && piece.base + PAGE_SIZE * next.first_page as u64
            == next.base + PAGE_SIZE * piece.first_page as u64
}

/// Where the changed part begins, after it joined the part below if that has the protection already.
fn low_end(space: &Space, piece: &Piece, at: u64, to: u64, writable: bool) -> u64
    requires arranged { Arranged lowest_address (bare_all space.now.pieces) }
    requires piece { covering at (bare_all space.now.pieces) ≡ Some (bare piece.now) }
    requires within { IsCovering at piece.now }
    ensures { result ≡ flat.low_end writable at to (bare piece.now) (bare_all space.now.pieces) }
{
    if at != piece.base || to >= piece.end() {
        return at;
    }
    match space.piece_at(at - 1) {
        Some(below) if goes_on(&below, piece) && below.writable == writable => below.base,
        _ => piece.base,
    }
}

/// Where the changed part ends, after it joined the part above if that has the protection already.
fn high_end(space: &Space, piece: &Piece, at: u64, to: u64, writable: bool) -> u64
    requires within { IsCovering at piece.now }
    ensures { result ≡ flat.high_end writable at to (bare piece.now) (bare_all space.now.pieces) }
{
    let end = piece.end();
    if at == piece.base || to < end {
        return to.min(end);
    }
    match space.piece_at(end) {
        Some(above) if goes_on(piece, &above) && above.writable == writable => above.end(),
        _ => end,
    }
}

/// The part of a piece's attach between two addresses.
fn part_between(piece: &Piece, low: u64, high: u64, writable: bool) -> Piece
    requires fit { IsFit (bare piece.now) }
    requires stretch { IsStretch (bare piece.now) low high }
    ensures flat { bare result ≡ flat.part_between writable low high (bare piece.now) }
    ensures key { result.key ≡ piece.now.key }
{
    Piece {
        base: low,
        first_page: ((PAGE_SIZE * piece.first_page as u64 + low - piece.base) / PAGE_SIZE) as u32,
        pages: ((high - low) / PAGE_SIZE) as u32,
        writable,
        ..*piece
    }
}

/// Replaces whatever is in its range by a part of an attach.
fn renew(processes: &mut IndexMap<u32, Runner>, tables: &mut Tables, index: usize, part: Piece)
    requires can { CanReplace processes.old.entries tables.old index part }
    requires sound { AreTablesSound no_reservations processes.old.entries tables.old }
    ensures { Exchanged processes.old.entries processes.new.entries tables.old tables.new index part }
{
    tables.replace(part.seg, part.key, 0, 1);
    exchange(processes, tables, index, part);
}

/// The address after a protected piece, and the piece's segment if the piece was split.
#[derive(Clone, Copy)]
pub(crate) struct Passed {
    pub(crate) end: u64,
    pub(crate) split: Option<u32>,
}

/// The segment, if a piece that replaces a range makes one piece more; `left` pieces remain without the
/// range.
fn split_by(space: &Space, left: usize, seg: u32) -> Option<u32>
    ensures { option_to_list result ≡ split_in seg (length space.now.pieces) (left + 1) }
{
    if space.pieces().len() <= left {
        Some(seg)
    } else {
        None
    }
}

/// Protects the piece at an address, from there to its end or to the end of the range.
fn protect_piece(
    processes: &mut IndexMap<u32, Runner>,
    tables: &mut Tables,
    index: usize,
    at: u64,
    to: u64,
    writable: bool,
) -> Result<Passed, Errno>
    requires process { MayProtect processes.old.entries tables.old index }
    requires range { IsPageRange at to }
    ensures protects { IsProtectedAt processes.old.entries processes.new.entries index writable at to result }
    ensures now { let fs = processes.new.entries in
        AreNow processes.old.entries fs tables.old tables.new index (held fs index) }
    ensures grows { IfOk result (λ p. Grows processes.old.entries processes.new.entries index p.split) }
    ensures further { IfOk result (λ passed. (at + 4096 ≤ passed.end) × (passed.end % 4096 ≡ 0)) }
{
    let space = space_at(processes, index);
    let Some(piece) = space.piece_at(at) else {
        return Err(Errno::Enomem);
    };
    if writable && !piece.may_write {
        return Err(Errno::Eacces);
    }
    if piece.writable == writable {
        return Ok(Passed {
            end: piece.end(),
            split: None,
        });
    }
    let low = low_end(space, &piece, at, to, writable);
    let high = high_end(space, &piece, at, to, writable);
    let left = space.count_outside(low, high);
    if left >= space.most() as usize {
        return Err(Errno::Enomem);
    }
    let split = split_by(space, left, piece.seg);
    let part = part_between(&piece, low, high, writable);
    renew(processes, tables, index, part);
    Ok(Passed {
        end: piece.end(),
        split,
    })
}

/// Protects whole pages, piece by piece, and notes the segments of pieces that were split.
fn protect_range(
    processes: &mut IndexMap<u32, Runner>,
    tables: &mut Tables,
    lost: &mut Lost,
    index: usize,
    from: u64,
    to: u64,
    writable: bool,
) -> Result<(), Errno>
    requires process { MayProtect processes.old.entries tables.old index }
    requires range { IsPageRange from to }
    requires none { lost.old.segments ≡ [] }
    requires reserved { lost.old.most ≡ most_at processes.old.entries index }
    ensures refusal { refusal_in result ≡ refusal_between processes.old.entries index writable from to }
    ensures now { let ps = pieces_between processes.old.entries index writable from to in
        AreNow processes.old.entries processes.new.entries tables.old tables.new index ps }
    ensures split { lost.new.segments ≡ split_between processes.old.entries index writable from to }
    ensures reserved { lost.new.most ≡ lost.old.most }
{
    let mut at = from;
    while at < to {
        let passed = protect_piece(processes, tables, index, at, to, writable)?;
        lost.add(passed.split);
        at = passed.end;
    }
    Ok(())
}

impl Spaces {
    /// Takes a range of whole pages out of the pieces of a process: pieces there are removed, and those that
    /// reach beyond it are cut. Notes the segments that lost pages. Enomem: the process would have too many
    /// pieces; nothing changed.
    pub fn unmap(&mut self, caller: &Caller, from: u64, to: u64) -> Result<(), Errno>
        requires live { IsCaller caller.now self.old.runners }
        requires range { IsPageRange from to }
        ensures refusal { refusal_in result ≡ unmap_refusal self.old caller.now from to }
        ensures err { OnErr result (self.new ≡ self.old) }
        ensures lost { OnOk result (self.new.lost ≡ cut_segments from to (own_pieces self.old caller.now)) }
        ensures runners { OnOk result (self.new.runners ≡ unmapped self.old caller.now from to) }
        ensures most { self.new.most ≡ self.old.most }
        ensures translated { KeepTrue self.old self.new }
    {
        let space = space_at(&self.processes, caller.index);
        if space.count_outside(from, to) > self.most as usize {
            return Err(Errno::Enomem);
        }
        self.lost.note(space.met(from, to));
        take_range(
            &mut self.processes,
            &mut self.tables,
            caller.index,
            from,
            to,
        );
        Ok(())
    }

    /// Makes a range of a process writable or read-only, from its beginning up to the first refusal. Notes
    /// the segments of pieces that were split, also if it is refused.
    ///
    /// - Einval: the range does not begin with a page.
    /// - Enomem: an address without a piece, or the process would have too many pieces.
    /// - Eacces: a piece that may not become writable.
    pub fn protect(
        &mut self,
        caller: &Caller,
        addr: u64,
        len: u64,
        writable: bool,
    ) -> Result<(), Errno>
        requires live { IsCaller caller.now self.old.runners }
        ensures refusal { refusal_in result ≡ (protected_by self.old caller.now writable addr len).refusal }
        ensures runners { self.new.runners ≡ protected self.old caller.now writable addr len }
        ensures own { KeepsOwn (own_pieces self.old caller.now)
            (protected_by self.old caller.now writable addr len).pieces }
        ensures most { self.new.most ≡ self.old.most }
        ensures lost { self.new.lost ≡ (protected_by self.old caller.now writable addr len).split }
        ensures translated { KeepTrue self.old self.new }
    {
        self.lost.clear();
        if addr % PAGE_SIZE != 0 {
            return Err(Errno::Einval);
        }
        if len == 0 {
            return Ok(());
        }
        let Some(to) = range_end(addr, len) else {
            return Err(Errno::Enomem);
        };
        protect_range(
            &mut self.processes,
            &mut self.tables,
            &mut self.lost,
            caller.index,
            addr,
            to,
            writable,
        )
    }
}

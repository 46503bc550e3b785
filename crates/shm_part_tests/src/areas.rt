use shm_areas::{Piece, Space};
use shm_base::{END_ADDRESS, HostMemory, LOWEST_ADDRESS, MOST_SHMALL, PAGE_SIZE};
use std::alloc::Global;
use std::process::Abort;

/// A change of a space or a question about it, with the expected answer.
enum Act {
    /// Attaches pages of a segment at an address; whether that is possible.
    Put(u64, u32, u32, bool),
    /// The byte that an address denotes: its segment, its offset there, and whether it may be written.
    Byte(u64, Option<(u32, u64, bool)>),
    /// The piece that has an address.
    PieceAt(u64, Option<Piece>),
    /// The address of the least gap for one page.
    Choose(u64),
    /// Whether a piece has one of some pages.
    Occupied(u64, u32, bool),
    /// The segments of which a cut of a range would leave a part of a piece.
    Rests(u64, u64, &'static [u32]),
    /// How many pieces meet a range, and how many would be left without it.
    Met(u64, u64, usize),
    Outside(u64, u64, usize),
    /// Takes a range out.
    Cut(u64, u64),
    /// The lowest piece with this origin.
    Origin(u64, Option<Piece>),
    /// Takes out what is left of the attach with this origin, which is of this segment.
    Take(u64, u32),
    /// All pieces, and how many there are.
    Pieces(&'static [Piece]),
    Count(usize),
}

/// Attaches whole pages of a segment at an address, if nothing is there and there is room. Returns whether it
/// did.
fn put(space: &mut Space, base: u64, seg: u32, pages: u32) -> bool {
    if pages < 1 || pages > 4096 || base % PAGE_SIZE != 0 || base < LOWEST_ADDRESS {
        return false;
    }
    if base > END_ADDRESS - PAGE_SIZE * pages as u64
        || space.pieces().len() >= space.most() as usize
    {
        return false;
    }
    if !space.met(base, base + PAGE_SIZE * pages as u64).is_empty() {
        return false;
    }
    space.insert(Piece {
        base,
        seg,
        first_page: 0,
        pages,
        writable: true,
        may_write: true,
        key: 0,
    });
    true
}

/// Takes a range out, if it has whole pages and there is room for what is left. Returns whether it did.
fn cut(space: &mut Space, from: u64, to: u64) -> bool {
    if from % PAGE_SIZE != 0 || to % PAGE_SIZE != 0 || from >= to {
        return false;
    }
    if space.count_outside(from, to) > space.most() as usize {
        return false;
    }
    space.cut(from, to);
    true
}

/// Whether a piece has one of these pages, of which there are at most as many as a segment may have.
fn occupies(space: &Space, base: u64, pages: u32) -> Option<bool> {
    if pages < 1 || pages as u64 > MOST_SHMALL {
        return None;
    }
    Some(space.is_occupied(base, pages))
}

fn byte_at(space: &Space, addr: u64) -> Option<(u32, u64, bool)> {
    let place = space.place(addr)?;
    Some((place.seg, place.at, place.writable))
}

/// Performs an act, and returns whether its answer is the expected one.
fn answers(space: &mut Space, act: &Act) -> bool {
    match *act {
        Act::Put(base, seg, pages, done) => put(space, base, seg, pages) == done,
        Act::Byte(addr, byte) => byte_at(space, addr) == byte,
        Act::PieceAt(addr, piece) => space.piece_at(addr) == piece,
        Act::Choose(base) => space.choose(1) == Some(base),
        Act::Occupied(base, pages, is) => occupies(space, base, pages) == Some(is),
        Act::Rests(from, to, ids) => from < to && space.rests(from, to).segments() == ids,
        Act::Met(from, to, count) => from < to && space.met(from, to).len() == count,
        Act::Outside(from, to, count) => from < to && space.count_outside(from, to) == count,
        Act::Cut(from, to) => cut(space, from, to),
        Act::Origin(addr, piece) => space.origin_of(addr) == piece,
        Act::Take(addr, seg) => space.take_at(addr) == Some(seg),
        Act::Pieces(pieces) => space.pieces() == pieces,
        Act::Count(count) => space.pieces().len() == count,
    }
}

/// Checks the acts in order. A message counts the rows from 0.
fn answers_all(rt: &impl Abort, space: &mut Space, name: &str, acts: &[Act]) {
    for (row, act) in acts.iter().enumerate() {
        assert!(rt; answers(space, act), "{name}, at row {row}");
    }
}

/// As `answers_all`, in a space without pieces.
fn in_a_space(rt: &impl Abort, alloc: Global, name: &str, acts: &[Act]) -> Result<(), HostMemory> {
    let mut space = Space::new(alloc, 256)?;
    answers_all(rt, &mut space, name, acts);
    Ok(())
}

const ONE_PAGE: Piece = Piece {
    base: 0x50000000,
    seg: 0,
    first_page: 0,
    pages: 1,
    writable: true,
    may_write: true,
    key: 0,
};

const DENOTED: &[Act] = &[
    Act::Put(0x50000000, 0, 1, true),
    Act::Put(0x50000000, 1, 1, false),
    Act::Byte(0x50000fff, Some((0, 4095, true))),
    Act::Byte(0x50001000, None),
    Act::Byte(0x4fffffff, None),
    Act::Byte(u64::MAX, None),
    Act::PieceAt(0x50000000, Some(ONE_PAGE)),
];

const FULL: &[Act] = &[
    Act::Choose(0x40100000),
    Act::Put(0x40100000, 0, 1, false),
    Act::Count(256),
];

fn puts_side_by_side(rt: &impl Abort, space: &mut Space) {
    for k in 0..256u64 {
        let base = 0x40000000 + 4096 * k;
        assert!(rt; space.choose(1) == Some(base), "at {base}");
        assert!(rt; put(space, base, 0, 1), "at {base}");
    }
    answers_all(rt, space, "side by side", FULL);
}

#[test]
fn pieces_are_put_side_by_side(rt: HostRuntime) -> Result<(), HostMemory> {
    let mut space = Space::new(rt.alloc(), 256)?;
    puts_side_by_side(&rt, &mut space);
    Ok(())
}

#[test]
fn a_space_has_room_for_its_most(rt: HostRuntime) -> Result<(), HostMemory> {
    let mut space = Space::new(rt.alloc(), 2)?;
    assert!(rt; space.most() == 2);
    assert!(rt; put(&mut space, 0x50000000, 0, 3), "the first piece");
    assert!(rt; cut(&mut space, 0x50001000, 0x50002000), "two parts of it");
    assert!(rt; !cut(&mut space, 0x50000000, 0x50000000), "an empty range");
    assert!(rt; !put(&mut space, 0x60000000, 0, 1), "a third piece");
    Ok(())
}

// A page of the space is occupied, and so is the last page of the addresses.
const OCCUPIED: &[Act] = &[
    Act::Put(0x50000000, 0, 1, true),
    Act::Put(0x7fffffffe000, 0, 1, true),
    Act::Occupied(0x50000000, 1, true),
    Act::Occupied(0x4ffff000, 1, false),
    Act::Occupied(0x4ffff000, 2, true),
    Act::Occupied(0x50000fff, 1, true),
    Act::Occupied(0x50001000, 1, false),
    Act::Occupied(0, 0x50000, false),
    Act::Occupied(0, 0x50001, true),
    Act::Occupied(0x7fffffffd000, 1, false),
    Act::Occupied(0x7fffffffefff, 0x10000000, true),
    Act::Occupied(0x7ffffffff000, 0x10000000, false),
    Act::Occupied(u64::MAX, 0x10000000, false),
];

// Three consecutive pieces, and ranges that leave parts of none, of one or of two of them.
const RESTS: &[Act] = &[
    Act::Put(0x50000000, 7, 2, true),
    Act::Put(0x50002000, 8, 1, true),
    Act::Put(0x50003000, 9, 2, true),
    Act::Rests(0x50000000, 0x50005000, &[]),
    Act::Rests(0x50005000, 0x50006000, &[]),
    Act::Rests(0x50000000, 0x50001000, &[7]),
    Act::Rests(0x50001000, 0x50003000, &[7]),
    Act::Rests(0x50002000, 0x50004000, &[9]),
    Act::Rests(0x50001000, 0x50004000, &[7, 9]),
    Act::Rests(0x50002000, 0x50003000, &[]),
    Act::Rests(0x50002800, 0x50002900, &[8]),
];

// A hole between consecutive pieces is the next choice.
const HOLES: &[Act] = &[
    Act::Put(0x40000000, 1, 1, true),
    Act::Put(0x40001000, 2, 1, true),
    Act::Put(0x40003000, 3, 1, true),
    Act::Choose(0x40002000),
    Act::Put(0x40002000, 4, 1, true),
    Act::Choose(0x40004000),
    Act::Cut(0x40001000, 0x40002000),
    Act::Choose(0x40001000),
    Act::Take(0x40000000, 1),
    Act::Choose(0x40000000),
    Act::Put(0x40000000, 1, 2, true),
    Act::Choose(0x40004000),
    Act::Take(0x40003000, 3),
    Act::Choose(0x40003000),
];

const BELOW: Piece = Piece {
    base: 0x40000000,
    seg: 7,
    first_page: 0,
    pages: 1,
    writable: true,
    may_write: true,
    key: 0,
};

const ABOVE: Piece = Piece {
    base: 0x40002000,
    seg: 7,
    first_page: 2,
    pages: 1,
    writable: true,
    may_write: true,
    key: 0,
};

// Takes out the page in the middle of three.
const CUT: &[Act] = &[
    Act::Put(0x40000000, 7, 3, true),
    Act::Met(0x40001000, 0x40002000, 1),
    Act::Outside(0x40001000, 0x40002000, 2),
    Act::Cut(0x40001000, 0x40002000),
    Act::Pieces(&[BELOW, ABOVE]),
    Act::Byte(0x40002001, Some((7, 8193, true))),
    Act::Origin(0x40000000, Some(BELOW)),
    Act::Origin(0x40002000, None),
    Act::Outside(0x40000000, 0x40001000, 1),
    Act::Cut(0x40000000, 0x40001000),
    Act::Pieces(&[ABOVE]),
    Act::Origin(0x40000000, Some(ABOVE)),
    Act::Take(0x40000000, 7),
    Act::Pieces(&[]),
];

const TRIALS: &[(&str, &[Act])] = &[
    ("addresses denote bytes", DENOTED),
    ("ranges are occupied", OCCUPIED),
    ("ranges leave parts", RESTS),
    ("holes are chosen again", HOLES),
    ("a cut leaves two parts", CUT),
];

#[test]
fn a_space_answers_as_stated(rt: HostRuntime) -> Result<(), HostMemory> {
    for (name, acts) in TRIALS {
        in_a_space(&rt, rt.alloc(), name, acts)?;
    }
    Ok(())
}

// Holes of one page are skipped, and a hole of two that a cut makes among them is found.
fn chooses_after_holes(rt: &impl Abort, space: &mut Space) {
    for k in 0..40u64 {
        assert!(rt; put(space, 0x40000000 + 0x2000 * k, 0, 1), "at {k}");
    }
    for k in 0..40u64 {
        let base = 0x4004f000 + 0x2000 * k;
        assert!(rt; space.choose(2) == Some(base), "at {base}");
        assert!(rt; put(space, base, 0, 2), "at {base}");
    }
    assert!(rt; cut(space, 0x40010000, 0x40011000));
    assert!(rt; space.choose(2) == Some(0x4000f000));
    assert!(rt; space.choose(4) == Some(0x4009f000));
}

#[test]
fn small_holes_are_passed(rt: HostRuntime) -> Result<(), HostMemory> {
    let mut space = Space::new(rt.alloc(), 256)?;
    chooses_after_holes(&rt, &mut space);
    Ok(())
}

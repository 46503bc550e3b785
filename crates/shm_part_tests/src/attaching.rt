ghost use Rattle.std.specs.Prelude.{◌≡◌, ◌≤◌, true};
ghost use Rattle.shm_attach.specs.Place.{IsRange};

use shm_attach::Spaces;
use shm_base::{
    Cred, END_ADDRESS, Errno, FrameNo, HostMemory, LOWEST_ADDRESS, PAGE_SIZE, PageRef, Process,
    Span,
};
use shm_fault::{PageMove, PageStore};
use shm_pager::RamPager;
use shm_slots::Swap;
use std::alloc::Global;
use std::process::Abort;

/// A change of the processes of a family or a question about them, with the expected answer.
pub(crate) enum Act {
    /// Process 1 attaches a segment at an address: this many pages, writable or read-only.
    Attach(u32, u64, u32, bool),
    /// Process 1 has no room for one more piece.
    Full,
    /// Process 1 detaches the segment with this origin, or nothing.
    Detach(u64, Option<u32>),
    /// Process 1 forks a child, or can't.
    Fork(u32, bool),
    /// A process loses all its pieces, of these segments.
    Exec(u32, &'static [u32]),
    /// As `Exec`, and the process ends.
    Exit(u32, &'static [u32]),
    /// The user of a process, if it is live.
    User(u32, Option<u32>),
    /// How many pieces a segment has.
    Count(u32, u32),
    /// The spans of process 1's access to this many addresses, a write or a read; none if it is refused.
    Spans(u64, u64, bool, &'static [Span]),
    /// The frames that a process has for its pages from an address on.
    Frames(u32, u64, &'static [Option<FrameNo>]),
    /// Pages move.
    Note(&'static [PageMove]),
    /// Process 1 unmaps the addresses from one up to another, or is refused.
    Unmap(u64, u64, Option<Errno>),
    /// Process 1 makes a range writable or read-only, or is refused in it.
    Protect(u64, u64, bool, Option<Errno>),
    /// The first address at which a process's access fails; it writes or reads.
    Fails(u32, u64, u64, bool, Option<u64>),
    /// The first address of a process's access whose page has no frame.
    Absent(u32, u64, u64, Option<u64>),
    /// The segments that the last change concerned.
    Lost(&'static [u32]),
}

/// Process 1 of user 100, and child 2; each has at most this many pieces.
pub(crate) fn family(alloc: Global, most: u32) -> Result<Spaces, HostMemory>
    requires { most ≤ 256 }
{
    let cred = Cred { uid: 100, gid: 100 };
    let parent = Process {
        pid: 1,
        born: Some(cred),
    };
    let child = Process { pid: 2, born: None };
    Spaces::new(alloc, &[parent, child], most)
}

/// A store without segments, over one area of one slot: no page is resident.
pub(crate) fn bare_store(alloc: Global) -> Result<PageStore<RamPager>, HostMemory> {
    let swap = Swap::new(alloc, vec![in alloc; RamPager::new(alloc, 1)?]?)?;
    PageStore::new(alloc, 2, swap)
}

/// Whether the pages at a base are within the addresses.
fn is_range(base: u64, pages: u32) -> bool
    ensures { result ≡ true → (1 ≤ pages) × (pages ≤ 4096) × IsRange pages base }
{
    1 <= pages
        && pages <= 4096
        && base % PAGE_SIZE == 0
        && LOWEST_ADDRESS <= base
        && base <= END_ADDRESS - PAGE_SIZE * pages as u64
}

/// Attaches pages of a segment to process 1, if there is room for one more piece and no other attached segment
/// has its index.
fn attach(
    spaces: &mut Spaces,
    store: &PageStore<RamPager>,
    seg: u32,
    base: u64,
    pages: u32,
    writable: bool,
) -> bool
    requires pages { (1 ≤ pages) × (pages ≤ 4096) }
    requires range { IsRange pages base }
{
    let Some(caller) = spaces.caller(1) else {
        return false;
    };
    let space = spaces.space(&caller);
    let left = space.count_outside(base, base + PAGE_SIZE * pages as u64);
    if left >= space.most() as usize || !spaces.is_only_at(seg) {
        return false;
    }
    spaces
        .attach(&caller, seg, base, pages, writable, store)
        .is_ok()
}

/// Detaches what is left of the attach with this origin, and returns its segment.
fn detach(spaces: &mut Spaces, addr: u64) -> Option<u32> {
    let caller = spaces.caller(1)?;
    spaces.detach(&caller, addr)
}

fn fork(spaces: &mut Spaces, child: u32) -> bool {
    match (spaces.caller(1), spaces.child(child)) {
        (Some(caller), Some(child)) => {
            spaces.fork(&caller, &child);
            true
        }
        _ => false,
    }
}

fn execs(spaces: &mut Spaces, pid: u32, lost: &[u32]) -> bool {
    match spaces.caller(pid) {
        Some(caller) => {
            spaces.exec(&caller);
            spaces.lost() == lost
        }
        None => false,
    }
}

fn exits(spaces: &mut Spaces, pid: u32, lost: &[u32]) -> bool {
    match spaces.caller(pid) {
        Some(caller) => {
            spaces.exit(&caller);
            spaces.lost() == lost
        }
        None => false,
    }
}

/// The frame that a process has for the page at an address.
fn frame_at(spaces: &Spaces, pid: u32, addr: u64) -> Option<FrameNo> {
    let spans = spaces.spans(pid, addr, 1, false).ok()?;
    spans.as_slice()[0].frame
}

/// Whether a process has these frames for its pages from an address on.
fn has_frames(spaces: &Spaces, pid: u32, from: u64, wanted: &[Option<FrameNo>]) -> bool {
    let mut addr = from;
    for &frame in wanted {
        if frame_at(spaces, pid, addr) != frame {
            return false;
        }
        addr = addr.wrapping_add(PAGE_SIZE);
    }
    true
}

/// Whether an access has exactly these spans.
fn has_spans(spaces: &Spaces, addr: u64, len: u64, write: bool, wanted: &[Span]) -> bool {
    if len < 1 || len > 64 {
        return false;
    }
    match spaces.spans(1, addr, len, write) {
        Ok(spans) => spans.as_slice() == wanted,
        Err(_) => wanted.is_empty(),
    }
}

fn unmap(spaces: &mut Spaces, from: u64, to: u64) -> Option<Errno> {
    if from % PAGE_SIZE != 0 || to % PAGE_SIZE != 0 || from >= to {
        return Some(Errno::Einval);
    }
    let Some(caller) = spaces.caller(1) else {
        return Some(Errno::Esrch);
    };
    spaces.unmap(&caller, from, to).err()
}

fn protect(spaces: &mut Spaces, addr: u64, len: u64, writable: bool) -> Option<Errno> {
    let Some(caller) = spaces.caller(1) else {
        return Some(Errno::Esrch);
    };
    spaces.protect(&caller, addr, len, writable).err()
}

/// Performs an act, and returns whether its answer is the expected one.
fn answers(spaces: &mut Spaces, store: &PageStore<RamPager>, act: &Act) -> bool {
    match *act {
        Act::Attach(seg, base, pages, writable) => {
            is_range(base, pages) && attach(spaces, store, seg, base, pages, writable)
        }
        Act::Full => !attach(spaces, store, 0, 0x50000000, 1, true),
        Act::Detach(addr, seg) => detach(spaces, addr) == seg,
        Act::Fork(child, done) => fork(spaces, child) == done,
        Act::Exec(pid, lost) => execs(spaces, pid, lost),
        Act::Exit(pid, lost) => exits(spaces, pid, lost),
        Act::User(pid, user) => spaces.caller(pid).map(|c| c.cred.uid) == user,
        Act::Count(seg, count) => spaces.count(seg) == count,
        Act::Spans(addr, len, write, spans) => has_spans(spaces, addr, len, write, spans),
        Act::Frames(pid, from, frames) => has_frames(spaces, pid, from, frames),
        Act::Note(moves) => {
            spaces.note(moves);
            true
        }
        Act::Unmap(from, to, refusal) => unmap(spaces, from, to) == refusal,
        Act::Protect(addr, len, writable, refusal) => {
            protect(spaces, addr, len, writable) == refusal
        }
        Act::Fails(pid, addr, len, write, first) => {
            spaces.failed_at(pid, addr, len, write) == first
        }
        Act::Absent(pid, addr, len, first) => spaces.absent_at(pid, addr, len) == first,
        Act::Lost(lost) => spaces.lost() == lost,
    }
}

/// Checks the acts in order. A message counts the rows from 0.
pub(crate) fn answers_all(
    rt: &impl Abort,
    spaces: &mut Spaces,
    store: &PageStore<RamPager>,
    name: &str,
    acts: &[Act],
) {
    for (row, act) in acts.iter().enumerate() {
        assert!(rt; answers(spaces, store, act), "{name}, at row {row}");
    }
}

/// As `answers_all`, in a family without pieces.
pub(crate) fn in_a_family(
    rt: &impl Abort,
    alloc: Global,
    name: &str,
    acts: &[Act],
) -> Result<(), HostMemory> {
    let store = bare_store(alloc)?;
    let mut spaces = family(alloc, 256)?;
    answers_all(rt, &mut spaces, &store, name, acts);
    Ok(())
}

const BELOW: Span = Span {
    seg: 0,
    at: 4094,
    len: 2,
    frame: None,
};

const ABOVE: Span = Span {
    seg: 0,
    at: 0,
    len: 2,
    frame: None,
};

const TWO_PIECES: &[Act] = &[
    Act::Attach(0, 0x40000000, 1, true),
    Act::Attach(0, 0x40001000, 1, false),
    Act::Spans(0x40000ffe, 4, false, &[BELOW, ABOVE]),
    Act::Spans(0x40000ffe, 4, true, &[]),
    Act::Spans(0x40000ffe, 2, true, &[BELOW]),
    Act::Spans(0x40001fff, 2, false, &[]),
    Act::Spans(u64::MAX, 64, false, &[]),
    Act::Count(0, 2),
];

const FULL: &[Act] = &[Act::Full, Act::Count(0, 256)];

// Process 1 attaches 256 pages, each as a piece of its own.
fn fills(rt: &impl Abort, spaces: &mut Spaces, store: &PageStore<RamPager>) {
    for k in 0..256u64 {
        let base = 0x40000000 + 4096 * k;
        assert!(rt; attach(spaces, store, 0, base, 1, true), "at {base}");
    }
    answers_all(rt, spaces, store, "256 pieces", FULL);
}

#[test]
fn a_process_has_room_for_256_pieces(rt: HostRuntime) -> Result<(), HostMemory> {
    let store = bare_store(rt.alloc())?;
    let mut spaces = family(rt.alloc(), 256)?;
    fills(&rt, &mut spaces, &store);
    Ok(())
}

const THIRD_PAGE: Span = Span {
    seg: 0,
    at: 8192,
    len: 1,
    frame: None,
};

const OTHER_SEGMENT: Span = Span {
    seg: 1,
    at: 0,
    len: 1,
    frame: None,
};

const PARTS: &[Act] = &[
    Act::Attach(0, 0x40000000, 3, true),
    Act::Attach(1, 0x40001000, 1, true),
    Act::Count(0, 2),
    Act::Spans(0x40002000, 1, true, &[THIRD_PAGE]),
    Act::Detach(0x40000000, Some(0)),
    Act::Count(0, 0),
    Act::Spans(0x40001000, 1, true, &[OTHER_SEGMENT]),
    Act::Detach(0x40001000, Some(1)),
    Act::Detach(0x40001000, None),
];

const SAME_ORIGIN: &[Act] = &[
    Act::Attach(0, 0x40000000, 2, true),
    Act::Attach(1, 0x40000000, 1, true),
    Act::Detach(0x40000000, Some(1)),
    Act::Count(0, 1),
    Act::Count(1, 0),
    Act::Detach(0x40000000, Some(0)),
    Act::Count(0, 0),
];

// Process 1 forks its child, and both end.
const FORKS_AND_GOES: &[Act] = &[
    Act::Attach(0, 0x40000000, 1, true),
    Act::User(2, None),
    Act::Fork(2, true),
    Act::Count(0, 2),
    Act::User(2, Some(100)),
    Act::Exec(2, &[0]),
    Act::Count(0, 1),
    Act::Fork(2, false),
    Act::Fork(1, false),
    Act::Fork(3, false),
    Act::Exit(1, &[0]),
    Act::Count(0, 0),
    Act::User(1, None),
    Act::Detach(0x40000000, None),
];

const FIRST: PageRef = PageRef { seg: 0, page: 0 };

const LAST: PageRef = PageRef { seg: 0, page: 2 };

const OTHER: PageRef = PageRef { seg: 1, page: 2 };

const MOVES: &[Act] = &[
    Act::Attach(0, 0x40000000, 3, true),
    Act::Fork(2, true),
    Act::Frames(2, 0x40002000, &[None]),
    Act::Note(&[PageMove::Came(FIRST, 5), PageMove::Came(LAST, 6)]),
    Act::Frames(1, 0x40002000, &[Some(6)]),
    Act::Frames(2, 0x40002000, &[Some(6)]),
    Act::Frames(2, 0x40001000, &[None]),
    Act::Note(&[PageMove::Gone(LAST), PageMove::Came(OTHER, 6)]),
    Act::Frames(1, 0x40002fff, &[None]),
    Act::Frames(2, 0x40002fff, &[None]),
    Act::Frames(2, 0x40000000, &[Some(5)]),
];

// The first and the last of three pages are in memory. An address without a piece is not absent.
const ABSENT: &[Act] = &[
    Act::Attach(0, 0x40000000, 3, true),
    Act::Absent(1, 0x40000ffe, 4, Some(0x40000ffe)),
    Act::Absent(1, 0x40000ffe, 0, None),
    Act::Note(&[PageMove::Came(FIRST, 5), PageMove::Came(LAST, 6)]),
    Act::Absent(1, 0x40000ffe, 2, None),
    Act::Absent(1, 0x40000ffe, 3, Some(0x40001000)),
    Act::Absent(1, 0x40000000, u64::MAX, Some(0x40001000)),
    Act::Absent(1, 0x40001801, 0x1000, Some(0x40001801)),
    Act::Absent(1, 0x40002000, 0x1001, None),
    Act::Absent(1, 0x3fffffff, 0x2000, None),
    Act::Absent(1, u64::MAX, u64::MAX, None),
    Act::Absent(2, 0x40001000, 1, None),
    Act::Fork(2, true),
    Act::Absent(2, 0x40001000, 1, Some(0x40001000)),
    Act::Note(&[PageMove::Gone(LAST)]),
    Act::Absent(2, 0x40002fff, 1, Some(0x40002fff)),
];

const GONE: &[Act] = &[
    Act::Attach(0, 0x40000000, 1, true),
    Act::Note(&[PageMove::Came(FIRST, 5)]),
    Act::Attach(0, 0x40001000, 2, true),
    Act::Detach(0x40000000, Some(0)),
    Act::Frames(1, 0x40001000, &[Some(5), None]),
    Act::Detach(0x40001000, Some(0)),
    Act::Attach(0, 0x40000000, 1, true),
    Act::Frames(1, 0x40000000, &[None]),
];

// Of four pages in frames 10 to 13, two are replaced, and one is removed.
const CUT_TWICE: &[Act] = &[
    Act::Attach(0, 0x40000000, 4, true),
    Act::Note(&[PageMove::Came(FIRST, 10)]),
    Act::Note(&[PageMove::Came(PageRef { seg: 0, page: 1 }, 11)]),
    Act::Note(&[PageMove::Came(LAST, 12)]),
    Act::Note(&[PageMove::Came(PageRef { seg: 0, page: 3 }, 13)]),
    Act::Attach(1, 0x40001000, 1, true),
    Act::Frames(1, 0x40000000, &[Some(10), None, Some(12), Some(13)]),
    Act::Attach(1, 0x40002000, 1, true),
    Act::Frames(1, 0x40000000, &[Some(10), None, None, Some(13)]),
    Act::Note(&[PageMove::Gone(PageRef { seg: 0, page: 3 })]),
    Act::Frames(1, 0x40000000, &[Some(10), None, None, None]),
];

const TRIALS: &[(&str, &[Act])] = &[
    ("an access over two pieces has two spans", TWO_PIECES),
    ("parts of one attach are detached together", PARTS),
    ("the lowest piece names the segment", SAME_ORIGIN),
    ("a child has its parent's pieces", FORKS_AND_GOES),
    ("moves reach each piece and each process", MOVES),
    ("the first absent page is returned", ABSENT),
    ("a destroyed segment has no frames", GONE),
    ("parts keep their translations", CUT_TWICE),
];

#[test]
fn a_family_answers_as_stated(rt: HostRuntime) -> Result<(), HostMemory> {
    for (name, acts) in TRIALS {
        in_a_family(&rt, rt.alloc(), name, acts)?;
    }
    Ok(())
}

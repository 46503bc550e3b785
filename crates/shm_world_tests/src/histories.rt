ghost use Rattle.std.specs.Prelude.{◌≡◌};

use bitflags::Flags;
use shm_base::{
    AccessLen, AtFlags, Call, Chunk, Cred, Errno, GetFlags, Limits, Process, Reply, Rules, Sizes,
    Step, Tally,
};
use shm_history::{Gauge, GaugeRefused, Keeper, ReaderSeat, Reading, System, World, gauge};
use shm_pager::{FusePager, RamPager};
use shm_pager_core::Pager;
use std::alloc::Global;
use std::process::Abort;
use std::sync::Wait;
use std::test::Fail;

/// A call of process 1.
pub(crate) enum Ask {
    /// shmget of this many bytes, without a key.
    Get(u64),
    /// shmat of an identifier, at an address that the system chooses.
    At(i32),
    /// A store of bytes at an address.
    Store(u64, &'static [u8]),
    /// A load of this many bytes at an address.
    Load(u64, u64),
    Exit,
    /// A swapoff of an area.
    Swapoff(u32),
    /// A removal of a segment.
    Rmid(i32),
}

/// The expected reply to a call.
pub(crate) enum Want {
    Id(i32),
    Addr(u64),
    Bytes(&'static [u8]),
    Done,
    Refused(Errno),
}

pub(crate) type Row = (Ask, Want);

pub(crate) fn world(alloc: Global, shmmax: u64) -> Result<World<RamPager>, Fail> {
    let limits = Limits::new(shmmax, 16, 64, 4, 1)
        .ok()
        .ok_or("the limits hold")?;
    let pagers = vec![in alloc; RamPager::new(alloc, 64)?]?;
    opened(alloc, limits, pagers)
}

fn opened<P: Pager>(alloc: Global, limits: Limits, pagers: Vec<P>) -> Result<World<P>, Fail> {
    opened_by(alloc, 100, limits, pagers)
}

// A world with process 1 of this user.
pub(crate) fn opened_by<P: Pager>(
    alloc: Global,
    uid: u32,
    limits: Limits,
    pagers: Vec<P>,
) -> Result<World<P>, Fail> {
    let first = Process {
        pid: 1,
        born: Some(Cred { uid, gid: 100 }),
    };
    let system = System::start(alloc, limits, pagers, &[first])
        .ok()
        .ok_or("it starts")?;
    Ok(World::new(alloc, system))
}

fn call_of(ask: &Ask) -> Option<Call> {
    Some(match *ask {
        Ask::Get(size) => Call::Shmget {
            key: 0,
            size,
            mode: 0o600,
            flags: GetFlags::empty(),
        },
        Ask::At(id) => Call::Shmat {
            id,
            addr: 0,
            flags: AtFlags::empty(),
        },
        Ask::Store(addr, bytes) => Call::Store {
            addr,
            chunk: Chunk::new(bytes)?,
        },
        Ask::Load(addr, len) => Call::Load {
            addr,
            len: AccessLen::new(len)?,
        },
        Ask::Exit => Call::Exit,
        Ask::Swapoff(area) => Call::Swapoff { area },
        Ask::Rmid(id) => Call::Rmid { id },
    })
}

fn reply_of(want: &Want) -> Option<Reply> {
    Some(match *want {
        Want::Id(id) => Reply::Id(id),
        Want::Addr(addr) => Reply::Addr(addr),
        Want::Bytes(bytes) => Reply::Bytes(Chunk::new(bytes)?),
        Want::Done => Reply::Done,
        Want::Refused(errno) => Reply::Refused(errno),
    })
}

fn made(row: &Row) -> Option<(Call, Reply)> {
    Some((call_of(&row.0)?, reply_of(&row.1)?))
}

fn called<P: Pager>(world: &mut World<P>, call: &Call) -> Option<Reply> {
    world.call(1, call).ok()
}

// The reply to a call. If the host refuses memory the history is unchanged, and the call is made again.
fn reply<P: Pager>(rt: &impl Abort, world: &mut World<P>, call: &Call) -> Option<Reply> {
    let before = world.history().len();
    if let Some(reply) = called(world, call) {
        return Some(reply);
    }
    assert_eq!(rt; world.history().len(), before);
    called(world, call)
}

pub(crate) fn answers<P: Pager>(rt: &impl Abort, world: &mut World<P>, row: &Row) -> bool {
    match made(row) {
        Some((call, wanted)) => reply(rt, world, &call) == Some(wanted),
        None => false,
    }
}

// Checks the reply to each call. A message counts the rows from 0.
fn answers_all<P: Pager>(rt: &impl Abort, world: &mut World<P>, name: &str, rows: &[Row]) {
    for (at, row) in rows.iter().enumerate() {
        assert!(rt; answers(rt, world, row), "{name}, at row {at}");
    }
}

const OVER_A_PAGE: &[Row] = &[
    (Ask::Get(8192), Want::Id(0)),
    (Ask::At(0), Want::Addr(0x40000000)),
    (Ask::Store(0x40000ffe, &[1, 2, 3, 4]), Want::Done),
    (Ask::Load(0x40000ffd, 6), Want::Bytes(&[0, 1, 2, 3, 4, 0])),
    (Ask::Get(4096), Want::Id(1)),
    (Ask::Exit, Want::Done),
    (Ask::Exit, Want::Refused(Errno::Esrch)),
];

const SEEN_TWICE: &[Row] = &[
    (Ask::Get(4096), Want::Id(0)),
    (Ask::At(0), Want::Addr(0x40000000)),
    (Ask::At(0), Want::Addr(0x40001000)),
    (Ask::Store(0x40000ffe, &[1, 2, 3, 4]), Want::Done),
    (Ask::Load(0x40000000, 2), Want::Bytes(&[3, 4])),
    (Ask::Load(0x40001ffe, 2), Want::Bytes(&[1, 2])),
];

const SIZES: &[Row] = &[
    (Ask::Get(8193), Want::Refused(Errno::Einval)),
    (Ask::Get(0), Want::Refused(Errno::Einval)),
    (Ask::Get(8192), Want::Id(0)),
];

/// A name, the SHMMAX of a world, its calls, and how many events it has after them.
type Trial = (&'static str, u64, &'static [Row], usize);

const TRIALS: &[Trial] = &[
    ("across a page", 65536, OVER_A_PAGE, 7),
    ("one page twice", 65536, SEEN_TWICE, 6),
    ("sizes", 8192, SIZES, 3),
];

fn has_events(rt: &impl Abort, world: &mut World<RamPager>, trial: &Trial) {
    let (name, _, rows, events) = *trial;
    answers_all(rt, world, name, rows);
    assert!(rt; world.history().len() == events, "{name}");
}

#[test]
fn calls_are_answered_as_stated(rt: HostRuntime) -> Result<(), Fail> {
    for trial in TRIALS {
        has_events(&rt, &mut world(rt.alloc(), trial.1)?, trial);
    }
    Ok(())
}

fn steps_of(alloc: Global, rows: &[Row]) -> Result<Vec<Step>, Fail> {
    let mut steps = Vec::new(alloc);
    for row in rows {
        steps.push(Step::Call(1, call_of(&row.0).ok_or("a call")?))?;
    }
    Ok(steps)
}

// The history has exactly the calls' replies.
fn has_replies(rt: &impl Abort, world: &World<RamPager>, rows: &[Row]) {
    let history = world.history();
    assert_eq!(rt; history.len(), rows.len());
    for (at, row) in rows.iter().enumerate() {
        let reply = history[at].reply;
        assert!(rt; reply_of(&row.1) == Some(reply), "at row {at}");
    }
}

fn runs_steps(rt: &impl Abort, world: &mut World<RamPager>, steps: &[Step]) {
    assert!(rt; world.reserve(3).is_ok());
    assert!(rt; world.room() >= 3);
    assert!(rt; world.run_steps(steps).is_ok());
    has_replies(rt, world, SIZES);
    assert_eq!(rt; world.opening().areas.len(), 1);
}

#[test]
fn steps_with_room(rt: HostRuntime) -> Result<(), Fail> {
    let steps = steps_of(rt.alloc(), SIZES)?;
    runs_steps(&rt, &mut world(rt.alloc(), 8192)?, &steps);
    Ok(())
}

const TWO_STORES: &[Row] = &[
    (Ask::Get(8192), Want::Id(0)),
    (Ask::At(0), Want::Addr(0x40000000)),
    (Ask::Store(0x40000000, &[1]), Want::Done),
    (Ask::Store(0x40001000, &[2]), Want::Done),
];

fn makes_a_round(rt: &impl Abort, world: &mut World<RamPager>, steps: &[Step]) {
    assert!(rt; world.run_steps(steps).is_ok());
    let tally = world.tally();
    assert_eq!(rt; (tally.events, tally.dirty, tally.outs), (4, 1, 1));
    has_replies(rt, world, TWO_STORES);
}

/// The round writes one of the two pages, and the calls none.
#[test]
fn a_round_among_steps(rt: HostRuntime) -> Result<(), Fail> {
    let mut steps = steps_of(rt.alloc(), TWO_STORES)?;
    steps.push(Step::Flush(1))?;
    makes_a_round(&rt, &mut world(rt.alloc(), 8192)?, &steps);
    Ok(())
}

const UP_TO_THE_LAST_COUNT: &[Row] = &[
    (Ask::Get(12288), Want::Id(0)),
    (Ask::At(0), Want::Addr(0x40000000)),
    (Ask::Store(0x40000000, &[0x2a]), Want::Done),
    (Ask::Load(0x40001000, 1), Want::Bytes(&[0])),
    (Ask::Load(0x40002000, 1), Want::Refused(Errno::Sigbus)),
    (Ask::Load(0x40000000, 1), Want::Bytes(&[0x2a])),
    (Ask::Load(0x40002000, 1), Want::Bytes(&[0])),
    (Ask::Load(0x40001000, 1), Want::Refused(Errno::Sigbus)),
    (Ask::Load(0x40001000, 1), Want::Bytes(&[0])),
];

// An area whose first write fails, and which can count only this one failure.
fn almost_spent(alloc: Global) -> Result<FusePager<RamPager>, Fail> {
    let writes = vec![in alloc; 1]?;
    let ram = RamPager::new(alloc, 64)?;
    Ok(FusePager::new_at(ram, Vec::new(alloc), writes, 18446744073709551614))
}

fn over_almost_spent(alloc: Global) -> Result<World<FusePager<RamPager>>, Fail> {
    let limits = Limits::new(65536, 16, 64, 2, 0).ok().ok_or("they hold")?;
    opened(alloc, limits, vec![in alloc; almost_spent(alloc)?]?)
}

const SPENT: Tally = Tally {
    events: 9,
    segments: 1,
    reserved: 3,
    locked: 0,
    frames: 2,
    resident: 2,
    dirty: 1,
    slots: 64,
    used: 1,
    ins: 0,
    outs: 0,
    failures: 1,
};

fn spends<P: Pager>(rt: &impl Abort, world: &mut World<P>) {
    answers_all(rt, world, "up to the last count", UP_TO_THE_LAST_COUNT);
    assert!(rt; world.tally() == SPENT);
}

/// The first write counts the last failure that can be counted. Then the area is spent: the next page-out
/// chooses it, and fails without a call of its pager.
#[test]
fn a_spent_area(rt: HostRuntime) -> Result<(), Fail> {
    spends(&rt, &mut over_almost_spent(rt.alloc())?);
    Ok(())
}

const TWO_PAGES: &[Row] = &[
    (Ask::Get(8192), Want::Id(0)),
    (Ask::At(0), Want::Addr(0x40000000)),
    (Ask::Store(0x40000ffe, &[1, 2, 3, 4]), Want::Done),
    (Ask::Load(0x40000ffd, 6), Want::Bytes(&[0, 1, 2, 3, 4, 0])),
];

fn counts(events: u64, resident: u64, dirty: u64, used: u64) -> Reading {
    Reading {
        events,
        resident,
        dirty,
        used,
    }
}

fn is_published<R: Wait>(rt: &R, world: &World<RamPager>, keeper: &mut Keeper) -> bool {
    world.publish(rt, keeper)
}

fn publishes<R: Abort + Wait>(
    rt: &R,
    world: &mut World<RamPager>,
    empty: &World<RamPager>,
    gauge: &Gauge,
    keeper: &mut Keeper,
    seat: &mut ReaderSeat,
)
    requires { seat.old.cell ≡ gauge.now }
{
    answers_all(rt, world, "two pages", TWO_PAGES);
    // nothing is published yet
    assert_eq!(rt; gauge.read(rt, seat), counts(0, 0, 0, 0));
    assert!(rt; is_published(rt, world, keeper));
    assert_eq!(rt; gauge.read(rt, seat), counts(4, 2, 2, 0));
    world.flush(2);
    assert!(rt; is_published(rt, world, keeper));
    assert_eq!(rt; gauge.read(rt, seat), counts(4, 2, 0, 2));
    // a world with fewer events is not published
    assert!(rt; !is_published(rt, empty, keeper));
    assert_eq!(rt; gauge.read(rt, seat), counts(4, 2, 0, 2));
}

fn shows_what_is_published<R: Abort + Wait>(
    rt: &R,
    alloc: Global,
    world: &mut World<RamPager>,
    empty: &World<RamPager>,
) -> Result<(), Fail> {
    let (gauge, mut keeper, mut seat) = gauge(rt, alloc, world)?;
    publishes(rt, world, empty, &gauge, &mut keeper, &mut seat);
    Ok(())
}

// The same with a world without events.
fn shows_beside<R: Abort + Wait>(
    rt: &R,
    alloc: Global,
    empty: &World<RamPager>,
) -> Result<(), Fail> {
    shows_what_is_published(rt, alloc, &mut world(alloc, 65536)?, empty)
}

#[test]
fn a_gauge_shows_what_is_published(rt: HostRuntime) -> Result<(), Fail> {
    shows_beside(&rt, rt.alloc(), &world(rt.alloc(), 65536)?)
}

fn shows_the_world<R: Abort + Wait>(
    rt: &R,
    alloc: Global,
    world: &mut World<RamPager>,
) -> Result<(), Fail> {
    answers_all(rt, world, "two pages", TWO_PAGES);
    let (gauge, _keeper, mut seat) = gauge(rt, alloc, world)?;
    assert_eq!(rt; gauge.read(rt, &mut seat), counts(4, 2, 2, 0));
    Ok(())
}

#[test]
fn a_new_gauge_shows_its_world(rt: HostRuntime) -> Result<(), Fail> {
    shows_the_world(&rt, rt.alloc(), &mut world(rt.alloc(), 65536)?)
}

// A world with this many frames and this SHMALL.
fn large(alloc: Global, frames: u64, shmall: u64) -> Result<World<RamPager>, Fail> {
    let sizes = Sizes {
        shmmax: 65536,
        shmmni: 16,
        shmall,
        frames,
        memlock: 1,
        most_pieces: 8,
        most_processes: 1,
        most_slots: 64,
        rules: Rules::PROFILE,
    };
    let limits = Limits::of(&sizes).ok().ok_or("the limits hold")?;
    opened(alloc, limits, vec![in alloc; RamPager::new(alloc, 64)?]?)
}

fn has_gauge<R: Abort + Wait>(
    rt: &R,
    alloc: Global,
    frames: u64,
    shmall: u64,
) -> Result<bool, Fail> {
    match gauge(rt, alloc, &large(alloc, frames, shmall)?) {
        Ok(_) => Ok(true),
        Err(GaugeRefused::Limits) => Ok(false),
        Err(GaugeRefused::HostMemory) => Err("there is memory")?,
    }
}

#[test]
fn only_a_world_of_the_profile_has_a_gauge(rt: HostRuntime) -> Result<(), Fail> {
    let alloc = rt.alloc();
    assert!(rt; has_gauge(&rt, alloc, 4096, 65536)?);
    assert!(rt; !has_gauge(&rt, alloc, 4097, 65536)?);
    assert!(rt; !has_gauge(&rt, alloc, 4096, 65537)?);
    Ok(())
}

//! The structs that C and the library exchange.
ghost use Rattle.std.specs.Prelude.{◌≡◌};
ghost use Rattle.shm_areas.specs.Arranged.{bare};
ghost use Rattle.nogcuvema.specs.Shown.{shown_by, tally_by, report_by, sums_by, piece_shown, process_shown};
ghost use Rattle.nogcuvema.specs.Lending.{frame_by};
ghost use Rattle.nogcuvema.specs.Lookups.{numbers_by};
ghost use Rattle.shm_attach.specs.Views.{life_view};

use bitflags::Flags;
use shm_areas::Piece;
use shm_attach::Life;
use shm_base::{Cred, FlushReport, Limits, ShmidDs, Tally};
use shm_fault::FrameInfo;
use shm_life::ShmInfo;

/// The limits of a machine. If the three that begin with `most_` are 0, they are the profile's (256 pieces,
/// 64 processes, 65536 slots), and the first five have the profile's ranges. Otherwise all eight have the
/// ranges of [`Limits::of`](shm_base::Limits::of). `rules` has the bits of [`Rules`](shm_base::Rules).
#[repr(C)]
#[derive(Clone, Copy)]
pub struct NogLimits {
    pub shmmax: u64,
    pub shmmni: u64,
    pub shmall: u64,
    pub frames: u64,
    pub memlock: u64,
    pub most_pieces: u64,
    pub most_processes: u64,
    pub most_slots: u64,
    pub rules: u64,
}

impl NogLimits {
    pub(crate) fn of(limits: &Limits) -> NogLimits
        ensures { numbers_by result ≡ limits.now }
    {
        NogLimits {
            shmmax: limits.shmmax(),
            shmmni: limits.shmmni(),
            shmall: limits.shmall(),
            frames: limits.frames(),
            memlock: limits.memlock(),
            most_pieces: u64::from(limits.most_pieces()),
            most_processes: u64::from(limits.most_processes()),
            most_slots: u64::from(limits.most_slots()),
            rules: u64::from(limits.rules().bits()),
        }
    }
}

/// A swap area: its kind (1 ram, 2 sparse, 3 mirror) and its number of slots; of a mirror, the slots of each
/// side.
#[repr(C)]
#[derive(Clone, Copy)]
pub struct NogArea {
    pub kind: u32,
    pub slots: u32,
}

/// A call of a side of an area that fails: its `call`-th read, or its `call`-th write if `is_write` is not 0.
/// Calls count from 1, areas from 0. Side 0 is the area, or a mirror's left side; side 1 is a mirror's right
/// side.
#[repr(C)]
#[derive(Clone, Copy)]
pub struct NogFailure {
    pub area: u32,
    pub side: u32,
    pub is_write: u32,
    pub unused: u32,
    pub call: u64,
}

/// A process. If `is_born` is 0 it is a child to be forked, and `uid` and `gid` are ignored.
#[repr(C)]
#[derive(Clone, Copy)]
pub struct NogProcess {
    pub pid: u32,
    pub is_born: u32,
    pub uid: u32,
    pub gid: u32,
}

impl NogProcess {
    pub(crate) fn of(pid: u32, life: &Life) -> NogProcess
        ensures { result ≡ process_shown pid (life_view life.now) }
    {
        let (is_born, cred) = match life {
            Life::Unborn => (0, Cred { uid: 0, gid: 0 }),
            Life::Live(cred) => (1, *cred),
            Life::Ended => (2, Cred { uid: 0, gid: 0 }),
        };
        NogProcess {
            pid,
            is_born,
            uid: cred.uid,
            gid: cred.gid,
        }
    }
}

/// What `stat` shows of a segment (shmctl(2), IPC_STAT), with its identifier and its index in the table. A
/// time is the place of a call in the history, counted from 1, or the time that the host gave; 0 means never.
/// In `status`, 512 means marked for removal, and 1024 locked.
#[repr(C)]
#[derive(Clone, Copy)]
pub struct NogSegment {
    pub size: u64,
    pub atime: u64,
    pub dtime: u64,
    pub ctime: u64,
    pub id: i32,
    pub key: u32,
    pub uid: u32,
    pub gid: u32,
    pub cuid: u32,
    pub cgid: u32,
    pub mode: u32,
    pub status: u32,
    pub cpid: u32,
    pub lpid: u32,
    pub nattch: u32,
    pub index: u32,
}

impl NogSegment {
    pub(crate) fn of(id: i32, index: u32, shown: &ShmidDs) -> NogSegment
        ensures shown { shown_by result ≡ shown.now }
        ensures id { result.id ≡ id }
        ensures index { result.index ≡ index }
    {
        NogSegment {
            size: shown.size,
            atime: shown.atime,
            dtime: shown.dtime,
            ctime: shown.ctime,
            id,
            key: shown.key,
            uid: shown.perm.uid,
            gid: shown.perm.gid,
            cuid: shown.perm.cuid,
            cgid: shown.perm.cgid,
            mode: u32::from(shown.perm.mode),
            status: u32::from(shown.status.bits()),
            cpid: shown.cpid,
            lpid: shown.lpid,
            nattch: shown.nattch,
            index,
        }
    }
}

/// The counts of a machine.
#[repr(C)]
#[derive(Clone, Copy)]
pub struct NogTally {
    pub events: u64,
    pub segments: u64,
    pub reserved: u64,
    pub locked: u64,
    pub frames: u64,
    pub resident: u64,
    pub dirty: u64,
    pub slots: u64,
    pub used: u64,
    pub ins: u64,
    pub outs: u64,
    pub failures: u64,
}

impl NogTally {
    pub(crate) fn of(tally: &Tally) -> NogTally
        ensures { tally_by result ≡ tally.now }
    {
        NogTally {
            events: tally.events,
            segments: tally.segments,
            reserved: tally.reserved,
            locked: tally.locked,
            frames: tally.frames,
            resident: tally.resident,
            dirty: tally.dirty,
            slots: tally.slots,
            used: tally.used,
            ins: tally.ins,
            outs: tally.outs,
            failures: tally.failures,
        }
    }
}

/// What a flush round did: pages that it wrote, and writes that failed.
#[repr(C)]
#[derive(Clone, Copy)]
pub struct NogFlushed {
    pub written: u64,
    pub failed: u64,
}

impl NogFlushed {
    pub(crate) fn of(report: &FlushReport) -> NogFlushed
        ensures { report_by result ≡ report.now }
    {
        NogFlushed {
            written: report.written,
            failed: report.failed,
        }
    }
}

/// Sums over all segments, and the highest index that has one (shmctl(2), SHM_INFO).
#[repr(C)]
#[derive(Clone, Copy)]
pub struct NogUsage {
    pub used_ids: u64,
    pub pages: u64,
    pub resident: u64,
    pub swapped: u64,
    pub highest: u64,
}

impl NogUsage {
    pub(crate) fn of(info: &ShmInfo, highest: u32) -> NogUsage
        ensures sums { sums_by result ≡ info.now }
        ensures highest { result.highest ≡ highest }
    {
        NogUsage {
            used_ids: info.used_ids,
            pages: info.pages,
            resident: info.resident,
            swapped: info.swapped,
            highest: u64::from(highest),
        }
    }
}

/// A piece of a process: pages of a segment from `first_page` on, at `base`. If `may_write` is 0, it can't
/// become writable.
#[repr(C)]
#[derive(Clone, Copy)]
pub struct NogPiece {
    pub base: u64,
    pub segment: u32,
    pub first_page: u32,
    pub pages: u32,
    pub is_writable: u32,
    pub may_write: u32,
    pub unused: u32,
}

impl NogPiece {
    pub(crate) fn of(piece: &Piece) -> NogPiece
        ensures { result ≡ piece_shown (bare piece.now) }
    {
        NogPiece {
            base: piece.base,
            segment: piece.seg,
            first_page: piece.first_page,
            pages: piece.pages,
            is_writable: u32::from(piece.writable),
            may_write: u32::from(piece.may_write),
            unused: 0,
        }
    }
}

/// A frame with a page of a segment, whether that is referenced, dirty and on loan, and whether its segment is
/// locked.
#[repr(C)]
#[derive(Clone, Copy)]
pub struct NogFrame {
    pub id: i32,
    pub page: u32,
    pub is_referenced: u32,
    pub is_dirty: u32,
    pub is_lent: u32,
    pub is_locked: u32,
}

impl NogFrame {
    pub(crate) fn of(id: i32, page: u32, info: &FrameInfo) -> NogFrame
        ensures { result ≡ frame_by id page info.now }
    {
        NogFrame {
            id,
            page,
            is_referenced: u32::from(info.is_referenced),
            is_dirty: u32::from(info.is_dirty),
            is_lent: u32::from(info.is_lent),
            is_locked: u32::from(info.is_locked),
        }
    }
}

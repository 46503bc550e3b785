ghost use Rattle.std.specs.Prelude.{◌≡◌};
ghost use Rattle.shm_base.specs.Index.{index_of};
ghost use Rattle.shm_base.specs.Processes.{has_pid};

use crate::access::{AccessLen, Chunk, Word};
use crate::bounds::INDEXES;
use crate::errno::Errno;
use crate::flags::{AtFlags, GetFlags, Status};
use crate::owner::{Cred, Perm};
use std::alloc::AllocError;

/// An identifier of a segment, as shmget(2) returns it. No segment has a negative one.
pub type ShmId = i32;

/// The index in an identifier; 0 for a negative one, which no segment has.
pub fn index_of(id: ShmId) -> u32
    ensures { result ≡ index_of id }
{
    match u32::try_from(id) {
        Ok(id) => id % INDEXES,
        Err(_) => 0,
    }
}

/// A process as it was declared: live with its ids, or a child that is not born yet.
#[derive(Clone, Copy, Debug, PartialEq, Eq)]
pub struct Process {
    pub pid: u32,
    pub born: Option<Cred>,
}

/// Whether one of the processes has this pid.
pub fn has_pid(processes: &[Process], pid: u32) -> bool
    ensures { result ≡ has_pid pid processes.now }
{
    processes.iter().any(|process| process.pid == pid)
}

/// A call of a process: the shared memory calls (shmget(2), shmop(2), shmctl(2)), accesses to attached
/// memory, munmap(2) and mprotect(2) of it, fork, exec and exit, setuid(2) and swapoff(2).
///
/// An exchange, and a compare and exchange, are locked instructions, as an xadd is: they read and write in
/// one step. A compare and exchange stores the desired bytes only if the bytes there are the expected ones.
/// Only the low nine bits of a mode count. A line of a script has other identifiers and addresses, which may
/// be variables.
#[derive(Copy, Debug, PartialEq, Eq)]
pub enum Call<I = ShmId, A = u64> {
    Shmget {
        key: u32,
        size: u64,
        mode: u16,
        flags: GetFlags,
    },
    Shmat {
        id: I,
        addr: A,
        flags: AtFlags,
    },
    Shmdt {
        addr: A,
    },
    Stat {
        id: I,
    },
    Set {
        id: I,
        uid: u32,
        gid: u32,
        mode: u16,
    },
    Rmid {
        id: I,
    },
    Lock {
        id: I,
    },
    Unlock {
        id: I,
    },
    Load {
        addr: A,
        len: AccessLen,
    },
    // The bytes come first: after the tag, they need no padding.
    Store {
        chunk: Chunk,
        addr: A,
    },
    Xadd {
        addr: A,
        add: u64,
    },
    Exchange {
        chunk: Chunk,
        addr: A,
    },
    CompareExchange {
        expected: Word,
        desired: Word,
        addr: A,
    },
    Fork {
        child: u32,
    },
    Exec,
    Exit,
    Swapoff {
        area: u32,
    },
    Munmap {
        addr: A,
        len: u64,
    },
    Mprotect {
        addr: A,
        len: u64,
        writable: bool,
    },
    Setuid {
        uid: u32,
        gid: u32,
    },
}

impl<I: Copy, A: Copy> Clone for Call<I, A> {
    ghost is_clone = { λ call copy. copy ≡ call };

    fn clone(&self) -> Result<Call<I, A>, AllocError> {
        Ok(*self)
    }
}

/// Where shmat attaches a segment: its identifier, its number of pages, and the address of its first page.
#[derive(Clone, Copy)]
pub struct Placed {
    pub seg: u32,
    pub pages: u32,
    pub base: u64,
}

/// What `stat` shows of a segment (shmctl(2), IPC_STAT). A time is the place of a call in the history,
/// counted from 1, or the time that the host gave; 0 means never.
#[derive(Clone, Copy, Debug, PartialEq, Eq)]
pub struct ShmidDs {
    pub key: u32,
    pub perm: Perm,
    pub status: Status,
    pub cpid: u32,
    pub lpid: u32,
    pub nattch: u32,
    pub size: u64,
    pub atime: u64,
    pub dtime: u64,
    pub ctime: u64,
}

/// The reply to a call: `Id` of shmget, `Addr` of shmat, `Bytes` of a load, the old bytes as `Bytes` of an
/// exchange and of a compare and exchange, the old number as `Number` of an xadd, `Stat` of stat, `Done` of
/// every other call, or a refusal.
#[derive(Clone, Copy, Debug, PartialEq, Eq)]
pub enum Reply {
    Id(ShmId),
    Addr(u64),
    Bytes(Chunk),
    Number(u64),
    Stat(ShmidDs),
    Done,
    Refused(Errno),
}

/// A call with its process and its reply.
#[derive(Clone, Copy, Debug, PartialEq, Eq)]
pub struct Event {
    pub pid: u32,
    pub call: Call,
    pub reply: Reply,
}

/// One step of a run: a call of a process, or a flush round that writes at most this many pages.
#[derive(Clone, Copy, Debug, PartialEq, Eq)]
pub enum Step {
    Call(u32, Call),
    Flush(u64),
}

//! The head of a segment: all of it but its key and its bytes.
ghost use Rattle.std.specs.Prelude.{◌≡◌, ◌≤◌};
ghost use Rattle.shm_base.specs.declared.bounds.TheConstants.{MOST_SHMALL, MOST_SHMMAX};
ghost use Rattle.shm_base.specs.State as flat;

use shm_base::{Perm, ShmId, pages_of};

/// A segment without its key and its bytes. `locker` is the user who locked it while it is locked, and 0
/// otherwise.
#[derive(Clone, Copy, Debug, PartialEq, Eq)]
pub struct Head {
    pub perm: Perm,
    pub size: u64,
    pub cpid: u32,
    pub lpid: u32,
    pub dest: bool,
    pub locked: bool,
    pub locker: u32,
    pub atime: u64,
    pub dtime: u64,
    pub ctime: u64,
}

/// A live segment: its identifier, its key (0 if it has none), and its head. It is true until the segment
/// changes.
#[derive(Clone, Copy, Debug, PartialEq, Eq)]
pub struct Found {
    pub seg: u32,
    pub id: ShmId,
    pub key: u32,
    pub head: Head,
}

impl Found {
    /// The number of pages of the segment.
    pub fn pages(&self) -> u32
        requires size { self.now.head.size ≤ MOST_SHMMAX }
        ensures value { result ≡ flat.pages_of self.now.head.size }
        ensures few { result ≤ MOST_SHMALL }
    {
        pages_of(self.head.size) as u32
    }
}

//! What ipcs(1) asks of a system: the highest index with a segment, sums over all segments, and the segment
//! at an index as a process may see it. Also the address at which a page-in failed. Nothing here changes the
//! system.
ghost use Rattle.std.specs.Prelude.{◌≡◌};
ghost use Rattle.shm_attach.specs.Failing.{first_absent};
ghost use Rattle.shm_attach.specs.Spans.{pieces_by};
ghost use Rattle.shm_fault.specs.Store.{frame_of};
ghost use Rattle.shm_life.specs.Listed.{IsHighest, Sums, segment_of, stat_at};

use crate::system::System;
use shm_base::{Errno, ShmId, ShmidDs, Want, grants};
use shm_pager_core::Pager;

/// Sums over all segments (SHM_INFO of shmctl(2)). A page has 4,096 bytes.
#[derive(Clone, Copy, Debug, PartialEq, Eq)]
pub struct ShmInfo {
    /// How many segments exist, including those marked for removal.
    pub used_ids: u64,
    /// The pages of all segments (shm_tot).
    pub pages: u64,
    /// Those in frames (shm_rss).
    pub resident: u64,
    /// Those in slots only (shm_swp).
    pub swapped: u64,
}

impl<P: Pager> System<P> {
    /// The highest index that has a segment; 0 if there is none. shmctl(2) returns it for IPC_INFO and
    /// SHM_INFO.
    pub fn highest_index(&self) -> u32
        ensures { IsHighest self.now.machine.table result }
    {
        let mut index = self.indexes();
        while index > 0 {
            index -= 1;
            if self.kernel.segments.at(index).is_some() {
                return index;
            }
        }
        0
    }

    /// Sums over all segments (SHM_INFO). [`System::limits`] has the limits that IPC_INFO shows.
    pub fn info(&self) -> ShmInfo
        ensures { Sums self.now.machine self.now.memory result }
    {
        let pages = self.store().tally();
        ShmInfo {
            used_ids: self.kernel.segments.count(),
            pages: self.kernel.segments.reserved(),
            resident: pages.resident,
            swapped: self.store().swapped() as u64,
        }
    }

    /// The segment at an index, as a process may see it (SHM_STAT).
    ///
    /// - Esrch: the process is not live.
    /// - Einval: the index has no segment.
    /// - Eacces: the process has no read permission. [`System::segment`] does not test that (SHM_STAT_ANY).
    pub fn stat_at(&self, pid: u32, index: u32) -> Result<(ShmId, ShmidDs), Errno>
        ensures { result ≡ stat_at self.now.machine pid index }
    {
        let caller = self.kernel.spaces.caller(pid).ok_or(Errno::Esrch)?;
        let found = self.kernel.segments.at(index).ok_or(Errno::Einval)?;
        let want = Want {
            read: true,
            write: false,
            execute: false,
        };
        if !grants(&caller.cred, &found.head.perm, want) {
            return Err(Errno::Eacces);
        }
        Ok((found.id, self.kernel.shown(&found)))
    }

    /// The segment of an identifier, as `stat` shows it, without a permission test.
    ///
    /// - Eidrm: the segment was destroyed, whatever the machine's rules are.
    /// - Einval: no segment ever had the identifier.
    pub fn segment_of(&self, id: ShmId) -> Result<ShmidDs, Errno>
        ensures { result ≡ segment_of self.now.machine id }
    {
        let found = self.kernel.segments.look(id)?;
        Ok(self.kernel.shown(&found))
    }

    /// The first address of a process's access whose page is in no frame, if all addresses below it are in
    /// pieces. Right after a Sigbus, this is the address that it is about.
    pub fn absent_at(&self, pid: u32, addr: u64, len: u64) -> Option<u64>
        ensures { let pieces = pieces_by pid self.now.machine.runners in
            result ≡ first_absent (frame_of self.now.memory) pieces addr len }
    {
        self.kernel.spaces.absent_at(pid, addr, len)
    }
}

//! The processes in order.
ghost use Rattle.std.specs.Prelude.{◌≡◌, length, option_map, slice_get};
ghost use Rattle.shm_attach.specs.Guest.{listed, listed_view};

use crate::process::Listed;
use crate::spaces::Spaces;

impl Spaces {
    /// The number of processes, live or not.
    pub fn process_count(&self) -> u32
        ensures { result ≡ length self.now.runners }
    {
        self.processes.len() as u32
    }

    /// The process at an index, from 0. When a process is dismissed, the last one takes its index.
    pub fn process_at(&self, index: u32) -> Option<Listed>
        ensures { option_map listed_view result ≡ option_map listed (slice_get self.now.runners index) }
    {
        let (pid, runner) = self.processes.get_index(index as usize)?;
        Some(Listed {
            pid: *pid,
            life: runner.life,
        })
    }
}

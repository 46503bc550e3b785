//! A copy of the processes.
ghost use Rattle.std.specs.Prelude.{◌≡◌, IfOk};

use crate::spaces::Spaces;
use shm_base::HostMemory;

impl Spaces {
    /// A copy of the processes, each with room for its most pieces. HostMemory: the host refused memory.
    pub fn try_clone(&self) -> Result<Spaces, HostMemory>
        ensures { IfOk result (λ copy. copy ≡ self.now) }
    {
        Ok(Spaces {
            processes: self.processes.clone()?,
            tables: self.tables.try_clone()?,
            lost: self.lost.try_clone()?,
            most: self.most,
            last: self.last,
        })
    }
}

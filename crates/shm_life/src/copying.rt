//! Snapshots: copies of a machine in its present state.
ghost use Rattle.std.specs.Prelude.{◌≡◌, IfOk};

use crate::kernel::Kernel;
use crate::system::{Opening, System};
use shm_base::HostMemory;
use shm_pager_core::ClonePager;

impl Opening {
    fn try_clone(&self) -> Result<Opening, HostMemory>
        ensures { IfOk result (λ copy. copy ≡ self.now) }
    {
        Ok(Opening {
            limits: self.limits,
            areas: Vec::from_slice(*self.areas.allocator(), &self.areas)?,
            processes: Vec::from_slice(*self.processes.allocator(), &self.processes)?,
        })
    }
}

impl<P: ClonePager> Kernel<P> {
    fn try_clone(&self) -> Result<Kernel<P>, HostMemory>
        ensures { IfOk result (λ copy. copy ≡ self.now) }
    {
        Ok(Kernel {
            limits: self.limits,
            segments: self.segments.try_clone()?,
            spaces: self.spaces.try_clone()?,
            host_ranges: Vec::from_slice(*self.host_ranges.allocator(), &self.host_ranges)?,
        })
    }
}

impl<P: ClonePager> System<P> {
    /// A snapshot: another system with the same state, frames, slots and counts. Its swap areas have the same
    /// pages, and the same of their reads and writes will fail. Afterwards the two are independent. The copy
    /// reserves all memory that this system has reserved, so the same calls take no memory. HostMemory: the
    /// host refused memory, and nothing is left over.
    pub fn try_clone(&self) -> Result<System<P>, HostMemory>
        ensures { IfOk result (λ copy. copy ≡ self.now) }
    {
        Ok(System {
            opening: self.opening.try_clone()?,
            calls: self.calls,
            clock: self.clock,
            changes: self.changes,
            kernel: self.kernel.try_clone()?,
        })
    }
}

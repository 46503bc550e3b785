//! What a system lends to be read: its memory, and the pieces of its processes.
ghost use Rattle.std.specs.Prelude.{◌≡◌};
ghost use Rattle.shm_life.specs.MachineView.{IsExactly};

use crate::system::System;
use shm_attach::Spaces;
use shm_fault::PageStore;
use shm_pager_core::Pager;

impl<P: Pager> System<P> {
    /// The pages of the segments in frames and swap areas. They always show the machine exactly.
    pub fn store(&self) -> &PageStore<P>
        ensures value { result.now ≡ self.now.memory }
        ensures exact { IsExactly self.now.machine self.now.memory }
    {
        let kernel = &self.kernel;
        kernel.segments.store()
    }

    /// The processes, each with its address space.
    pub fn spaces(&self) -> &Spaces
        ensures { result.now.runners ≡ self.now.machine.runners }
    {
        &self.kernel.spaces
    }
}

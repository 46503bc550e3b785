//! Copies within a machine.
ghost use Rattle.std.specs.Prelude.{IfOk, OnErr, replicate, ◌≡◌};
ghost use Rattle.shm_machine.specs.Stretched.{CopiedTo};

use crate::machine::Machine;
use crate::stretch::Progress;
use shm_base::HostMemory;
use std::alloc::{AllocError, Global};

// Zeros, with which a buffer is filled part by part.
const ZEROS: [u8; 1024] = [0; 1024];

// A buffer of zeros.
fn zeros(alloc: Global, len: usize) -> Result<Vec<u8>, AllocError>
    ensures { IfOk result (λ v. v.items ≡ replicate len 0) }
{
    let part = &ZEROS;
    let mut bytes = Vec::with_capacity(alloc, len)?;
    while bytes.len() < len {
        let more = (len - bytes.len()).min(part.len());
        bytes.extend_from_slice(&part[..more])?;
    }
    Ok(bytes)
}

impl Machine {
    /// Copies attached memory of one process to that of another, or of the same one. It makes one load of all
    /// bytes that can be read, and then one store of them, so the ranges may overlap. If both stop early, the
    /// result names what stopped the store. A buffer holds the bytes between the two. HostMemory: the host
    /// refused memory for it, and nothing was read.
    pub fn copy(
        &mut self,
        alloc: Global,
        from: (u32, u64),
        to: (u32, u64),
        len: usize,
    ) -> Result<Progress, HostMemory>
        ensures ok { IfOk result (λ p. CopiedTo self.old.system from to len p self.new.system) }
        ensures err { OnErr result (self.new ≡ self.old) }
    {
        let mut bytes = zeros(alloc, len)?;
        let read = self.read(from.0, from.1, &mut bytes);
        let written = self.write(to.0, to.1, &bytes[..read.done]);
        Ok(Progress {
            done: written.done,
            stopped: written.stopped.or(read.stopped),
        })
    }
}

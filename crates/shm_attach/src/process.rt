//! A process with its address space.
ghost use Rattle.std.specs.Prelude.{◌≡◌};

use shm_areas::Space;
use shm_base::Cred;
use std::alloc::AllocError;

/// A process is declared, is born with its credentials at once or later as a child, and ends once.
#[derive(Clone, Copy, Debug, PartialEq, Eq)]
pub enum Life {
    Unborn,
    Live(Cred),
    Ended,
}

pub(crate) struct Runner {
    pub(crate) life: Life,
    pub(crate) space: Space,
}

impl Drop for Runner {
    fn drop(self) {
        let Runner { life: _, space: _ } = self;
    }
}

impl Clone for Runner {
    ghost is_clone = { λ runner copy. copy ≡ runner };

    fn clone(&self) -> Result<Runner, AllocError> {
        Ok(Runner {
            life: self.life,
            space: self.space.clone()?,
        })
    }
}

/// A process as a listing shows it.
#[derive(Clone, Copy, Debug, PartialEq, Eq)]
pub struct Listed {
    pub pid: u32,
    pub life: Life,
}

/// A child that was declared and is not born yet, by its index among the processes.
#[derive(Clone, Copy, Debug, PartialEq, Eq)]
pub struct Child {
    pub index: usize,
    pub pid: u32,
}

/// A live process: its index among the processes, from 0 in the order of their declaration, and its
/// credentials. Valid until the process ends.
#[derive(Clone, Copy, Debug, PartialEq, Eq)]
pub struct Caller {
    pub index: usize,
    pub pid: u32,
    pub cred: Cred,
}

use std::alloc::{AllocError, AllocFailed};
use thiserror::Error;

/// The host refused memory that a call needed. The call changed nothing.
#[derive(Clone, Copy, Debug, PartialEq, Eq, Error)]
#[error("out of memory")]
pub struct HostMemory;

impl From<AllocError> for HostMemory {
    fn from(_e: AllocError) -> HostMemory {
        HostMemory
    }
}

impl<T: Drop> From<AllocFailed<T>> for HostMemory {
    fn from(_e: AllocFailed<T>) -> HostMemory {
        HostMemory
    }
}

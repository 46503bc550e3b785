//! Why a search over schedules has no answer.
ghost use Rattle.std.specs.Prelude.{◌≡◌};
ghost use Rattle.shm_schedules.specs.declared.search_error.SearchError.TheVariants as errors;

use std::alloc::{AllocError, AllocFailed};

/// Why a search has no answer.
#[derive(Clone, Copy, Debug, PartialEq, Eq)]
pub enum SearchError {
    /// The host refused memory.
    HostMemory,
    /// There are more prefixes of schedules than the bound, of which no two are equivalent.
    Bound,
}

impl From<shm_base::HostMemory> for SearchError {
    ghost from_gives = { λ _ r. r ≡ errors.HostMemory };

    fn from(_refused: shm_base::HostMemory) -> SearchError {
        SearchError::HostMemory
    }
}

impl From<AllocError> for SearchError {
    ghost from_gives = { λ _ r. r ≡ errors.HostMemory };

    fn from(_refused: AllocError) -> SearchError {
        SearchError::HostMemory
    }
}

impl<T: Drop> From<AllocFailed<T>> for SearchError {
    ghost from_gives = { λ _ r. r ≡ errors.HostMemory };

    fn from(_refused: AllocFailed<T>) -> SearchError {
        SearchError::HostMemory
    }
}

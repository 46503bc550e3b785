use shm_base::Errno;
use thiserror::Error;

/// Why a call was not done. `Refused`: the flat machine refuses it, or a pager failed. `HostMemory`: the host
/// refused memory for a call that the flat machine does not refuse; the call is not counted. `Spent`: the
/// call counter is at its maximum, 2^64 - 1, so the machine makes no more calls. `Lent`: the call touches a
/// page on loan, or needs a frame that only a page on loan could leave; the call is not counted.
#[derive(Clone, Copy, Debug, PartialEq, Eq, Error)]
pub enum Refusal {
    #[error("refused: {0}")]
    Refused(Errno),
    #[error("out of memory")]
    HostMemory,
    #[error("no more calls can be counted")]
    Spent,
    #[error("a page on loan is in the way")]
    Lent,
}

//! The outcome of a run, or why it has none.
ghost use Rattle.std.specs.Prelude.{◌≡◌, false};
ghost use Rattle.shm_threads.specs.Ends.{comes_before, ended_by, least};

use crate::transcript::Transcript;
use shm_base::HostMemory;
use shm_history::World;
use shm_pager_core::Pager;
use thiserror::Error;

/// The world after a run, and a transcript for each process of the script, in the script's order.
#[derive(Drop)]
pub struct Outcome<P: Pager> {
    pub world: World<P>,
    pub transcripts: Vec<Transcript>,
}

/// Why a run has no outcome. The world is dropped.
///
/// - `HostMemory`: the host refused memory before a worker was started.
/// - `ThreadRefused`: the host refused a thread.
/// - `GateExpired`: the gate ended a thread: the least such pid, 0 for the flusher. So each process with a lesser
///   pid made all its calls. A gate that ends no thread, as `OpenGate`, never causes it.
/// - `HistoryMismatch`: no run ends with it.
///
/// `ThreadRefused` takes precedence over `GateExpired`.
#[derive(Clone, Copy, Debug, PartialEq, Eq, Error)]
pub enum RunError {
    #[error("out of memory")]
    HostMemory,
    #[error("gate expired {pid}")]
    GateExpired { pid: u32 },
    #[error("history mismatch {pid}")]
    HistoryMismatch { pid: u32 },
    #[error("thread refused")]
    ThreadRefused,
}

/// How a run ended whose threads were all started, by the least pid of a thread that the gate ended.
pub(crate) fn ended_by(expired: Option<u32>) -> Result<(), RunError>
    ensures { result ≡ ended_by false expired }
{
    match expired {
        Some(pid) => Err(RunError::GateExpired { pid }),
        None => Ok(()),
    }
}

/// The lesser of two pids, if there are two.
pub(crate) fn least(pid: u32, other: Option<u32>) -> u32
    ensures { result ≡ least pid other }
{
    match other {
        Some(other) => pid.min(other),
        None => pid,
    }
}

/// Whether a thread with this pid comes before the one that the gate ended, if it ended one.
pub(crate) fn comes_before(pid: u32, expired: Option<u32>) -> bool
    ensures { result ≡ comes_before pid expired }
{
    match expired {
        Some(ended) => pid < ended,
        None => true,
    }
}

impl From<HostMemory> for RunError {
    fn from(_refused: HostMemory) -> RunError {
        RunError::HostMemory
    }
}

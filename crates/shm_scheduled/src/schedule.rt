//! Laws of schedules: a run with threads is that of a schedule, and a schedule is a serial run of the lines in its order.
ghost use Rattle.std.specs.Prelude.{◌≡◌, ℕ, List, false};
ghost use Rattle.shm_slots.specs.View.{SwapView};
ghost use Rattle.shm_history.specs.WorldState.{failures_in};
ghost use Rattle.shm_runner.specs.Threaded.{IsThreadedOutput};
ghost use Rattle.shm_outcomes.specs.Masking.{AreMaskedOutcomes};
ghost use Rattle.shm_schedules.specs.Schedules.{start};
ghost use Rattle.shm_outcomes.specs.Search.{AreOutcomes};
ghost use Rattle.shm_scheduled.specs.Scheduled.{AreSerial, IsClear, IsScheduled};

use shm_base::Event;
use shm_pager_core::Pager;
use shm_schedules::Finding;
use shm_text::Script;
use shm_threads::Outcome;

/// The history of a run of the script with threads. If the host refused no memory to a call, and no reply
/// names a pager's failure, the history is that of a schedule of the script, which ends when no process can
/// continue. So `shm_outcomes::outcomes` lists its outcome, and `shm_outcomes::masked_outcomes` lists it
/// without identifiers and addresses. A serial run of the script's lines in the order of the history makes
/// the same history. The same holds of the world whose text `shm_runner::run_threaded` writes, if no call of
/// the run was refused memory.
pub fn scheduled<'a, P: Pager>(outcome: &'a Outcome<P>, script: &Script) -> &'a [Event]
    ensures law { IsClear script.now outcome.now.world outcome.now.transcripts.items
        → IsScheduled script.now outcome.now.world.opening.areas result.now outcome.now.world.machine }
    ensures events { result.now ≡ outcome.now.world.events }
    ensures printed { (swap : SwapView) (areas text : List ℕ)
        → (out : IsThreadedOutput P.failed swap false script.now areas text)
        → failures_in out.world.events ≡ 0
        → IsScheduled script.now areas out.world.events out.world.machine }
{
    outcome.world.history()
}

/// What `shm_outcomes::outcomes` or `shm_outcomes::masked_outcomes` found of the script. A serial run of the script's lines
/// in the order of a finding's schedule has the finding's calls and replies.
pub fn rerun<'a>(found: &'a [Finding], script: &Script) -> &'a [Finding]
    ensures law { (areas : List ℕ) → AreOutcomes script.now (start script.now areas) found.now
        → AreSerial script.now areas result.now }
    ensures masked { (areas : List ℕ) → AreMaskedOutcomes script.now (start script.now areas) found.now
        → AreSerial script.now areas result.now }
    ensures found { result.now ≡ found.now }
{
    found
}

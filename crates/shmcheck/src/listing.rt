//! Listing: every outcome that a script can have.
ghost use Rattle.std.specs.Prelude.{◌≡◌, [], IfErr, IfOk};
ghost use Rattle.shm_schedules.specs.Schedules.{Run};
ghost use Rattle.shm_outcomes.specs.Search.{AreOutcomes};
ghost use Rattle.shmcheck.specs.Answers.{IsAnswer, IsStopIn};
ghost use Rattle.shmcheck.specs.Runs.{one_area};
ghost use Rattle.shmcheck.specs.Printed.{IsTextOf};
ghost use Rattle.shmcheck.specs.Stop.{stop_of};

use crate::command::{Asked, Options};
use crate::machine::open_machine;
use crate::runs::Answer;
use crate::stop::Stop;
use shm_outcomes::{masked_outcomes, outcomes, outcomes_text};
use shm_program::RunFault;
use shm_schedules::{Finding, SearchError};
use shm_text::Script;
use std::alloc::{AllocError, Global};

/// The text of every outcome of a script.
pub(crate) fn list_outcomes(
    alloc: Global,
    script: &Script,
    options: Options,
) -> Result<Answer, Stop>
    ensures ok { let is = IsAnswer (Asked.Outcomes options) [] in
        IfOk result (λ a. is a.status script.now one_area a.text.items) }
    ensures cause { IfErr result (λ s. IsStopIn s (Asked.Outcomes options) [] one_area script.now) }
{
    let machine = open_machine(alloc, script)?;
    let found = match outcomes(alloc, script, machine, options.most) {
        Ok(found) => found,
        Err(error) => return Err(stopped(error, options.most)),
    };
    let text = text_of(alloc, options.masked, script, &found)?;
    Ok(Answer { text, status: 0 })
}

// The text of these outcomes, or of the masked ones.
fn text_of(
    alloc: Global,
    masked: bool,
    script: &Script,
    found: &[Finding],
) -> Result<Vec<u8>, AllocError>
    ensures { IfOk result (λ text. (first : Run) →
        AreOutcomes script.now first found.now → IsTextOf masked script.now first text.items) }
{
    if !masked {
        return outcomes_text(alloc, false, script, found);
    }
    let others = masked_outcomes(alloc, found)?;
    let text = outcomes_text(alloc, true, script, &others)?;
    Ok(text)
}

// Why a search has no result.
pub(crate) fn stopped(error: SearchError, most: u64) -> Stop
    ensures { result ≡ stop_of error most }
{
    match error {
        SearchError::HostMemory => Stop::Fault(RunFault::HostMemory),
        SearchError::Bound => Stop::Bound(most),
    }
}

//! Judging: the verdict on a log of a system's replies to a script.
ghost use Rattle.std.specs.Prelude.{◌≡◌, IfErr, IfOk};
ghost use Rattle.shmcheck.specs.Answers.{IsAnswer, IsStopIn, verdict_status};
ghost use Rattle.shmcheck.specs.Runs.{one_area};
ghost use Rattle.shmcheck.specs.Judged.{doubt_of, is_legal, log_stop};

use crate::command::{Asked, Options};
use crate::machine::open_machine;
use crate::runs::Answer;
use crate::stop::Stop;
use shm_judge::{LogRefused, Verdict, judge_log, log_of, read_log, verdict_text};
use shm_program::RunFault;
use shm_schedules::SearchError;
use shm_text::Script;
use std::alloc::Global;

/// The exit status if no schedule has the log's replies.
const ILLEGAL: u8 = 6;

/// A verdict on a log of a script.
pub(crate) fn judge_script(
    alloc: Global,
    script: &Script,
    options: Options,
    log: &[u8],
) -> Result<Answer, Stop>
    ensures ok { let is = IsAnswer (Asked.Judge options) log.now in
        IfOk result (λ a. is a.status script.now one_area a.text.items) }
    ensures cause { IfErr result (λ s. IsStopIn s (Asked.Judge options) log.now one_area script.now) }
{
    let entries = match read_log(alloc, script, log) {
        Ok(entries) => entries,
        Err(error) => return Err(unread(error)),
    };
    let answered = log_of(alloc, script, &entries)?;
    let machine = open_machine(alloc, script)?;
    let verdict = match judge_log(alloc, script, &answered, &entries, machine, options.most) {
        Ok(verdict) => verdict,
        Err(error) => return Err(doubted(error, options.most)),
    };
    let text = verdict_text(alloc, script, &answered, &verdict)?;
    let status = verdict_status(is_legal(&verdict));
    Ok(Answer { text, status })
}

fn verdict_status(legal: bool) -> u8
    ensures { result ≡ verdict_status legal }
{
    if legal { 0 } else { ILLEGAL }
}

fn is_legal(verdict: &Verdict) -> bool
    ensures { result ≡ is_legal verdict.now }
{
    match verdict {
        Verdict::Legal(_) => true,
        Verdict::Illegal(_) => false,
    }
}

// Why a log was not read.
fn unread(error: LogRefused) -> Stop
    ensures { result ≡ log_stop error }
{
    match error {
        LogRefused::Fault(fault) => Stop::BadLog(fault),
        LogRefused::HostMemory => Stop::Fault(RunFault::HostMemory),
    }
}

// Why there is no verdict.
fn doubted(error: SearchError, most: u64) -> Stop
    ensures { result ≡ doubt_of error most }
{
    match error {
        SearchError::HostMemory => Stop::Fault(RunFault::HostMemory),
        SearchError::Bound => Stop::Doubt(most),
    }
}

//! Questions: whether a schedule of a script meets a condition.
ghost use Rattle.std.specs.Prelude.{◌≡◌, IfErr, IfOk};
ghost use Rattle.shmcheck.specs.Answers.{IsAnswer, IsStopIn};
ghost use Rattle.shmcheck.specs.Runs.{one_area};
ghost use Rattle.shmcheck.specs.Questioned.{AreMet, answer_text, question_status};

use crate::command::{Asked, Options, Wish};
use crate::listing::stopped;
use crate::machine::open_machine;
use crate::runs::Answer;
use crate::stop::Stop;
use shm_conditions::{Condition, read_condition};
use shm_outcomes::{outcomes, outcomes_text};
use shm_schedules::{Finding, put};
use shm_text::Script;
use std::alloc::{AllocError, Global};

/// The exit status if the answer is not as wished.
const UNWISHED: u8 = 6;

/// The answer to a question about a script.
pub(crate) fn answer_question(
    alloc: Global,
    script: &Script,
    wish: Wish,
    options: Options,
    words: &[u8],
) -> Result<Answer, Stop>
    ensures ok { let is = IsAnswer (Asked.Question wish options) words.now in
        IfOk result (λ a. is a.status script.now one_area a.text.items) }
    ensures cause { let asked = Asked.Question wish options in
        IfErr result (λ s. IsStopIn s asked words.now one_area script.now) }
{
    let condition = match read_condition(alloc, script, words)? {
        Ok(condition) => condition,
        Err(fault) => return Err(Stop::BadCondition(fault)),
    };
    let machine = open_machine(alloc, script)?;
    let found = match outcomes(alloc, script, machine, options.most) {
        Ok(found) => found,
        Err(error) => return Err(stopped(error, options.most)),
    };
    let met = first_met(alloc, &found, &condition)?;
    let text = answer_text(alloc, script, &met)?;
    let status = question_status(wish, &met);
    Ok(Answer { text, status })
}

// The first finding that meets the condition; none if no one does.
fn first_met(
    alloc: Global,
    found: &[Finding],
    condition: &Condition,
) -> Result<Vec<Finding>, AllocError>
    ensures { IfOk result (λ met. AreMet condition.now found.now met.items) }
{
    for finding in found {
        if condition.holds(alloc, &finding.outcome)? {
            let mut met = Vec::new(alloc);
            met.push(copied(alloc, finding)?)?;
            return Ok(met);
        }
    }
    Ok(Vec::new(alloc))
}

fn copied(alloc: Global, finding: &Finding) -> Result<Finding, AllocError>
    ensures { IfOk result (λ f. f ≡ finding.now) }
{
    let events = Vec::from_slice(alloc, &finding.events)?;
    let outcome = finding.outcome.copied(alloc)?;
    Ok(Finding { events, outcome })
}

// `no`, or `yes` with the outcome and the schedule of the finding.
fn answer_text(alloc: Global, script: &Script, met: &[Finding]) -> Result<Vec<u8>, AllocError>
    ensures { IfOk result (λ text. text.items ≡ answer_text script.now met.now) }
{
    let mut text = Vec::new(alloc);
    match met {
        [] => put(&mut text, b"no\n")?,
        [_, ..] => {
            put(&mut text, b"yes\n")?;
            let outcome = outcomes_text(alloc, false, script, met)?;
            put(&mut text, &outcome)?;
        }
    }
    Ok(text)
}

fn question_status(wish: Wish, met: &[Finding]) -> u8
    ensures { result ≡ question_status wish met.now }
{
    match (wish, met) {
        (Wish::Exists, []) | (Wish::Forbid, [_, ..]) => UNWISHED,
        (Wish::Exists, [_, ..]) | (Wish::Forbid, []) => 0,
    }
}

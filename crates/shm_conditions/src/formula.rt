//! A condition as a tree.
ghost use Rattle.std.specs.Prelude.{◌≡◌, IfOk};
ghost use Rattle.shm_conditions.specs.Conditions as conditions;
ghost use Rattle.shm_conditions.specs.Conditions.{holds, says};
ghost use Rattle.shm_conditions.specs.Formulas.{bare};

use crate::naming::ProcessLine;
use crate::reply::fits;
use shm_schedules::Replies;
use std::alloc::{AllocError, Global};

// Whether the reply to a line has this word.
fn says(
    alloc: Global,
    lists: &[Replies],
    line: &ProcessLine,
    word: &[u8],
) -> Result<bool, AllocError>
    ensures { IfOk result (λ r. r ≡ says lists.now line.now word.now) }
{
    let replies = match lists.get(line.process) {
        Some(one) => one.replies(),
        None => &[],
    };
    match replies.get(line.line) {
        Some(reply) => fits(alloc, word, reply),
        None => Ok(false),
    }
}

#[derive(Drop)]
pub(crate) enum Formula {
    Says(ProcessLine, Vec<u8>),
    Not(Box<Formula>),
    Both(Box<Formula>, Box<Formula>),
    Either(Box<Formula>, Box<Formula>),
}

impl Formula {
    // Whether it is true of these replies.
    pub(crate) fn holds(&self, alloc: Global, lists: &[Replies]) -> Result<bool, AllocError>
        ensures { IfOk result (λ r. r ≡ holds lists.now (bare self.now)) }
    {
        match self {
            Formula::Says(line, word) => says(alloc, lists, line, word),
            Formula::Not(inner) => {
                let holds = inner.holds(alloc, lists)?;
                Ok(!holds)
            }
            Formula::Both(one, other) => {
                if !one.holds(alloc, lists)? {
                    return Ok(false);
                }
                other.holds(alloc, lists)
            }
            Formula::Either(one, other) => {
                if one.holds(alloc, lists)? {
                    return Ok(true);
                }
                other.holds(alloc, lists)
            }
        }
    }

    pub(crate) fn not(self, alloc: Global) -> Result<Formula, AllocError>
        ensures { IfOk result (λ f. bare f ≡ conditions.Not (bare self)) }
    {
        let inner = Box::new(alloc, self)?;
        Ok(Formula::Not(inner))
    }

    pub(crate) fn and(self, alloc: Global, other: Formula) -> Result<Formula, AllocError>
        ensures { IfOk result (λ f. bare f ≡ conditions.Both (bare self) (bare other)) }
    {
        let one = Box::new(alloc, self)?;
        let other = Box::new(alloc, other)?;
        Ok(Formula::Both(one, other))
    }

    pub(crate) fn or(self, alloc: Global, other: Formula) -> Result<Formula, AllocError>
        ensures { IfOk result (λ f. bare f ≡ conditions.Either (bare self) (bare other)) }
    {
        let one = Box::new(alloc, self)?;
        let other = Box::new(alloc, other)?;
        Ok(Formula::Either(one, other))
    }
}

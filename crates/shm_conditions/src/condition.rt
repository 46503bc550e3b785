//! Conditions over the replies of an outcome.
ghost use Rattle.std.specs.Prelude.{◌≡◌, IfOk, Ok};
ghost use Rattle.shm_conditions.specs.Conditions.{holds};
ghost use Rattle.shm_conditions.specs.Formulas.{bare};
ghost use Rattle.shm_conditions.specs.Reading.{condition_of, no_tree, tree_after, tree_from};

use crate::fault::ConditionFault;
use crate::formula::Formula;
use crate::reading::Tree;
use crate::tokens::{Token, tokens_of};
use shm_schedules::Outcome;
use shm_text::Script;
use std::alloc::{AllocError, Global};
use std::marker::Model;

/// A condition over the replies of an outcome.
#[derive(Drop)]
pub struct Condition {
    formula: Formula,
}

impl Model for Condition {
    ghost use Rattle.shm_conditions.specs.Codes.{condition_code};
    ghost use Rattle.shm_conditions.specs.Conditions.{Condition};
    ghost use Rattle.shm_conditions.specs.Formulas.{bare};

    ghost Value = { Condition };

    ghost coded = { condition_code };

    ghost view = { λ c. bare c.formula };
}

impl Condition {
    pub(crate) fn new(formula: Formula) -> Condition
        ensures { result ≡ bare formula }
    {
        Condition { formula }
    }

    /// Whether it is true of an outcome. AllocError: the host refused memory.
    pub fn holds(&self, alloc: Global, outcome: &Outcome) -> Result<bool, AllocError>
        ensures { IfOk result (λ r. r ≡ holds outcome.now self.now) }
    {
        self.formula.holds(alloc, outcome.replies())
    }
}

/// The condition that a text is about a script, or its first fault. AllocError: the host refused memory.
pub fn read_condition(
    alloc: Global,
    script: &Script,
    text: &[u8],
) -> Result<Result<Condition, ConditionFault>, AllocError>
    ensures { IfOk result (λ r. r ≡ condition_of script.now text.now) }
{
    let tokens = tokens_of(alloc, text)?;
    let tree = match tree_of(alloc, script, &tokens)? {
        Ok(tree) => tree,
        Err(fault) => return Ok(Err(fault)),
    };
    match tree.finish(alloc)? {
        Ok(condition) => Ok(Ok(condition)),
        Err(kind) => {
            let at = text.len() as u64 + 1;
            Ok(Err(ConditionFault { at, kind }))
        }
    }
}

// The tree of these tokens, or the first fault.
fn tree_of(
    alloc: Global,
    script: &Script,
    tokens: &[Token],
) -> Result<Result<Tree, ConditionFault>, AllocError>
    ensures { IfOk result (λ r. r ≡ tree_from script.now (Ok no_tree) tokens.now) }
{
    let mut tree = Ok(Tree::new(alloc));
    for token in tokens {
        tree = tree_after(alloc, script, tree, token)?;
    }
    Ok(tree)
}

// The tree with one more token. A fault stays.
fn tree_after(
    alloc: Global,
    script: &Script,
    tree: Result<Tree, ConditionFault>,
    token: &Token,
) -> Result<Result<Tree, ConditionFault>, AllocError>
    ensures { IfOk result (λ r. r ≡ tree_after script.now tree token.now) }
{
    let tree = match tree {
        Ok(tree) => tree,
        Err(fault) => return Ok(Err(fault)),
    };
    match tree.read(alloc, script, token)? {
        Ok(tree) => Ok(Ok(tree)),
        Err(kind) => Ok(Err(ConditionFault { at: token.at, kind })),
    }
}

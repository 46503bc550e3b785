//! Reads the tokens of a condition into a tree.
ghost use Rattle.std.specs.Prelude.{◌≡◌, reverse, IfOk, None, Some};
ghost use Rattle.shm_conditions.specs.Formulas.{bare};
ghost use Rattle.shm_conditions.specs.Reading.{after_operand, before_operand, closed, finished_with, no_tree, read_by, tree};

use crate::condition::Condition;
use crate::fault::ConditionFaultKind;
use crate::formula::Formula;
use crate::levels::Level;
use crate::naming::{line_in, reply_in};
use crate::tokens::{Mark, Token};
use shm_text::Script;
use std::alloc::{AllocError, Global};
use std::marker::Model;

// The open parentheses around the innermost one, that one, and the operand that was read last, unless one has to follow.
#[derive(Drop)]
pub(crate) struct Tree {
    outer: Vec<Level>,
    level: Level,
    operand: Option<Formula>,
}

impl Model for Tree {
    ghost use Rattle.std.specs.Prelude.{option_map, reverse};
    ghost use Rattle.shm_conditions.specs.Formulas.{bare};
    ghost use Rattle.shm_conditions.specs.Stored.{tree_code};
    ghost use Rattle.shm_conditions.specs.Reading.{Tree};

    ghost Value = { Tree };

    ghost coded = { tree_code };

    ghost view = { λ t. record { outer = reverse t.outer.items; level = t.level; operand = option_map bare t.operand } };
}

impl Tree {
    pub(crate) fn new(alloc: Global) -> Tree
        ensures { result ≡ no_tree }
    {
        Tree {
            outer: Vec::new(alloc),
            level: Level::new(),
            operand: None,
        }
    }

    // The tree with one more token.
    pub(crate) fn read(
        self,
        alloc: Global,
        script: &Script,
        token: &Token,
    ) -> Result<Result<Tree, ConditionFaultKind>, AllocError>
        ensures { IfOk result (λ r. r ≡ read_by script.now self.operand self token.now) }
    {
        let Tree {
            outer,
            level,
            operand,
        } = self;
        match operand {
            None => before_operand(alloc, script, outer, level, token),
            Some(operand) => after_operand(alloc, outer, level, operand, token.mark),
        }
    }

    // The whole condition.
    pub(crate) fn finish(
        self,
        alloc: Global,
    ) -> Result<Result<Condition, ConditionFaultKind>, AllocError>
        ensures { IfOk result (λ r. r ≡ finished_with self.operand self) }
    {
        let Tree {
            outer,
            level,
            operand,
        } = self;
        let Some(operand) = operand else {
            return Ok(Err(ConditionFaultKind::NoOperand));
        };
        if !outer.is_empty() {
            return Ok(Err(ConditionFaultKind::Unclosed));
        }
        let whole = level.any_with(alloc, operand)?;
        Ok(Ok(Condition::new(whole)))
    }
}

// A token that comes before an operand, or is one.
fn before_operand(
    alloc: Global,
    script: &Script,
    mut outer: Vec<Level>,
    level: Level,
    token: &Token,
) -> Result<Result<Tree, ConditionFaultKind>, AllocError>
    ensures { let t = tree (reverse outer.items) level None in
        IfOk result (λ r. r ≡ before_operand script.now t token.now.mark token.now.word) }
{
    match token.mark {
        Mark::Word => {
            let line = match line_in(script, &token.word) {
                Ok(line) => line,
                Err(kind) => return Ok(Err(kind)),
            };
            let word = Vec::from_slice(alloc, reply_in(&token.word))?;
            Ok(Ok(Tree {
                outer,
                level,
                operand: Some(Formula::Says(line, word)),
            }))
        }
        Mark::Not => Ok(Ok(Tree {
            outer,
            level: level.negate(),
            operand: None,
        })),
        Mark::Open => {
            outer.push(level)?;
            Ok(Ok(Tree {
                outer,
                level: Level::new(),
                operand: None,
            }))
        }
        _ => Ok(Err(ConditionFaultKind::NoOperand)),
    }
}

// A token that comes after an operand.
fn after_operand(
    alloc: Global,
    outer: Vec<Level>,
    level: Level,
    operand: Formula,
    mark: Mark,
) -> Result<Result<Tree, ConditionFaultKind>, AllocError>
    ensures { let t = tree (reverse outer.items) level (Some (bare operand)) in
        IfOk result (λ r. r ≡ after_operand t (bare operand) mark) }
{
    match mark {
        Mark::And => {
            let level = level.and_after(alloc, operand)?;
            Ok(Ok(Tree {
                outer,
                level,
                operand: None,
            }))
        }
        Mark::Or => {
            let level = level.or_after(alloc, operand)?;
            Ok(Ok(Tree {
                outer,
                level,
                operand: None,
            }))
        }
        Mark::Close => {
            let whole = level.any_with(alloc, operand)?;
            Ok(closed(outer, whole))
        }
        _ => Ok(Err(ConditionFaultKind::NoOperator)),
    }
}

// A parenthesis is closed, and what is in it is the operand.
fn closed(mut outer: Vec<Level>, whole: Formula) -> Result<Tree, ConditionFaultKind>
    ensures { result ≡ closed (reverse outer.items) (bare whole) }
{
    match outer.pop() {
        None => Err(ConditionFaultKind::Unopened),
        Some(level) => Ok(Tree {
            outer,
            level,
            operand: Some(whole),
        }),
    }
}

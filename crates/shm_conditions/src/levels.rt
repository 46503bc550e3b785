//! What is known inside of an open parenthesis before the next operand.
ghost use Rattle.std.specs.Prelude.{◌≡◌, IfOk, option_map};
ghost use Rattle.shm_conditions.specs.Formulas.{bare};
ghost use Rattle.shm_conditions.specs.Levels.{and_after, any_with, both_with, negate, no_level, or_after, signed};

use crate::formula::Formula;
use std::alloc::{AllocError, Global};
use std::marker::Model;

// The alternatives before the one that is being read, the operands that this one has so far, and whether the next is
// negated.
#[derive(Drop)]
pub(crate) struct Level {
    any: Option<Formula>,
    all: Option<Formula>,
    negated: bool,
}

impl Model for Level {
    ghost use Rattle.std.specs.Prelude.{option_map};
    ghost use Rattle.shm_conditions.specs.Formulas.{bare};
    ghost use Rattle.shm_conditions.specs.Stored.{level_code};
    ghost use Rattle.shm_conditions.specs.Levels.{Level};

    ghost Value = { Level };

    ghost coded = { level_code };

    ghost view = { λ l. record { any = option_map bare l.any; all = option_map bare l.all; negated = l.negated } };
}

impl Level {
    pub(crate) fn new() -> Level
        ensures { result ≡ no_level }
    {
        Level {
            any: None,
            all: None,
            negated: false,
        }
    }

    // The level after `~`.
    pub(crate) fn negate(self) -> Level
        ensures { result ≡ negate self }
    {
        let Level { any, all, negated } = self;
        Level {
            any,
            all,
            negated: !negated,
        }
    }

    // The alternative that ends with this operand.
    fn all_with(
        all: Option<Formula>,
        negated: bool,
        alloc: Global,
        operand: Formula,
    ) -> Result<Formula, AllocError>
        ensures { let last = signed negated (bare operand) in
            IfOk result (λ f. bare f ≡ both_with (option_map bare all) last) }
    {
        let operand = if negated {
            operand.not(alloc)?
        } else {
            operand
        };
        match all {
            None => Ok(operand),
            Some(all) => all.and(alloc, operand),
        }
    }

    // All alternatives, of which the last ends with this operand.
    pub(crate) fn any_with(self, alloc: Global, operand: Formula) -> Result<Formula, AllocError>
        ensures { IfOk result (λ f. bare f ≡ any_with self (bare operand)) }
    {
        let Level { any, all, negated } = self;
        let last = Level::all_with(all, negated, alloc, operand)?;
        match any {
            None => Ok(last),
            Some(any) => any.or(alloc, last),
        }
    }

    // The level after this operand and `/\`.
    pub(crate) fn and_after(self, alloc: Global, operand: Formula) -> Result<Level, AllocError>
        ensures { IfOk result (λ l. l ≡ and_after self (bare operand)) }
    {
        let Level { any, all, negated } = self;
        let all = Level::all_with(all, negated, alloc, operand)?;
        Ok(Level {
            any,
            all: Some(all),
            negated: false,
        })
    }

    // The level after this operand and `\/`.
    pub(crate) fn or_after(self, alloc: Global, operand: Formula) -> Result<Level, AllocError>
        ensures { IfOk result (λ l. l ≡ or_after self (bare operand)) }
    {
        let any = self.any_with(alloc, operand)?;
        Ok(Level {
            any: Some(any),
            all: None,
            negated: false,
        })
    }
}

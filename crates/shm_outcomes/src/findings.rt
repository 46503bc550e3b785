//! The outcomes that a search found, each once, with a run that has it.
ghost use Rattle.std.specs.Prelude.{◌≡◌, ◌↔◌, [], Contains, IfOk, IsTrue, OnOk};
ghost use Rattle.shm_outcomes.specs.Search.{IsInserted, outcomes_in};

use indexmap::IndexMap;
use shm_base::Event;
use shm_schedules::{Finding, Outcome};
use std::alloc::{AllocError, Global};
use std::marker::Model;

#[derive(Drop)]
pub(crate) struct Findings {
    all: IndexMap<Outcome, Vec<Event>>,
}

impl Model for Findings {
    ghost use Rattle.std.specs.Prelude.{List, map};
    ghost use Rattle.shm_schedules.specs.Finding.{Finding};

    ghost Value = { List Finding };

    ghost view = { λ f. map (λ e. record { events = e.1.items; outcome = e.0 }) f.all.entries };
}

impl Findings {
    pub(crate) fn new(alloc: Global) -> Findings
        ensures { result ≡ [] }
    {
        Findings {
            all: IndexMap::new(alloc),
        }
    }

    pub(crate) fn into_all(self, alloc: Global) -> Result<Vec<Finding>, AllocError>
        ensures { IfOk result (λ all. all.items ≡ self) }
    {
        let mut found = Vec::with_capacity(alloc, self.all.len())?;
        for (outcome, events) in self.all {
            found.push(Finding { events, outcome })?;
        }
        Ok(found)
    }

    // Whether the outcome is among them.
    pub(crate) fn has(&self, outcome: &Outcome) -> bool
        ensures { IsTrue result ↔ Contains (outcomes_in self.now) outcome.now }
    {
        self.all.contains_key(outcome)
    }

    // Inserts an outcome with a run that has it, unless it is there.
    pub(crate) fn insert(
        &mut self,
        alloc: Global,
        events: &[Event],
        outcome: Outcome,
    ) -> Result<(), AllocError>
        ensures { OnOk result (
            IsInserted self.old (record { events = events.now; outcome = outcome }) self.new) }
    {
        if self.has(&outcome) {
            return Ok(());
        }
        let events = Vec::from_slice(alloc, events)?;
        self.all.insert(outcome, events)?;
        Ok(())
    }
}

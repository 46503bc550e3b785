//! An outcome with a run that has it.
use crate::outcome::Outcome;
use shm_base::Event;
use std::marker::Model;

/// An outcome, with the calls and replies of a run that has it.
#[derive(Drop)]
pub struct Finding {
    pub events: Vec<Event>,
    pub outcome: Outcome,
}

impl Model for Finding {
    ghost use Rattle.shm_schedules.specs.Finding.{Finding};

    ghost Value = { Finding };

    ghost view = { λ f. record { events = f.events.items; outcome = f.outcome } };
}

//! What a judge finds about a log.
use shm_base::Event;
use std::marker::Model;

/// A run with which a log begins, and the calls by which it can continue, each with the reply that it would
/// get.
#[derive(Drop)]
pub struct Stuck {
    pub events: Vec<Event>,
    pub next: Vec<Event>,
}

impl Model for Stuck {
    ghost use Rattle.shm_judge.specs.Stuck.{Stuck};

    ghost Value = { Stuck };

    ghost view = { λ s. record { events = s.events.items; next = s.next.items } };
}

/// Whether some schedule has the replies of a log: the calls and replies of one; or a longest beginning that
/// some schedule has.
#[derive(Drop)]
pub enum Verdict {
    Legal(Vec<Event>),
    Illegal(Stuck),
}

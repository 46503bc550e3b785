//! The states of one level of a search.
ghost use Rattle.std.specs.Prelude.{◌≡◌, ◌<◌, ◌↔◌, ◌++◌, ◌∷◌, [], ℕ, Contains, IfErr, IfOk, IsTrue, OnOk, length, slice_index_or};
ghost use Rattle.shm_outcomes.specs.Search.{IfBound};
ghost use Rattle.shm_outcomes.specs.Frontier.{IsAdded, IsOneTooMany, Path, state, states_in, empty_frontier, path};

use indexmap::IndexMap;
use shm_schedules::{Outcome, SearchError};
use std::alloc::{AllocError, Global};
use std::marker::Model;

// The replies to each process in a run of a group.
#[derive(Drop, PartialEq, Eq, Hash)]
pub(crate) struct State {
    group: usize,
    replies: Outcome,
}

impl Model for State {
    ghost use Rattle.shm_outcomes.specs.Frontier.{State};

    ghost Value = { State };

    ghost view = { λ m. record { group = m.group; replies = m.replies } };

    ghost inverse = { λ m. record { group = m.group; replies = m.replies } };
}

impl State {
    pub(crate) fn new(group: usize, replies: Outcome) -> State
        ensures { result ≡ state group replies }
    {
        State { group, replies }
    }

    pub(crate) fn group(&self) -> usize
        ensures { result ≡ self.now.group }
    {
        self.group
    }

    pub(crate) fn replies(&self) -> &Outcome
        ensures { result.now ≡ self.now.replies }
    {
        &self.replies
    }
}

// The pids of a run's calls, in order.
#[derive(Drop)]
pub(crate) struct Schedule {
    pids: Vec<u32>,
}

impl Model for Schedule {
    ghost use Rattle.std.specs.Prelude.{List, ℕ};

    ghost Value = { List ℕ };

    ghost view = { λ s. s.pids.items };
}

impl Schedule {
    pub(crate) fn new(alloc: Global) -> Schedule
        ensures { result ≡ [] }
    {
        Schedule {
            pids: Vec::new(alloc),
        }
    }

    pub(crate) fn pids(&self) -> &[u32]
        ensures { result.now ≡ self.now }
    {
        self.pids.as_slice()
    }

    // The schedule with one more call.
    pub(crate) fn with(&self, alloc: Global, pid: u32) -> Result<Schedule, AllocError>
        ensures { IfOk result (λ s. s ≡ self.now ++ pid ∷ []) }
    {
        let mut pids = Vec::with_capacity(alloc, self.pids.len() + 1)?;
        pids.extend_from_slice(&self.pids)?;
        pids.push(pid)?;
        Ok(Schedule { pids })
    }
}

// States, each with a schedule that leads to it, and how many there are with those of fewer calls.
#[derive(Drop)]
pub(crate) struct Frontier {
    paths: IndexMap<State, Schedule>,
    count: u64,
}

impl Model for Frontier {
    ghost use Rattle.std.specs.Prelude.{map};
    ghost use Rattle.shm_outcomes.specs.Frontier.{Frontier, path_in};

    ghost Value = { Frontier };

    ghost view = { λ m. record { paths = map path_in m.paths.entries; count = m.count } };
}

impl Frontier {
    // No states yet. There is room for this number. `count` counts those with fewer calls.
    pub(crate) fn new(alloc: Global, states: usize, count: u64) -> Result<Frontier, AllocError>
        ensures { IfOk result (λ m. m ≡ empty_frontier count) }
    {
        let paths = IndexMap::with_capacity(alloc, states)?;
        Ok(Frontier { paths, count })
    }

    pub(crate) fn len(&self) -> usize
        ensures { result ≡ length self.now.paths }
    {
        self.paths.len()
    }

    pub(crate) fn count(&self) -> u64
        ensures { result ≡ self.now.count }
    {
        self.count
    }

    pub(crate) fn state(&self, index: usize) -> &State
        requires { index < length self.now.paths }
        ensures { (w : Path) → slice_index_or self.now.paths index w ≡ w → result.now ≡ w.state }
    {
        &self.paths.keys().as_slice()[index]
    }

    pub(crate) fn schedule(&self, index: usize) -> &Schedule
        requires { index < length self.now.paths }
        ensures { (w : Path) → slice_index_or self.now.paths index w ≡ w → result.now ≡ w.schedule }
    {
        &self.paths.values().as_slice()[index]
    }

    pub(crate) fn has(&self, state: &State) -> bool
        ensures { IsTrue result ↔ Contains (states_in self.now.paths) state.now }
    {
        self.paths.contains_key(state)
    }

    // Appends a state, unless it is there. `most` bounds all states, including those of fewer calls.
    pub(crate) fn add(
        &mut self,
        most: u64,
        state: State,
        schedule: Schedule,
    ) -> Result<(), SearchError>
        ensures added { OnOk result (IsAdded most (path state schedule) self.old self.new) }
        ensures err { IfErr result (IfBound (IsOneTooMany (path state schedule) self.old most)) }
    {
        if self.has(&state) {
            return Ok(());
        }
        if self.count >= most {
            return Err(SearchError::Bound);
        }
        self.paths.insert(state, schedule)?;
        self.count += 1;
        Ok(())
    }
}

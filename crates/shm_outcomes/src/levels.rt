//! The levels of a breadth-first search: all runs of a script with the same number of calls, as states of groups.
ghost use Rattle.std.specs.Prelude.{◌≡◌, ◌<◌, ◌↔◌, [], Contains, IfErr, IfOk, IsTrue, OnOk, length};
ghost use Rattle.shm_outcomes.specs.Levels.{AreWithin, IsLevelFull, IsNextLevel, first_level};
ghost use Rattle.shm_outcomes.specs.Frontier.{AreAdded, AreExpanded, AreTooMany, IsAdded, IsEndInserted, IsExpanded, IsOneTooMany, IsStopped, Path, empty_frontier, path, path_after, paths_after};
ghost use Rattle.shm_outcomes.specs.Search.{IfBound};
ghost use Rattle.shm_schedules.specs.Schedules.{walked};

use crate::findings::Findings;
use crate::frontier::{Frontier, Schedule, State};
use crate::groups::Groups;
use crate::nodes::Node;
use crate::transitions::{Transition, Transitions, all_transitions};
use shm_base::HostMemory;
use shm_schedules::{Engine, Lists, Outcome, Run, SearchError};
use shm_text::Script;
use std::alloc::Global;
use std::marker::Model;

pub(crate) struct Level<M: Engine> {
    groups: Groups<M>,
    frontier: Frontier,
}

impl<M: Engine> Drop for Level<M> {
    fn drop(self) {
        let Level {
            groups: _,
            frontier: _,
        } = self;
    }
}

impl<M: Engine> Model for Level<M> {
    ghost use Rattle.shm_outcomes.specs.Levels.{Level};

    ghost Value = { Level };

    ghost view = { λ l. record { groups = l.groups; frontier = l.frontier } };
}

impl<M: Engine> Level<M> {
    // The run without calls.
    pub(crate) fn first(
        alloc: Global,
        script: &Script,
        start: &Run<M>,
        most: u64,
    ) -> Result<Level<M>, SearchError>
        ensures ok { IfOk result (λ level. level ≡ first_level script.now start.now) }
        ensures few { OnOk result (0 < most) }
        ensures err { IfErr result (IfBound (most ≡ 0)) }
    {
        let mut groups = Groups::new(alloc, 1)?;
        let node = Node::first(alloc, script, start)?;
        let replies = node.replies().copied(alloc)?;
        let group = groups.put(alloc, script, node)?;
        let mut frontier = Frontier::new(alloc, 1, 0)?;
        frontier.add(most, State::new(group, replies), Schedule::new(alloc))?;
        Ok(Level { groups, frontier })
    }

    // Whether the level has no runs.
    pub(crate) fn is_empty(&self) -> bool
        ensures { IsTrue result ↔ self.now.frontier.paths ≡ [] }
    {
        self.frontier.len() == 0
    }

    // The runs with one call more. The outcomes of those that are over are inserted.
    pub(crate) fn next(
        &self,
        alloc: Global,
        script: &Script,
        start: &Run<M>,
        most: u64,
        lists: &mut Lists,
        found: &mut Findings,
    ) -> Result<Level<M>, SearchError>
        requires within { AreWithin self.now }
        ensures ok { IfOk result (λ next.
            IsNextLevel script.now start.now most self.now next found.old found.new) }
        ensures err { IfErr result (IfBound (
            IsLevelFull script.now start.now self.now found.old most)) }
    {
        let mut groups = Groups::new(alloc, self.groups.all().len())?;
        let transitions = all_transitions(alloc, script, self.groups.all(), lists, &mut groups)?;
        let frontier = self.expand_all(alloc, script, start, most, &transitions, lists, found)?;
        Ok(Level { groups, frontier })
    }

    // The successors of this level's states.
    fn expand_all(
        &self,
        alloc: Global,
        script: &Script,
        start: &Run<M>,
        most: u64,
        transitions: &[Transitions],
        lists: &mut Lists,
        found: &mut Findings,
    ) -> Result<Frontier, SearchError>
        requires within { (w : Path) → Contains self.now.frontier.paths w → w.state.group < length transitions.now }
        ensures ok { IfOk result (λ next. AreExpanded script.now start.now most transitions.now
            self.now.frontier.paths (empty_frontier self.now.frontier.count) next found.old found.new) }
        ensures err { IfErr result (IfBound (IsStopped script.now start.now transitions.now
            self.now.frontier.paths (empty_frontier self.now.frontier.count) found.old most)) }
    {
        let frontier = &self.frontier;
        let mut next = Frontier::new(alloc, frontier.len(), frontier.count())?;
        for index in 0..frontier.len() {
            let state = frontier.state(index);
            let schedule = frontier.schedule(index);
            let own = &transitions[state.group()];
            expand(
                alloc, script, start, most, own, state, schedule, lists, &mut next, found,
            )?;
        }
        Ok(next)
    }
}

// Adds the successors of a state; if it has none, inserts its outcome.
fn expand<M: Engine>(
    alloc: Global,
    script: &Script,
    start: &Run<M>,
    most: u64,
    transitions: &Transitions,
    state: &State,
    schedule: &Schedule,
    lists: &mut Lists,
    next: &mut Frontier,
    found: &mut Findings,
) -> Result<(), SearchError>
    ensures ok { OnOk result (IsExpanded script.now start.now most transitions.now
        (path state.now schedule.now) next.old next.new found.old found.new) }
    ensures err { IfErr result (IfBound (AreTooMany
        (paths_after script.now.processes (path state.now schedule.now) transitions.now) next.old most)) }
{
    if transitions.all().is_empty() {
        insert_end(alloc, script, start, state.replies(), schedule, found)?;
        return Ok(());
    }
    add_paths(
        alloc,
        script,
        most,
        transitions.all(),
        state,
        schedule,
        lists,
        next,
    )?;
    Ok(())
}

// Adds the successors of a state.
fn add_paths(
    alloc: Global,
    script: &Script,
    most: u64,
    transitions: &[Transition],
    state: &State,
    schedule: &Schedule,
    lists: &mut Lists,
    next: &mut Frontier,
) -> Result<(), SearchError>
    ensures ok { OnOk result (AreAdded most
        (paths_after script.now.processes (path state.now schedule.now) transitions.now) next.old next.new) }
    ensures err { IfErr result (IfBound (AreTooMany
        (paths_after script.now.processes (path state.now schedule.now) transitions.now) next.old most)) }
{
    for transition in transitions {
        add_path(
            alloc, script, most, transition, state, schedule, lists, next,
        )?;
    }
    Ok(())
}

// Adds the state after a transition.
fn add_path(
    alloc: Global,
    script: &Script,
    most: u64,
    transition: &Transition,
    state: &State,
    schedule: &Schedule,
    lists: &mut Lists,
    next: &mut Frontier,
) -> Result<(), SearchError>
    ensures ok { OnOk result (IsAdded most
        (path_after script.now.processes (path state.now schedule.now) transition.now) next.old next.new) }
    ensures err { IfErr result (IfBound (IsOneTooMany
        (path_after script.now.processes (path state.now schedule.now) transition.now) next.old most)) }
{
    let replies = state
        .replies()
        .after(alloc, script, &transition.event, lists)?;
    let state = State::new(transition.group, replies);
    if next.has(&state) {
        return Ok(());
    }
    let schedule = schedule.with(alloc, transition.event.pid)?;
    next.add(most, state, schedule)?;
    Ok(())
}

// Inserts the outcome of a run that is over, with the run to which the schedule leads.
fn insert_end<M: Engine>(
    alloc: Global,
    script: &Script,
    start: &Run<M>,
    replies: &Outcome,
    schedule: &Schedule,
    found: &mut Findings,
) -> Result<(), HostMemory>
    ensures { OnOk result (IsEndInserted
        (walked script.now schedule.now start.now) replies.now found.old found.new) }
{
    if found.has(replies) {
        return Ok(());
    }
    let Some(end) = start.walk(alloc, script, schedule.pids())? else {
        return Ok(());
    };
    let outcome = replies.copied(alloc)?;
    found.insert(alloc, end.events(), outcome)?;
    Ok(())
}

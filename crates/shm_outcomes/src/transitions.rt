//! The transitions of groups by each process.
ghost use Rattle.std.specs.Prelude.{◌≡◌, ◌∷◌, [], IfOk, OnOk};
ghost use Rattle.shm_outcomes.specs.Groups.{AreAllTransitions, AreTransitions, ArePut, IsExtended};

use crate::groups::Groups;
use crate::nodes::Node;
use shm_base::{Event, HostMemory, Process};
use shm_schedules::{Engine, Lists};
use shm_text::Script;
use std::alloc::Global;
use std::marker::Model;

/// A call that the runs of a group make next, with its reply in one of them, and the group of the runs after it.
#[derive(Clone, Copy)]
pub struct Transition {
    pub group: usize,
    pub event: Event,
}

// The transitions of a group.
#[derive(Drop)]
pub(crate) struct Transitions {
    all: Vec<Transition>,
}

impl Model for Transitions {
    ghost use Rattle.std.specs.Prelude.{List};
    ghost use Rattle.shm_outcomes.specs.declared.transitions.Transition.{Transition};

    ghost Value = { List Transition };

    ghost view = { λ m. m.all.items };
}

impl Transitions {
    pub(crate) fn all(&self) -> &[Transition]
        ensures { result.now ≡ self.now }
    {
        self.all.as_slice()
    }
}

// Appends the transition of a group by a process, if it can continue.
fn push_transition<M: Engine>(
    alloc: Global,
    script: &Script,
    node: &Node<M>,
    process: &Process,
    lists: &mut Lists,
    next: &mut Groups<M>,
    all: &mut Vec<Transition>,
) -> Result<(), HostMemory>
    ensures more { OnOk result (
        IsExtended script.now next.new node.now process.now.pid all.old.items all.new.items) }
    ensures put { OnOk result (ArePut script.now (node.now ∷ []) next.old next.new) }
{
    let Some(call) = node.run().next(script, process.pid) else {
        return Ok(());
    };
    let count = node.run().events().len();
    let after = node.after(alloc, script, process.pid, &call, lists)?;
    let event = after.run().events()[count];
    let group = next.put(alloc, script, after)?;
    all.push(Transition { group, event })?;
    Ok(())
}

// The transitions of a group by these processes.
fn transitions_of<M: Engine>(
    alloc: Global,
    script: &Script,
    processes: &[Process],
    node: &Node<M>,
    lists: &mut Lists,
    next: &mut Groups<M>,
) -> Result<Transitions, HostMemory>
    ensures transitions { IfOk result (λ all.
        AreTransitions script.now next.new node.now processes.now all) }
    ensures put { OnOk result (ArePut script.now (node.now ∷ []) next.old next.new) }
{
    let mut all = Vec::with_capacity(alloc, processes.len())?;
    for process in processes {
        push_transition(alloc, script, node, process, lists, next, &mut all)?;
    }
    Ok(Transitions { all })
}

// The transitions of all groups.
pub(crate) fn all_transitions<M: Engine>(
    alloc: Global,
    script: &Script,
    groups: &[Node<M>],
    lists: &mut Lists,
    next: &mut Groups<M>,
) -> Result<Vec<Transitions>, HostMemory>
    ensures transitions { IfOk result (λ all. AreAllTransitions script.now next.new groups.now all.items) }
    ensures put { OnOk result (ArePut script.now groups.now next.old next.new) }
{
    let mut all = Vec::with_capacity(alloc, groups.len())?;
    for group in groups {
        let one = transitions_of(alloc, script, &script.processes, group, lists, next)?;
        all.push(one)?;
    }
    Ok(all)
}

//! The keys of a search: runs with one key are equivalent.
ghost use Rattle.std.specs.Prelude.{◌≡◌, IfOk};
ghost use Rattle.shm_outcomes.specs.Groups.{group_key_at};
ghost use Rattle.shm_outcomes.specs.Nodes.{key_at};

use crate::effects::Effects;
use crate::nodes::Node;
use crate::relevant::relevant_outcome;
use shm_schedules::{Engine, Outcome};
use shm_text::Script;
use std::alloc::{AllocError, Global};
use std::marker::Model;

/// How many calls runs made, the replies to each process, and the effects on the machine. Of a group of runs it has
/// the relevant replies.
#[derive(Drop, PartialEq, Eq, Hash)]
pub struct Key {
    count: u64,
    replies: Outcome,
    effects: Effects,
}

impl Model for Key {
    ghost use Rattle.shm_outcomes.specs.Keys.{Key};

    ghost Value = { Key };

    ghost view = { λ k. record { count = k.count; replies = k.replies; effects = k.effects } };

    ghost inverse = { λ k. record { count = k.count; replies = k.replies; effects = k.effects } };
}

impl Key {
    /// The key of a node. AllocError: the host refused memory.
    pub fn of<M: Engine>(alloc: Global, node: &Node<M>) -> Result<Key, AllocError>
        ensures { IfOk result (λ k. k ≡ key_at node.now) }
    {
        let replies = node.replies().copied(alloc)?;
        let effects = node.effects().copied()?;
        let count = node.run().events().len() as u64;
        Ok(Key {
            count,
            replies,
            effects,
        })
    }

    // The key of a run's group.
    pub(crate) fn of_group<M: Engine>(
        alloc: Global,
        script: &Script,
        node: &Node<M>,
    ) -> Result<Key, AllocError>
        ensures { IfOk result (λ k. k ≡ group_key_at script.now node.now) }
    {
        let replies = relevant_outcome(alloc, script, node.replies())?;
        let effects = node.effects().copied()?;
        let count = node.run().events().len() as u64;
        Ok(Key {
            count,
            replies,
            effects,
        })
    }
}

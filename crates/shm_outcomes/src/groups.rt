//! Runs in groups, each with one of its runs.
ghost use Rattle.std.specs.Prelude.{◌≡◌, IfOk};
ghost use Rattle.shm_outcomes.specs.Groups.{IsPut, no_groups};

use crate::keys::Key;
use crate::nodes::Node;
use indexmap::IndexMap;
use shm_schedules::Engine;
use shm_text::Script;
use std::alloc::{AllocError, Global};
use std::marker::Model;

pub(crate) struct Groups<M: Engine> {
    all: IndexMap<Key, Node<M>>,
}

impl<M: Engine> Drop for Groups<M> {
    fn drop(self) {
        let Groups { all: _ } = self;
    }
}

impl<M: Engine> Model for Groups<M> {
    ghost use Rattle.indexmap.specs.IndexMap.{keys, values};
    ghost use Rattle.shm_outcomes.specs.Groups.{Groups};

    ghost Value = { Groups };

    ghost view = { λ g. record { keys = keys g.all; all = values g.all } };
}

impl<M: Engine> Groups<M> {
    // No groups yet. There is room for this number.
    pub(crate) fn new(alloc: Global, groups: usize) -> Result<Groups<M>, AllocError>
        ensures { IfOk result (λ g. g ≡ no_groups) }
    {
        let all = IndexMap::with_capacity(alloc, groups)?;
        Ok(Groups { all })
    }

    // A run of each group.
    pub(crate) fn all(&self) -> &[Node<M>]
        ensures { result.now ≡ self.now.all }
    {
        self.all.values().as_slice()
    }

    // The place of a run's group. It is a new one, if there is none yet.
    pub(crate) fn put(
        &mut self,
        alloc: Global,
        script: &Script,
        node: Node<M>,
    ) -> Result<usize, AllocError>
        ensures { IfOk result (λ place. IsPut script.now self.old node place self.new) }
    {
        let group_key = Key::of_group(alloc, script, &node)?;
        if let Some(place) = self.all.get_index_of(&group_key) {
            return Ok(place);
        }
        let place = self.all.len();
        self.all.insert(group_key, node)?;
        Ok(place)
    }
}

//! The nodes of a search: runs with the replies to each process and the effects on the machine.
ghost use Rattle.std.specs.Prelude.{◌≡◌, IfOk};
ghost use Rattle.shm_outcomes.specs.Nodes.{root, successor};

use crate::effects::Effects;
use shm_base::{Call, HostMemory};
use shm_schedules::{Engine, Lists, Outcome, Run};
use shm_text::Script;
use std::alloc::Global;
use std::marker::Model;

/// A run, with the replies to each process and the effects of its calls.
pub struct Node<M: Engine> {
    run: Run<M>,
    replies: Outcome,
    effects: Effects,
}

impl<M: Engine> Drop for Node<M> {
    fn drop(self) {
        let Node {
            run: _,
            replies: _,
            effects: _,
        } = self;
    }
}

impl<M: Engine> Model for Node<M> {
    ghost use Rattle.shm_outcomes.specs.Nodes.{Node};

    ghost Value = { Node };

    ghost view = { λ b. record { run = b.run; replies = b.replies; effects = b.effects } };
}

impl<M: Engine> Node<M> {
    /// The node before the first line. HostMemory: the host refused memory.
    pub fn first(alloc: Global, script: &Script, start: &Run<M>) -> Result<Node<M>, HostMemory>
        ensures { IfOk result (λ b. b ≡ root script.now start.now) }
    {
        let replies = Outcome::of(alloc, script, start.events())?;
        let effects = Effects::new(alloc)?;
        let run = start.copied(alloc)?;
        Ok(Node {
            run,
            replies,
            effects,
        })
    }

    /// The run.
    pub fn run(&self) -> &Run<M>
        ensures { result.now ≡ self.now.run }
    {
        &self.run
    }

    pub(crate) fn replies(&self) -> &Outcome
        ensures { result.now ≡ self.now.replies }
    {
        &self.replies
    }

    pub(crate) fn effects(&self) -> &Effects
        ensures { result.now ≡ self.now.effects }
    {
        &self.effects
    }

    /// The run, of a node that is not needed any more.
    pub fn into_run(self) -> Run<M>
        ensures { result ≡ self.run }
    {
        let Node {
            run,
            replies: _,
            effects: _,
        } = self;
        run
    }

    /// The node after one more call of a process. `lists` stores each list of replies once. HostMemory: the host
    /// refused memory; `lists` may have a new list then.
    pub fn after(
        &self,
        alloc: Global,
        script: &Script,
        pid: u32,
        call: &Call,
        lists: &mut Lists,
    ) -> Result<Node<M>, HostMemory>
        ensures { IfOk result (λ b. b ≡ successor script.now self.now pid call.now) }
    {
        let count = self.run.events().len();
        let run = self.run.after(alloc, pid, call)?;
        let event = &run.events()[count];
        let replies = self.replies.after(alloc, script, event, lists)?;
        let effects = self.effects.after(alloc, run.machine(), event)?;
        Ok(Node {
            run,
            replies,
            effects,
        })
    }
}

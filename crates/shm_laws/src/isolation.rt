ghost use Rattle.std.specs.Prelude.{◌≡◌};
ghost use Rattle.shm_laws.specs.Isolation.{IsIsolated};

use shm_base::Event;
use shm_history::World;
use shm_pager_core::Pager;

#[tactic(auto, using(crate::proofs::Isolating::is_isolated))]
/// The history of the world. A process's replies never depend on the bytes of segments that it has not
/// attached: with other bytes in these, each call would have the same reply.
pub fn isolated<P: Pager>(world: &World<P>) -> &[Event]
    ensures law { IsIsolated world.now.opening result.now world.now.machine }
    ensures events { result.now ≡ world.now.events }
{
    world.history()
}

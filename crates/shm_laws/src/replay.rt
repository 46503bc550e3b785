ghost use Rattle.std.specs.Prelude.{◌≡◌};
ghost use Rattle.shm_laws.specs.Replay.{IsReplayed};

use shm_base::Event;
use shm_history::World;
use shm_pager_core::Pager;

#[tactic(auto, using(crate::proofs::Replaying::replayed))]
/// The history of the world. Its opening and calls determine the replies and the end, except for calls at which a pager
/// failed. Such a call did nothing, and the other replies and the end are as if it had accessed no byte.
pub fn replayed<P: Pager>(world: &World<P>) -> &[Event]
    ensures law { IsReplayed world.now.opening result.now world.now.machine }
    ensures events { result.now ≡ world.now.events }
{
    world.history()
}

ghost use Rattle.std.specs.Prelude.{◌≡◌};
ghost use Rattle.shm_laws.specs.Permission.{NoWayIn};

use shm_base::Event;
use shm_history::World;
use shm_pager_core::Pager;

#[tactic(auto, using(crate::proofs::Keeping::no_way_in))]
/// The history of the world. Each piece of a process descends, through forks only, from a shmat that had permission. Each
/// access stays inside the pieces of its process. Only owners are granted set, rmid, lock and unlock, and only user 0 is
/// granted swapoff. Only processes with permission succeed at stat, or at a shmget of an existing segment. No call
/// changes the credentials of a process.
pub fn kept_out<P: Pager>(world: &World<P>) -> &[Event]
    ensures law { NoWayIn world.now.opening result.now world.now.machine }
    ensures events { result.now ≡ world.now.events }
{
    world.history()
}

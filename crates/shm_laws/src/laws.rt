ghost use Rattle.std.specs.Prelude.{◌≡◌};
ghost use Rattle.shm_base.specs.History.{IsHistory};
ghost use Rattle.shm_history.specs.WorldState.{AreCounted};
ghost use Rattle.shm_life.specs.MachineView.{IsExactly};
ghost use Rattle.shm_laws.specs.Lawful.{IsLawful};

use shm_base::Event;
use shm_history::World;
use shm_pager_core::Pager;

/// The history of the world. All laws hold for it, and so does all that `World::history` says.
pub fn lawful<P: Pager>(world: &World<P>) -> &[Event]
    ensures laws { IsLawful world.now.opening result.now world.now.machine }
    ensures events { result.now ≡ world.now.events }
    ensures legal { IsHistory world.now.opening world.now.events world.now.machine }
    ensures counted { AreCounted world.now.events world.now.memory.swap }
    ensures exact { IsExactly world.now.machine world.now.memory }
{
    world.history()
}

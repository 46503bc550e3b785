ghost use Rattle.std.specs.Prelude.{◌≡◌};
ghost use Rattle.shm_laws.specs.Size.{HaveTheirPages};

use shm_base::Event;
use shm_history::World;
use shm_pager_core::Pager;

/// The history of the world. The size of a segment never changes, and as long as it exists it has the bytes of the fewest
/// whole pages that hold its size.
pub fn pages_kept<P: Pager>(world: &World<P>) -> &[Event]
    ensures law { HaveTheirPages world.now.opening result.now world.now.machine }
    ensures events { result.now ≡ world.now.events }
{
    world.history()
}

ghost use Rattle.std.specs.Prelude.{◌≡◌};
ghost use Rattle.shm_laws.specs.Removal.{GoesWhenItMust};

use shm_base::Event;
use shm_history::World;
use shm_pager_core::Pager;

/// The history of the world. A segment is destroyed exactly by an rmid that finds it without pieces, or by the event that
/// takes its last piece while it is marked. A marked segment that exists always has a piece. A successful rmid marks its
/// segment or destroys it, nothing else marks a segment, and a mark remains until the segment is destroyed.
pub fn removed_in_time<P: Pager>(world: &World<P>) -> &[Event]
    ensures law { GoesWhenItMust world.now.opening result.now world.now.machine }
    ensures events { result.now ≡ world.now.events }
{
    world.history()
}

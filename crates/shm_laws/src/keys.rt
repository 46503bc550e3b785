ghost use Rattle.std.specs.Prelude.{◌≡◌};
ghost use Rattle.shm_laws.specs.Keys.{KeysLeadToOne};

use shm_base::Event;
use shm_history::World;
use shm_pager_core::Pager;

/// The history of the world. At most one segment at a time has a given key other than 0, and a marked segment has none. A
/// shmget that succeeds finds the segment with its key, or makes one if no segment has the key. A segment keeps its key
/// until it is marked.
pub fn found_by_key<P: Pager>(world: &World<P>) -> &[Event]
    ensures law { KeysLeadToOne world.now.opening result.now world.now.machine }
    ensures events { result.now ≡ world.now.events }
{
    world.history()
}

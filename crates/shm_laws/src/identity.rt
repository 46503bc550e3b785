ghost use Rattle.std.specs.Prelude.{◌≡◌};
ghost use Rattle.shm_laws.specs.Identity.{NamesOneSegment};

use shm_base::Event;
use shm_history::World;
use shm_pager_core::Pager;

#[tactic(auto, using(crate::proofs::Keeping::names_one_segment))]
/// The history of the world. An identifier names the same segment until that is destroyed, and then none. A new segment
/// gets an identifier that was never issued before.
pub fn named_once<P: Pager>(world: &World<P>) -> &[Event]
    ensures law { NamesOneSegment world.now.opening result.now world.now.machine }
    ensures events { result.now ≡ world.now.events }
{
    world.history()
}

ghost use Rattle.std.specs.Prelude.{◌≡◌};
ghost use Rattle.shm_laws.specs.Spaces.{SpacesAreLaidOut};

use shm_base::Event;
use shm_history::World;
use shm_pager_core::Pager;

#[tactic(auto, using(crate::proofs::Keeping::spaces_are_laid_out))]
/// The history of the world. The pieces of a process never overlap. Each has whole pages, within the bounds
/// for addresses. No process has more pieces than the limits allow.
pub fn laid_out<P: Pager>(world: &World<P>) -> &[Event]
    ensures law { SpacesAreLaidOut world.now.opening result.now world.now.machine }
    ensures events { result.now ≡ world.now.events }
{
    world.history()
}

ghost use Rattle.std.specs.Prelude.{◌≡◌};
ghost use Rattle.shm_laws.specs.Writing.{HasLastWriters};

use shm_base::Event;
use shm_history::World;
use shm_pager_core::Pager;

#[tactic(auto, using(crate::proofs::Remembering::has_last_writers))]
/// The history of the world. Each byte of a segment always has the value that the last event wrote to it, or
/// 0 if no event has written it since the segment was made. The same holds for each byte that a load or an
/// xadd returns.
pub fn last_written<P: Pager>(world: &World<P>) -> &[Event]
    ensures law { HasLastWriters world.now.opening result.now world.now.machine }
    ensures events { result.now ≡ world.now.events }
{
    world.history()
}

ghost use Rattle.std.specs.Prelude.{◌≡◌};
ghost use Rattle.shm_laws.specs.Pieces.{PiecesAreOfSegments};

use shm_base::Event;
use shm_history::World;
use shm_pager_core::Pager;

#[tactic(auto, using(crate::proofs::Keeping::pieces_are_of_segments))]
/// The history of the world. A process can only get a piece of a segment that exists, and a segment with a
/// piece always exists. The attach count of `stat` is the number of the segment's pieces in all processes. A
/// shmat adds one, a fork adds as many as the parent has, and each piece that is detached subtracts one.
pub fn pieces_stand<P: Pager>(world: &World<P>) -> &[Event]
    ensures law { PiecesAreOfSegments world.now.opening result.now world.now.machine }
    ensures events { result.now ≡ world.now.events }
{
    world.history()
}

ghost use Rattle.std.specs.Prelude.{◌≡◌, IfOk, string_bytes};
ghost use Rattle.shm_slots.specs.View.{AreCountsOf};
ghost use Rattle.shm_history.specs.WorldState.{tally_of};
ghost use Rattle.shm_print.specs.Usage.{usage_text};

use shm_history::World;
use shm_pager_core::Pager;
use std::alloc::{AllocError, Global};

/// The present counts of a world, in three lines. AllocError: the host refused memory.
pub fn usage<P: Pager>(alloc: Global, world: &World<P>) -> Result<String, AllocError>
    ensures text { IfOk result (λ s. string_bytes s ≡ usage_text (tally_of world.now)) }
    ensures counted { AreCountsOf P.failed world.now.memory.swap }
{
    shm_print::usage_text(alloc, &world.tally())
}

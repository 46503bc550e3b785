//! The world that a script opens.
ghost use Rattle.std.specs.Prelude.{◌≡◌, [], length, map, IfErr, IfOk};
ghost use Rattle.shm_life.specs.Start.{start_error};
ghost use Rattle.shm_program.specs.Runs.{IsOpening, IsFresh, IsStop, handed_in};

use crate::fault::{RunFault, stopped};
use shm_history::{System, World};
use shm_pager_core::Pager;
use shm_text::Script;
use std::alloc::Global;

/// The world that a script opens over the given pagers. It has no events. Fails with the first start error,
/// or if the host refused memory; the pagers are dropped then.
pub fn open_world<P: Pager>(
    alloc: Global,
    script: &Script,
    pagers: Vec<P>,
) -> Result<World<P>, RunFault>
    ensures opened { IfOk result (λ w. IsOpening script.now w.opening) }
    ensures areas { IfOk result (λ w. w.opening.areas ≡ map (λ p. length (P.content p)) pagers.items) }
    ensures events { IfOk result (λ w. w.events ≡ []) }
    ensures memory { IfOk result (λ w. IsFresh (handed_in P.content P.failed P.most P.calls pagers.items) w.memory) }
    ensures err { IfErr result
        (λ f. IsStop f
        (start_error script.now.limits (map (λ p. length (P.content p)) pagers.items) script.now.processes)) }
{
    match System::start(alloc, script.limits, pagers, &script.processes) {
        Ok(system) => Ok(World::new(alloc, system)),
        Err(error) => Err(stopped(error)),
    }
}

//! The gauge of a world.
ghost use Rattle.std.specs.Prelude.{◌≡◌, ◌∷◌, [], ◌<◌, ◌↔◌, ◌⊎◌, false, length, IsTrue, IsFalse, IfOk, IfSome, IsNone, Err};
ghost use Rattle.shm_history.specs.Gauges.{reading_of, has_gauge, stores, IsReading};
ghost use Rattle.shm_history.specs.WorldState.{tally_of};
ghost use Rattle.shm_history.specs.declared.publish.GaugeRefused.TheVariants.{Limits};

use crate::cell::Reading;
use crate::gauges::{Gauge, Keeper, ReaderSeat};
use crate::world::World;
use shm_base::{HostMemory, PROFILE_FRAMES, PROFILE_SHMALL};
use shm_pager_core::Pager;
use std::alloc::Global;
use std::sync::Wait;
use thiserror::Error;

/// Why a world has no gauge. `Limits`: its limits are larger than the profile's (over 4096 frames, or over
/// 65536 pages in SHMALL). `HostMemory`: the host refused memory.
#[derive(Clone, Copy, Debug, PartialEq, Eq, Error)]
pub enum GaugeRefused {
    #[error("a gauge has at most 4096 frames and 65536 pages")]
    Limits,
    #[error("out of memory")]
    HostMemory,
}

impl<P: Pager> World<P> {
    // The counts for the gauge, within its bounds; none if the limits are larger than the profile's.
    fn reading(&self) -> Option<Reading>
        ensures counts { IfSome result (λ r. r ≡ reading_of (tally_of self.now)) }
        ensures bounds { IfSome result IsReading }
        ensures none { IsNone result ↔ (has_gauge self.now.machine.limits ≡ false) }
    {
        let limits = self.system().limits();
        if limits.frames() > PROFILE_FRAMES || limits.shmall() > PROFILE_SHMALL {
            return None;
        }
        let tally = self.tally();
        Some(Reading {
            events: tally.events,
            resident: tally.resident,
            dirty: tally.dirty,
            used: tally.used,
        })
    }

    /// Stores the world's counts for the readers of the keeper's gauge. Does nothing and returns false if the
    /// keeper has stored more events than this world has, or if this world can have no gauge.
    pub fn publish<R: Wait>(&self, rt: &R, keeper: &mut Keeper) -> bool
        ensures stored { IsTrue result → keeper.new ≡ stores keeper.old (reading_of (tally_of self.now)) }
        ensures ahead { IsFalse result → keeper.new ≡ keeper.old }
        ensures when { IsFalse result ↔
            ((length self.now.events < keeper.old.numbers.events)
            ⊎ (has_gauge self.now.machine.limits ≡ false)) }
    {
        let Some(next) = self.reading() else {
            return false;
        };
        if next.events < keeper.last().events {
            return false;
        }
        keeper.store(rt, next);
        true
    }
}

/// A gauge of a world; its keeper, which has stored the world's counts; and a reader's seat, which knows
/// them. See [`GaugeRefused`] for the errors.
pub fn gauge<R: Wait, P: Pager>(
    rt: &R,
    alloc: Global,
    world: &World<P>,
) -> Result<(Gauge, Keeper, ReaderSeat), GaugeRefused>
    ensures cell { IfOk result (λ g. g.1.cell ≡ g.0) }
    ensures stored { IfOk result (λ g. g.1.numbers ≡ reading_of (tally_of world.now)) }
    ensures first { IfOk result (λ g. g.1.stored ≡ reading_of (tally_of world.now) ∷ []) }
    ensures seen { IfOk result (λ g. g.2 ≡ g.1) }
    ensures limits { (result ≡ Err Limits) ↔ (has_gauge world.now.machine.limits ≡ false) }
{
    if world.reading().is_none() {
        return Err(GaugeRefused::Limits);
    }
    let Ok((gauge, mut keeper)) = Keeper::new(alloc) else {
        return Err(GaugeRefused::HostMemory);
    };
    world.publish(rt, &mut keeper);
    let seat = keeper.split_reader();
    Ok((gauge, keeper, seat))
}

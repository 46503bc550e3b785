//! Changes the limits of a running machine, as sysctl(8) and setrlimit(2) do. No process calls this.
ghost use Rattle.std.specs.Prelude.{◌≡◌, OnErr};
ghost use Rattle.shm_base.specs.Guest.{left_by};
ghost use Rattle.shm_life.specs.Guest.{IsChanged};
ghost use Rattle.shm_life.specs.Limiting.{limits, limits_with};
ghost use Rattle.shm_base.specs.Bounds.{bounds_of};

use crate::kernel::Kernel;
use crate::system::System;
use shm_base::{BadLimits, Limits, Sizes};
use shm_pager_core::Pager;

/// The limits that can change while a machine runs.
#[derive(Clone, Copy, Debug, PartialEq, Eq)]
pub struct NewLimits {
    /// SHMMAX: the most bytes of a segment.
    pub shmmax: u64,
    /// SHMMNI: the most segments.
    pub shmmni: u64,
    /// SHMALL: the most pages of all segments.
    pub shmall: u64,
    /// MEMLOCK: the most pages of locked segments.
    pub memlock: u64,
}

// The limits with four new values.
fn sizes_with(limits: &Limits, new: &NewLimits) -> Sizes
    ensures { bounds_of result ≡ limits_with limits.now new.now }
{
    Sizes {
        shmmax: new.shmmax,
        shmmni: new.shmmni,
        shmall: new.shmall,
        frames: limits.frames(),
        memlock: new.memlock,
        most_pieces: u64::from(limits.most_pieces()),
        most_processes: u64::from(limits.most_processes()),
        most_slots: u64::from(limits.most_slots()),
        rules: limits.rules(),
    }
}

impl<P: Pager> Kernel<P> {
    fn set_limits(&mut self, new: &NewLimits) -> Result<(), BadLimits>
        ensures outcome { limits self.old.flat new.now ≡ left_by result self.new.flat }
        ensures refused { OnErr result (self.new ≡ self.old) }
        ensures memory { self.new.memory ≡ self.old.memory }
    {
        let limits = Limits::of(&sizes_with(&self.limits, new))?;
        if limits.shmall() < self.segments.reserved() {
            return Err(BadLimits(3));
        }
        if limits.lockable() < self.segments.locked() {
            return Err(BadLimits(5));
        }
        self.limits = limits;
        Ok(())
    }
}

impl<P: Pager> System<P> {
    /// Gives the machine another SHMMAX, SHMMNI, SHMALL and MEMLOCK. Segments that exist stay, even if they
    /// are larger than SHMMAX now, or more than SHMMNI. Refused with the number of the first limit that is
    /// wrong, as [`Limits::of`] numbers them: out of its range, or SHMALL below the pages of all segments, or
    /// MEMLOCK below those of the locked ones.
    pub fn set_limits(&mut self, new: &NewLimits) -> Result<(), BadLimits>
        ensures { IsChanged self.old (limits self.old.machine new.now) result self.new }
    {
        self.kernel.set_limits(new)?;
        Ok(())
    }
}

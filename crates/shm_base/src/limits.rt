ghost use Rattle.std.specs.Prelude.{◌≡◌, ◌+◌, ◌≤◌, ◌<◌};
ghost use Rattle.shm_base.specs.declared.bounds.TheConstants.{MOST_FRAMES, MOST_PIECES, MOST_PROCESSES, MOST_SHMALL, MOST_SHMMAX, MOST_SHMMNI, MOST_SLOTS};

use crate::bounds::{
    MOST_FRAMES, MOST_PIECES, MOST_PROCESSES, MOST_SHMALL, MOST_SHMMAX, MOST_SHMMNI, MOST_SLOTS,
    PROFILE_FRAMES, PROFILE_PIECES, PROFILE_PROCESSES, PROFILE_SHMALL, PROFILE_SHMMAX,
    PROFILE_SHMMNI, PROFILE_SLOTS,
};
use crate::flags::Rules;
use bitflags::Flags;
use std::marker::Model;
use thiserror::Error;

/// The first limit that is out of its range, by its number: 1 SHMMAX, 2 SHMMNI, 3 SHMALL, 4 frames, 5
/// MEMLOCK, 6 pieces of a process, 7 processes, 8 slots of a swap area, 9 the rules.
#[derive(Clone, Copy, Debug, PartialEq, Eq, Error)]
#[error("bad limits {0}")]
pub struct BadLimits(pub u8);

/// A request for limits: numbers that are not checked yet.
#[derive(Clone, Copy, Debug, PartialEq, Eq)]
pub struct Sizes {
    /// SHMMAX: the most bytes of a segment.
    pub shmmax: u64,
    /// SHMMNI: the most segments.
    pub shmmni: u64,
    /// SHMALL: the most pages of all segments.
    pub shmall: u64,
    /// The number of page frames.
    pub frames: u64,
    /// MEMLOCK: the most pages of locked segments.
    pub memlock: u64,
    /// The most pieces of a process.
    pub most_pieces: u64,
    /// The most processes at a time.
    pub most_processes: u64,
    /// The most slots of a swap area.
    pub most_slots: u64,
    /// The rules of Linux that hold.
    pub rules: Rules,
}

impl Sizes {
    const LARGEST_OF_PROFILE: Sizes = Sizes {
        shmmax: PROFILE_SHMMAX,
        shmmni: PROFILE_SHMMNI,
        shmall: PROFILE_SHMALL,
        frames: PROFILE_FRAMES,
        memlock: PROFILE_FRAMES - 2,
        most_pieces: PROFILE_PIECES as u64,
        most_processes: PROFILE_PROCESSES as u64,
        most_slots: PROFILE_SLOTS as u64,
        rules: Rules::PROFILE,
    };

    const LARGEST: Sizes = Sizes {
        shmmax: MOST_SHMMAX,
        shmmni: MOST_SHMMNI,
        shmall: MOST_SHMALL,
        frames: MOST_FRAMES,
        memlock: MOST_FRAMES - 2,
        most_pieces: MOST_PIECES as u64,
        most_processes: MOST_PROCESSES as u64,
        most_slots: MOST_SLOTS as u64,
        rules: Rules::LINUX,
    };
}

/// The limits of a machine, each within its range. [`Limits::new`] makes limits of this project's profile,
/// [`Limits::of`] those of a larger machine.
#[derive(Clone, Copy, Debug, PartialEq, Eq)]
pub struct Limits {
    shmmax: u64,
    shmmni: u64,
    shmall: u64,
    frames: u64,
    memlock: u64,
    most_pieces: u32,
    most_processes: u32,
    most_slots: u32,
    rules: Rules,
}

impl Model for Limits {
    ghost use Rattle.shm_base.specs.Bounds.{Bounds, AreBounds};

    ghost Value = { Bounds };

    ghost view = { λ l. record {
      shmmax = l.shmmax;
      shmmni = l.shmmni;
      shmall = l.shmall;
      frames = l.frames;
      memlock = l.memlock;
      most_pieces = l.most_pieces;
      most_processes = l.most_processes;
      most_slots = l.most_slots;
      rules = l.rules;
    } };

    ghost inverse = { λ b. record {
      shmmax = b.shmmax;
      shmmni = b.shmmni;
      shmall = b.shmall;
      frames = b.frames;
      memlock = b.memlock;
      most_pieces = b.most_pieces;
      most_processes = b.most_processes;
      most_slots = b.most_slots;
      rules = b.rules;
    } };

    ghost invariant = { λ l. AreBounds (record {
      shmmax = l.shmmax;
      shmmni = l.shmmni;
      shmall = l.shmall;
      frames = l.frames;
      memlock = l.memlock;
      most_pieces = l.most_pieces;
      most_processes = l.most_processes;
      most_slots = l.most_slots;
      rules = l.rules;
    }) };
}

impl Limits {
    ghost use Rattle.std.specs.Prelude.{Ok, Err};
    ghost use Rattle.shm_base.specs.Bounds.{limits_of, machine_limits_of, limits_within, bounds_of, lockable, ruled, AreBounds};

    /// The limits of a machine of the profile, with these ranges:
    ///
    /// - SHMMAX: 1 to 2^24 bytes
    /// - SHMMNI: 1 to 4096 segments
    /// - SHMALL: 1 to 65536 pages
    /// - frames: 2 to 4096
    /// - MEMLOCK: 0 to the frames less 2, in pages
    ///
    /// A process has at most 256 pieces, a machine 64 processes, a swap area 65536 slots. No rule of Linux
    /// holds. Returns the number of the first limit that is out of its range, in the order of the arguments.
    pub fn new(
        shmmax: u64,
        shmmni: u64,
        shmall: u64,
        frames: u64,
        memlock: u64,
    ) -> Result<Limits, BadLimits>
        ensures { result ≡ limits_of shmmax shmmni shmall frames memlock }
    {
        let sizes = Sizes {
            shmmax,
            shmmni,
            shmall,
            frames,
            memlock,
            ..Sizes::LARGEST_OF_PROFILE
        };
        Limits::within(&Sizes::LARGEST_OF_PROFILE, &sizes)
    }

    /// The limits of a machine, which may be larger than those of the profile, with these ranges:
    ///
    /// - SHMMAX: 1 to 2^40 bytes
    /// - SHMMNI: 1 to 32768 segments
    /// - SHMALL: 1 to 2^28 pages
    /// - frames: 2 to 2^24
    /// - MEMLOCK: 0 to the frames less 2, in pages
    /// - pieces of a process: 1 to 65530
    /// - processes: 1 to 32768
    /// - slots of a swap area: 1 to 2^28
    /// - rules: any set of those that have a name
    ///
    /// Returns the number of the first limit that is out of its range, in the order of the fields.
    pub fn of(sizes: &Sizes) -> Result<Limits, BadLimits>
        ensures { result ≡ machine_limits_of (bounds_of sizes.now) }
    {
        Limits::within(&Sizes::LARGEST, sizes)
    }

    /// The same limits with other rules. Returns `BadLimits(9)` if a bit is not that of a known rule.
    pub fn with_rules(self, rules: Rules) -> Result<Limits, BadLimits>
        ensures { result ≡ ruled rules self }
    {
        if !Rules::LINUX.contains(rules) {
            return Err(BadLimits(9));
        }
        Ok(Limits { rules, ..self })
    }

    // The limits, or the number of the first that is out of its range; `most` are the largest allowed.
    fn within(most: &Sizes, sizes: &Sizes) -> Result<Limits, BadLimits>
        requires { AreBounds (bounds_of most.now) }
        ensures { result ≡ limits_within (bounds_of most.now) (bounds_of sizes.now) }
    {
        if sizes.shmmax < 1 || sizes.shmmax > most.shmmax {
            return Err(BadLimits(1));
        }
        if sizes.shmmni < 1 || sizes.shmmni > most.shmmni {
            return Err(BadLimits(2));
        }
        if sizes.shmall < 1 || sizes.shmall > most.shmall {
            return Err(BadLimits(3));
        }
        if sizes.frames < 2 || sizes.frames > most.frames {
            return Err(BadLimits(4));
        }
        if sizes.memlock > sizes.frames - 2 {
            return Err(BadLimits(5));
        }
        if sizes.most_pieces < 1 || sizes.most_pieces > most.most_pieces {
            return Err(BadLimits(6));
        }
        if sizes.most_processes < 1 || sizes.most_processes > most.most_processes {
            return Err(BadLimits(7));
        }
        if sizes.most_slots < 1 || sizes.most_slots > most.most_slots {
            return Err(BadLimits(8));
        }
        if !Rules::LINUX.contains(sizes.rules) {
            return Err(BadLimits(9));
        }
        Ok(Limits {
            shmmax: sizes.shmmax,
            shmmni: sizes.shmmni,
            shmall: sizes.shmall,
            frames: sizes.frames,
            memlock: sizes.memlock,
            most_pieces: sizes.most_pieces as u32,
            most_processes: sizes.most_processes as u32,
            most_slots: sizes.most_slots as u32,
            rules: sizes.rules,
        })
    }

    /// The most bytes of a segment.
    pub fn shmmax(&self) -> u64
        ensures value { result ≡ self.now.shmmax }
        ensures range { result ≤ MOST_SHMMAX }
    {
        self.shmmax
    }

    /// The most segments.
    pub fn shmmni(&self) -> u64
        ensures value { result ≡ self.now.shmmni }
        ensures range { result ≤ MOST_SHMMNI }
    {
        self.shmmni
    }

    /// The most pages of all segments together.
    pub fn shmall(&self) -> u64
        ensures value { result ≡ self.now.shmall }
        ensures range { result ≤ MOST_SHMALL }
    {
        self.shmall
    }

    /// The number of frames.
    pub fn frames(&self) -> u64
        ensures value { result ≡ self.now.frames }
        ensures range { (2 ≤ result) × (result ≤ MOST_FRAMES) }
    {
        self.frames
    }

    /// The most pages of locked segments; of each user's if the rule LOCKS_BY_USER holds.
    pub fn memlock(&self) -> u64
        ensures value { result ≡ self.now.memlock }
        ensures range { result ≤ MOST_FRAMES }
        ensures room { result + 2 ≤ self.now.frames }
    {
        self.memlock
    }

    /// The most pieces of a process.
    pub fn most_pieces(&self) -> u32
        ensures value { result ≡ self.now.most_pieces }
        ensures range { (1 ≤ result) × (result ≤ MOST_PIECES) }
    {
        self.most_pieces
    }

    /// The most processes.
    pub fn most_processes(&self) -> u32
        ensures value { result ≡ self.now.most_processes }
        ensures range { (1 ≤ result) × (result ≤ MOST_PROCESSES) }
    {
        self.most_processes
    }

    /// The most slots of a swap area.
    pub fn most_slots(&self) -> u32
        ensures value { result ≡ self.now.most_slots }
        ensures range { (1 ≤ result) × (result ≤ MOST_SLOTS) }
    {
        self.most_slots
    }

    /// The rules of Linux that hold.
    pub fn rules(&self) -> Rules
        ensures value { result ≡ self.now.rules }
    {
        self.rules
    }

    /// The most pages that may be locked at a time: MEMLOCK; or the frames less 2, if MEMLOCK is a limit of
    /// each user.
    pub fn lockable(&self) -> u64
        ensures value { result ≡ lockable self.now }
        ensures range { result ≤ MOST_FRAMES }
        ensures room { result + 2 ≤ self.now.frames }
    {
        let Limits {
            rules,
            frames,
            memlock,
            ..
        } = *self;
        if rules.contains(Rules::LOCKS_BY_USER) {
            frames - 2
        } else {
            memlock
        }
    }
}

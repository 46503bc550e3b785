//! Every bound once: those of any machine, and the lower ones of the profile.

/// The lowest address at which a piece may be attached.
pub const LOWEST_ADDRESS: u64 = 0x10000;

/// The lowest address that the machine chooses when a process attaches at a null address.
pub const FIRST_GAP: u64 = 0x4000_0000;

/// The first address after those that can be attached.
pub const END_ADDRESS: u64 = 0x7fff_ffff_f000;

/// How many indexes a table of segments can have: identifier = index + INDEXES * sequence number.
pub const INDEXES: u32 = 32768;

/// How many segments can be destroyed at one index: one for each sequence number.
pub const SEQUENCES: u32 = 65536;

/// The largest identifier.
pub const LAST_ID: u32 = 2_147_483_647;

/// The largest pid.
pub const LAST_PID: u32 = 2_147_483_647;

/// The most processes of any machine.
pub const MOST_PROCESSES: usize = 32768;

/// The most processes of a machine of the profile.
pub const PROFILE_PROCESSES: usize = 64;

/// The most pieces of a process in any machine.
pub const MOST_PIECES: usize = 65530;

/// The most pieces of a process of the profile.
pub const PROFILE_PIECES: usize = 256;

/// The most swap areas of a machine.
pub const MOST_AREAS: usize = 8;

/// The most slots of a swap area in any machine.
pub const MOST_SLOTS: u32 = 268_435_456;

/// The most slots of a swap area of the profile.
pub const PROFILE_SLOTS: u32 = 65536;

/// How many modes there are: only the low nine bits of a mode count.
pub const MODES: u16 = 512;

/// The most bytes of a load, a store or an exchange.
pub const LONGEST_ACCESS: usize = 64;

/// The most bytes of a compare and exchange, as on x86-64.
pub const LONGEST_WORD: usize = 16;

/// The largest SHMMAX: the most bytes of a segment.
pub const MOST_SHMMAX: u64 = 1_099_511_627_776;

/// The largest SHMMAX of the profile.
pub const PROFILE_SHMMAX: u64 = 16_777_216;

/// The largest SHMMNI: the most segments of a machine.
pub const MOST_SHMMNI: u64 = 32768;

/// The largest SHMMNI of the profile.
pub const PROFILE_SHMMNI: u64 = 4096;

/// The largest SHMALL: the most pages of all segments.
pub const MOST_SHMALL: u64 = 268_435_456;

/// The largest SHMALL of the profile.
pub const PROFILE_SHMALL: u64 = 65536;

/// The most frames of any machine.
pub const MOST_FRAMES: u64 = 16_777_216;

/// The most frames of a machine of the profile.
pub const PROFILE_FRAMES: u64 = 4096;

/// The most pages that a flush line of a script can ask for.
pub const MOST_FLUSHED: u32 = 4096;

/// The most bytes of a script.
pub const LONGEST_SCRIPT: usize = 1_048_576;

/// The most command and flush lines of a script.
pub const MOST_COMMANDS: u32 = 100_000;

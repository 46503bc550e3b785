//! The refusals of an address that shmat is given.
ghost use Rattle.std.specs.Prelude.{◌≡◌, ◌*◌, ◌+◌, ◌%◌, ◌≤◌, nat_lt, true, IfOk};
ghost use Rattle.shm_base.specs.Rules as flat_rules;
ghost use Rattle.shm_base.specs.Space.{end_address};
ghost use Rattle.shm_base.specs.Space as flat_space;
ghost use Rattle.shm_base.specs.State.{pages_of};
ghost use Rattle.shm_attach.specs.Place.{IsRange};
ghost use Rattle.shm_base.specs.Step as flat;
ghost use Rattle.shm_base.specs.declared.bounds.TheConstants.{MOST_SHMALL};
ghost use Rattle.shm_base.specs.declared.paging.TheConstants.{PAGE_SIZE};
ghost use Rattle.shm_attach.specs.Spaces.{IsCaller, caller_seen};
ghost use Rattle.shm_segments.specs.Table.{IsFound, segment_seen};

use crate::kernel::Kernel;
use bitflags::Flags;
use shm_areas::is_reserved;
use shm_attach::Caller;
use shm_base::{AtFlags, END_ADDRESS, Errno, LOWEST_ADDRESS, PAGE_SIZE, Rules};
use shm_pager_core::Pager;
use shm_segments::Found;

/// The refusal of too many pieces: Emfile, or Enomem under `Rules::PIECES_ARE_ENOMEM`.
pub(crate) fn pieces_errno(rules: Rules) -> Errno
    ensures { result ≡ flat_rules.pieces_errno rules }
{
    if rules.contains(Rules::PIECES_ARE_ENOMEM) {
        Errno::Enomem
    } else {
        Errno::Emfile
    }
}

fn end_errno(rules: Rules) -> Errno
    ensures { result ≡ flat_rules.end_errno rules }
{
    if rules.contains(Rules::END_IS_ENOMEM) {
        Errno::Enomem
    } else {
        Errno::Einval
    }
}

// Whether a range of this many pages ends above the last address.
fn is_beyond(base: u64, pages: u32) -> bool
    requires { pages ≤ MOST_SHMALL }
    ensures { result ≡ nat_lt end_address (base + PAGE_SIZE * pages) }
{
    base > END_ADDRESS || base + PAGE_SIZE * pages as u64 > END_ADDRESS
}

impl<P: Pager> Kernel<P> {
    // Whether the host has reserved one of this many pages for a process. The range may end above the last
    // address, where nothing is reserved.
    fn is_reserved(&self, pid: u32, base: u64, pages: u32) -> bool
        requires { pages ≤ MOST_SHMALL }
        ensures { let ranges = flat_space.ranges_of pid self.now.flat.host_ranges in
            result ≡ flat_space.is_reserved ranges base (base + PAGE_SIZE * pages) }
    {
        let to = base.saturating_add(PAGE_SIZE * pages as u64);
        is_reserved(&self.host_ranges, pid, base, to)
    }

    // Whether a range may not be taken: it meets a piece or a reserved range, or its bytes reach 2^64.
    fn is_taken(&self, caller: &Caller, found: &Found, flags: AtFlags, base: u64) -> bool
        requires caller { IsCaller caller.now self.now.flat.runners }
        requires found { IsFound self.now.flat.table found.now }
        ensures { let seen = caller_seen caller.now self.now.flat.runners in
            let segment = segment_seen self.now.flat.table found.now in
            result ≡ flat.is_taken self.now.flat seen segment flags base }
    {
        if flags.contains(AtFlags::REMAP) {
            return false;
        }
        if self.limits.rules().contains(Rules::LOW_IS_EPERM) && base == 0 {
            return false;
        }
        let pages = found.pages();
        base.checked_add(found.head.size).is_none()
            || self.spaces.space(caller).is_occupied(base, pages)
            || self.is_reserved(caller.pid, base, pages)
    }

    // Whether the process can attach nothing more, not even by a remap.
    fn is_full(&self, caller: &Caller) -> bool
        requires { IsCaller caller.now self.now.flat.runners }
        ensures { result ≡ flat.is_full self.now.flat (caller_seen caller.now self.now.flat.runners) }
    {
        self.limits.rules().contains(Rules::PIECES_ARE_ENOMEM)
            && self.spaces.space(caller).pieces().len() >= self.limits.most_pieces() as usize
    }

    fn low_errno(&self, caller: &Caller) -> Errno
        ensures { result ≡ flat.low_errno self.now.flat (caller_seen caller.now self.now.flat.runners) }
    {
        if self.limits.rules().contains(Rules::LOW_IS_EPERM) && caller.cred.uid != 0 {
            Errno::Eperm
        } else {
            Errno::Einval
        }
    }

    // The base, if this many pages from it are within the addresses; else why its end or its beginning is
    // refused.
    fn inside(&self, caller: &Caller, base: u64, pages: u32) -> Result<u64, Errno>
        requires { pages ≤ MOST_SHMALL }
        ensures value { let seen = caller_seen caller.now self.now.flat.runners in
            result ≡ flat.within_addresses self.now.flat seen base pages }
        ensures lies { IfOk result (λ b. (b ≡ base) × (flat_space.inside base pages ≡ true)) }
    {
        if is_beyond(base, pages) {
            return Err(end_errno(self.limits.rules()));
        }
        if base < LOWEST_ADDRESS {
            return Err(self.low_errno(caller));
        }
        Ok(base)
    }

    /// A base that the caller gives, if shmat may attach there.
    ///
    /// - Einval: the range meets a piece or a reserved range without SHM_REMAP, or reaches 2^64.
    /// - Enomem: the process can attach nothing more, under `Rules::PIECES_ARE_ENOMEM`.
    /// - Einval: the range is not within 0x10000 to 0x7ffffffff000; rules replace this by Enomem or Eperm.
    pub(crate) fn fixed_base(
        &self,
        caller: &Caller,
        found: &Found,
        flags: AtFlags,
        base: u64,
    ) -> Result<u64, Errno>
        requires caller { IsCaller caller.now self.now.flat.runners }
        requires found { IsFound self.now.flat.table found.now }
        requires page { base % 4096 ≡ 0 }
        ensures range { IfOk result (IsRange (pages_of found.now.head.size)) }
        ensures value { let seen = caller_seen caller.now self.now.flat.runners in
            let segment = segment_seen self.now.flat.table found.now in
            result ≡ flat.fixed_base self.now.flat seen segment flags base }
    {
        if self.is_taken(caller, found, flags, base) {
            return Err(Errno::Einval);
        }
        if self.is_full(caller) {
            return Err(Errno::Enomem);
        }
        self.inside(caller, base, found.pages())
    }
}

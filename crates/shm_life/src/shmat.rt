//! shmat attaches a segment.
ghost use Rattle.std.specs.Prelude.{◌≡◌, ◌+◌, ◌*◌, ◌==◌, ◌≤◌, ◌&&◌, ◌||◌, nat_lt, length, IfOk, OnErr};
ghost use Rattle.shm_base.specs.Rules.{low_is_eperm};
ghost use Rattle.shm_base.specs.Space.{cut};
ghost use Rattle.shm_base.specs.Step as flat;
ghost use Rattle.shm_base.specs.declared.bounds.TheConstants.{MOST_SHMALL};
ghost use Rattle.shm_base.specs.declared.paging.TheConstants.{PAGE_SIZE};
ghost use Rattle.shm_base.specs.declared.call.Call.TheVariants as call;
ghost use Rattle.shm_base.specs.declared.call.Reply.TheVariants.{Addr};
ghost use Rattle.shm_attach.specs.Place.{IsRange};
ghost use Rattle.shm_attach.specs.Spaces.{IsCaller, pieces_at, caller_seen};
ghost use Rattle.shm_life.specs.MachineView.{IsWithoutMemory, Served, replied};
ghost use Rattle.shm_life.specs.Tied.{PieceFits};

use crate::fixed::pieces_errno;
use crate::kernel::Kernel;
use crate::sweep::{after_detach, attach_rests};
use bitflags::Flags;
use shm_attach::Caller;
use shm_base::{AtFlags, Errno, HostMemory, PAGE_SIZE, Placed, Rules, ShmId, Want, grants};
use shm_pager_core::Pager;

impl<P: Pager> Kernel<P> {
    // Whether SHM_REMAP is given with a null address, or an address is unaligned without SHM_RND (shmop(2)).
    // Under `Rules::LOW_IS_EPERM` an address that rounds to 0 is null too.
    fn is_misplaced(&self, addr: u64, flags: AtFlags) -> bool
        ensures { result ≡ flat.is_misplaced self.now.flat addr flags }
    {
        if flags.contains(AtFlags::REMAP) && self.is_null(addr, flags) {
            return true;
        }
        addr % PAGE_SIZE != 0 && !flags.contains(AtFlags::RND)
    }

    // Whether the address is null, so that a remap there is refused.
    fn is_null(&self, addr: u64, flags: AtFlags) -> bool
        ensures { let rounds_to_0 = flat.is_rnd flags && nat_lt addr PAGE_SIZE in
            result ≡ ((addr == 0) || low_is_eperm self.now.flat.limits.rules && rounds_to_0) }
    {
        addr == 0
            || self.limits.rules().contains(Rules::LOW_IS_EPERM)
                && flags.contains(AtFlags::RND)
                && addr < PAGE_SIZE
    }

    // The permissions that an attach asks for: reading; writing without SHM_RDONLY; and execution with
    // SHM_EXEC under `Rules::EXEC_IS_ASKED`.
    fn wish_at(&self, flags: AtFlags) -> Want
        ensures { result ≡ flat.at_wish self.now.flat flags }
    {
        Want {
            read: true,
            write: !flags.contains(AtFlags::RDONLY),
            execute: self.limits.rules().contains(Rules::EXEC_IS_ASKED)
                && flags.contains(AtFlags::EXEC),
        }
    }

    /// Tests the refusals of shmat in their order, and returns where the new piece is placed (shmop(2); the
    /// order is this profile's):
    ///
    /// - Einval: SHM_REMAP with a null address, or an unaligned address without SHM_RND.
    /// - Einval, Eidrm: the identifier was never issued, or its segment was destroyed.
    /// - Eacces: the process has no permission.
    /// - Einval: the range is not within the addresses, or is taken without SHM_REMAP.
    /// - Enomem: the address is null, and no gap is large enough.
    /// - Emfile: the process would have too many pieces.
    fn place_for(
        &self,
        caller: &Caller,
        id: ShmId,
        addr: u64,
        flags: AtFlags,
    ) -> Result<Placed, Errno>
        requires { IsCaller caller.now self.now.flat.runners }
        ensures value { let seen = caller_seen caller.now self.now.flat.runners in
            result ≡ flat.placed self.now.flat seen id addr flags }
        ensures fits { IfOk result (λ p. PieceFits self.now.flat.table (flat.piece_for flags p)) }
        ensures pages { IfOk result (λ p. (1 ≤ p.pages) × (p.pages ≤ MOST_SHMALL)) }
        ensures range { IfOk result (λ p. IsRange p.pages p.base) }
        ensures room { let pieces = pieces_at self.now.flat.runners caller.now.index in
            IfOk result (λ p. length (cut p.base (p.base + PAGE_SIZE * p.pages) pieces) + 1
            ≤ self.now.flat.limits.most_pieces) }
    {
        if self.is_misplaced(addr, flags) {
            return Err(Errno::Einval);
        }
        let found = self.look(id)?;
        if !grants(&caller.cred, &found.head.perm, self.wish_at(flags)) {
            return Err(Errno::Eacces);
        }
        let space = self.spaces.space(caller);
        let (seg, pages) = (found.seg, found.pages());
        let wish = if addr == 0 {
            space
                .choose_beside(&self.host_ranges, caller.pid, pages)
                .ok_or(Errno::Enomem)
        } else {
            self.fixed_base(caller, &found, flags, addr - addr % PAGE_SIZE)
        };
        let base = wish?;
        let most = self.limits.most_pieces() as usize;
        if space.count_outside(base, base + PAGE_SIZE * pages as u64) >= most {
            return Err(pieces_errno(self.limits.rules()));
        }
        Ok(Placed { seg, pages, base })
    }

    #[tactic(auto, using(crate::proofs::Running::kept_refl, crate::proofs::Running::pages_rest))]
    /// Attaches a segment. Segments whose pieces are replaced are detached. Marked ones that lose their last
    /// piece are destroyed after the new piece is in.
    pub(crate) fn shmat(
        &mut self,
        time: u64,
        caller: &Caller,
        id: ShmId,
        addr: u64,
        flags: AtFlags,
    ) -> Result<Result<u64, Errno>, HostMemory>
        requires { IsCaller caller.now self.old.flat.runners }
        ensures served { let shmat = call.Shmat id addr flags in
            IfOk result (λ r. Served self.old time caller.now shmat (replied Addr r) self.new) }
        ensures memory { let seen = caller_seen caller.now self.old.flat.runners in
            let outcome = flat.shmat self.old.flat time seen id addr flags in
            OnErr result (IsWithoutMemory outcome self.old self.new) }
    {
        let Placed { seg, pages, base } = match self.place_for(caller, id, addr, flags) {
            Ok(placed) => placed,
            Err(errno) => return Ok(Err(errno)),
        };
        let writable = !flags.contains(AtFlags::RDONLY);
        let end = base + PAGE_SIZE * pages as u64;
        let rests = self.spaces.space(caller).rests(base, end);
        let store = self.segments.store();
        self.spaces
            .attach(caller, seg, base, pages, writable, store)?;
        attach_rests(
            &mut self.segments,
            self.limits.rules(),
            rests.segments(),
            time,
            caller.pid,
        );
        self.segments.attached(seg, time, caller.pid);
        after_detach(
            &mut self.segments,
            &self.spaces,
            self.spaces.lost(),
            time,
            caller.pid,
        );
        Ok(Ok(base))
    }
}

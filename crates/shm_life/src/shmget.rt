//! shmget finds a segment by its key, or makes a new one.
ghost use Rattle.std.specs.Prelude.{◌≡◌, ◌≢◌, ◌≤◌, ◌+◌, ℕ, false, [], None, IfOk, OnErr};
ghost use Rattle.shm_base.specs.Segments.{reserved};
ghost use Rattle.shm_base.specs.State.{pages_of};
ghost use Rattle.shm_base.specs.declared.bounds.TheConstants.{MOST_SHMMAX};
ghost use Rattle.shm_base.specs.State.{Machine};
ghost use Rattle.shm_base.specs.declared.call.Call.TheVariants as call;
ghost use Rattle.shm_base.specs.declared.call.Reply.TheVariants.{Id};
ghost use Rattle.shm_base.specs.Identifier as flat_ids;
ghost use Rattle.shm_base.specs.Permission as permission;
ghost use Rattle.shm_base.specs.Step as flat;
ghost use Rattle.shm_attach.specs.Spaces.{caller_seen};
ghost use Rattle.shm_segments.specs.Joined.{head_of};
ghost use Rattle.shm_segments.specs.Table.{IsFound, look_of};
ghost use Rattle.shm_life.specs.MachineView.{Answered, IsWithoutMemory, Served, replied};
ghost use Rattle.shm_life.specs.Paging.Paging.{Rests};

use crate::kernel::Kernel;
use bitflags::Flags;
use shm_attach::Caller;
use shm_base::{Errno, GetFlags, HostMemory, MODES, Perm, Rules, ShmId, Want, grants, pages_of};
use shm_pager_core::Pager;
use shm_segments::{Found, Head};

/// The permissions that the nine bits of a shmget of a found key ask for: reading if any read bit is set,
/// writing if any write bit is, and execution if any execute bit is, under `Rules::EXECUTE_IS_ASKED`.
fn wish_of(rules: Rules, mode: u16) -> Want
    ensures { result ≡ permission.wish_of rules mode }
{
    Want {
        read: !(mode / 4 % 2 == 0 && mode / 32 % 2 == 0 && mode / 256 % 2 == 0),
        write: !(mode / 2 % 2 == 0 && mode / 16 % 2 == 0 && mode / 128 % 2 == 0),
        execute: rules.contains(Rules::EXECUTE_IS_ASKED)
            && !(mode % 2 == 0 && mode / 8 % 2 == 0 && mode / 64 % 2 == 0),
    }
}

/// The head of a new segment: the caller is its owner and creator, its attach and detach times are 0, and its
/// change time is now. It depends neither on the key nor on the caller's pieces.
fn new_head(time: u64, caller: &Caller, size: u64, mode: u16) -> Head
    ensures { result ≡ head_of (flat.new_segment time (caller_seen caller.now []) 0 size mode) }
{
    Head {
        perm: Perm {
            uid: caller.cred.uid,
            gid: caller.cred.gid,
            cuid: caller.cred.uid,
            cgid: caller.cred.gid,
            mode: mode % MODES,
        },
        size,
        cpid: caller.pid,
        lpid: 0,
        dest: false,
        locked: false,
        locker: 0,
        atime: 0,
        dtime: 0,
        ctime: time,
    }
}

// The segment that was found. Eexist: IPC_CREAT and IPC_EXCL are set. Einval: it is too small. Eacces: the
// caller has no permission.
fn get(
    rules: Rules,
    caller: &Caller,
    found: &Found,
    size: u64,
    mode: u16,
    flags: GetFlags,
) -> Result<ShmId, Errno>
    ensures { (s : Machine) (n key : ℕ) → IsFound s.table found.now → s.limits.rules ≡ rules
        → flat.gets s n (caller_seen caller.now s.runners) key size mode flags (look_of s.table found.now)
        ≡ record { reply = replied Id result; state = s } }
{
    if flags.contains(GetFlags::CREAT) && flags.contains(GetFlags::EXCL) {
        return Err(Errno::Eexist);
    }
    if size > found.head.size {
        return Err(Errno::Einval);
    }
    if !grants(&caller.cred, &found.head.perm, wish_of(rules, mode)) {
        return Err(Errno::Eacces);
    }
    Ok(found.id)
}

impl<P: Pager> Kernel<P> {
    #[tactic(auto, using(crate::proofs::Running::kept_refl, crate::proofs::Running::pages_rest))]
    /// The segment with a key; or a new one, if the key is IPC_PRIVATE (0), or if no segment has it and
    /// IPC_CREAT is set (shmget(2)).
    pub(crate) fn shmget(
        &mut self,
        time: u64,
        caller: &Caller,
        key: u32,
        size: u64,
        mode: u16,
        flags: GetFlags,
    ) -> Result<Result<ShmId, Errno>, HostMemory>
        ensures served { let shmget = call.Shmget key size mode flags in
            IfOk result (λ r. Served self.old time caller.now shmget (replied Id r) self.new) }
        ensures memory { let seen = caller_seen caller.now self.old.flat.runners in
            let outcome = flat.shmget self.old.flat time seen key size mode flags in
            OnErr result (IsWithoutMemory outcome self.old self.new) }
    {
        if key == 0 {
            return self.create(time, caller, 0, size, mode, flags);
        }
        match self.segments.find_key(key) {
            Some(found) => Ok(get(self.limits.rules(), caller, &found, size, mode, flags)),
            None if flags.contains(GetFlags::CREAT) => self.create(
                time, caller, key, size, mode, flags,
            ),
            None => Ok(Err(Errno::Enoent)),
        }
    }

    #[tactic(auto, using(crate::proofs::Running::kept_refl, crate::proofs::Running::pages_rest))]
    // A new segment. Einval: the size is 0 or above SHMMAX. Enospc: SHMALL is reached. Then the refusal of
    // huge pages, and those of `create_small`.
    fn create(
        &mut self,
        time: u64,
        caller: &Caller,
        key: u32,
        size: u64,
        mode: u16,
        flags: GetFlags,
    ) -> Result<Result<ShmId, Errno>, HostMemory>
        requires absent { key ≢ 0 → flat_ids.find_key self.old.flat.table key ≡ flat_ids.Invalid }
        ensures created { let seen = caller_seen caller.now self.old.flat.runners in
            let outcome = flat.creates self.old.flat time seen key size mode flags in
            IfOk result (λ r. Answered outcome Rests false false (replied Id r) self.old self.new) }
        ensures memory { let seen = caller_seen caller.now self.old.flat.runners in
            let outcome = flat.creates self.old.flat time seen key size mode flags in
            OnErr result (IsWithoutMemory outcome self.old self.new) }
    {
        if size < 1 || size > self.limits.shmmax() {
            return Ok(Err(Errno::Einval));
        }
        if self.segments.reserved() + pages_of(size) > self.limits.shmall() {
            return Ok(Err(Errno::Enospc));
        }
        if let Some(errno) = self.huge_errno(caller, flags) {
            return Ok(Err(errno));
        }
        self.create_small(time, caller, key, size, mode)
    }

    // Why a segment of huge pages is not made, under `Rules::HUGE_IS_REFUSED`. Eperm: neither user 0 nor
    // group 0. Enomem: there are no huge pages to reserve.
    fn huge_errno(&self, caller: &Caller, flags: GetFlags) -> Option<Errno>
        ensures { let seen = caller_seen caller.now self.now.flat.runners in
            result ≡ flat.huge_errno self.now.flat seen flags }
    {
        if !self.limits.rules().contains(Rules::HUGE_IS_REFUSED)
            || !flags.contains(GetFlags::HUGETLB)
        {
            return None;
        }
        if caller.cred.uid != 0 && caller.cred.gid != 0 {
            return Some(Errno::Eperm);
        }
        if flags.contains(GetFlags::NORESERVE) {
            None
        } else {
            Some(Errno::Enomem)
        }
    }

    #[tactic(auto, using(crate::proofs::Running::kept_refl, crate::proofs::Running::pages_rest))]
    // A new segment whose pages SHMALL allows. Enospc: SHMMNI is reached, or no identifier is left. Enomem:
    // the swap areas could not take all pages.
    fn create_small(
        &mut self,
        time: u64,
        caller: &Caller,
        key: u32,
        size: u64,
        mode: u16,
    ) -> Result<Result<ShmId, Errno>, HostMemory>
        requires absent { key ≢ 0 → flat_ids.find_key self.old.flat.table key ≡ flat_ids.Invalid }
        requires size { (1 ≤ size) × (size ≤ MOST_SHMMAX) }
        requires shmall { reserved self.old.flat.table + pages_of size ≤ self.old.flat.limits.shmall }
        ensures created { let seen = caller_seen caller.now self.old.flat.runners in
            let outcome = flat.creates_small self.old.flat time seen key size mode None in
            IfOk result (λ r. Answered outcome Rests false false (replied Id r) self.old self.new) }
        ensures memory { let seen = caller_seen caller.now self.old.flat.runners in
            let outcome = flat.creates_small self.old.flat time seen key size mode None in
            OnErr result (IsWithoutMemory outcome self.old self.new) }
    {
        if self.segments.count() >= self.limits.shmmni() {
            return Ok(Err(Errno::Enospc));
        }
        let Some(id) = self.segments.next_id() else {
            return Ok(Err(Errno::Enospc));
        };
        if self.segments.reserved() + pages_of(size) > self.segments.store().swap().capacity() {
            return Ok(Err(Errno::Enomem));
        }
        let head = new_head(time, caller, size, mode);
        self.segments.create(id, key, head)?;
        Ok(Ok(id))
    }
}

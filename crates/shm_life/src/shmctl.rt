//! shmctl: stat, set, rmid, lock and unlock.
ghost use Rattle.std.specs.Prelude.{◌≡◌, ℕ, ◌%◌, [], Some, IfOk, IfErr};
ghost use Rattle.shm_base.specs.Callers.{Outcome};
ghost use Rattle.shm_base.specs.Identifier as flat_ids;
ghost use Rattle.shm_base.specs.Locking as locking;
ghost use Rattle.shm_base.specs.Permission as permission;
ghost use Rattle.shm_base.specs.State.{Segment};
ghost use Rattle.shm_base.specs.Step as flat;
ghost use Rattle.shm_attach.specs.Spaces.{caller_seen};
ghost use Rattle.shm_segments.specs.Joined.{segment_of};
ghost use Rattle.shm_segments.specs.Table.{IsFound, look_of, segment_seen};
ghost use Rattle.shm_base.specs.declared.call.Call.TheVariants as call;
ghost use Rattle.shm_base.specs.declared.call.Reply.TheVariants.{Stat, Refused};
ghost use Rattle.shm_life.specs.MachineView.{Served, replied, done};
ghost use Rattle.shm_life.specs.Looking.{refused_by};

use crate::kernel::Kernel;
use crate::sweep::remove;
use bitflags::Flags;
use shm_attach::Caller;
use shm_base::{Cred, Errno, Perm, Rules, ShmId, ShmidDs, Status, Want, grants};
use shm_pager_core::Pager;
use shm_segments::Found;

/// Whether a process may set, remove, lock and unlock: it is the owner, the creator, or user 0.
fn owns(cred: &Cred, perm: &Perm) -> bool
    ensures { result ≡ permission.owns cred.now perm.now }
{
    cred.uid == 0 || cred.uid == perm.uid || cred.uid == perm.cuid
}

fn status_of(found: &Found) -> Status
    ensures { result ≡ record {
      0 = flat.status_of
          (segment_of (record { key = found.now.key; value = found.now.head }) []);
    } }
{
    match (found.head.dest, found.head.locked) {
        (false, false) => Status::empty(),
        (true, false) => Status::DEST,
        (false, true) => Status::LOCKED,
        (true, true) => Status::DEST.union(Status::LOCKED),
    }
}

impl<P: Pager> Kernel<P> {
    /// A segment as `stat` shows it.
    pub(crate) fn shown(&self, found: &Found) -> ShmidDs
        requires { IsFound self.now.flat.table found.now }
        ensures { let segment = segment_seen self.now.flat.table found.now in
            result ≡ flat.shown self.now.flat found.now.seg segment }
    {
        ShmidDs {
            key: found.key,
            perm: found.head.perm,
            status: status_of(found),
            size: found.head.size,
            cpid: found.head.cpid,
            lpid: found.head.lpid,
            nattch: self.spaces.count(found.seg),
            atime: found.head.atime,
            dtime: found.head.dtime,
            ctime: found.head.ctime,
        }
    }

    /// The segment of an identifier that a process names (shmctl(2)). Eidrm: it was destroyed; Einval instead
    /// under `Rules::REMOVED_IS_INVALID`. Einval: the identifier was never issued.
    pub(crate) fn look(&self, id: ShmId) -> Result<Found, Errno>
        ensures found { IfOk result (IsFound self.now.flat.table) }
        ensures ok { IfOk result (λ f. flat_ids.look self.now.flat.table id ≡ look_of self.now.flat.table f) }
        ensures err { let look = flat_ids.look self.now.flat.table id in
            IfErr result (λ e. refused_by self.now.flat.limits.rules look ≡ Some e) }
    {
        match self.segments.look(id) {
            Err(Errno::Eidrm) if self.limits.rules().contains(Rules::REMOVED_IS_INVALID) => {
                Err(Errno::Einval)
            }
            looked => looked,
        }
    }

    /// Shows a segment (IPC_STAT). Einval, Eidrm: as `look`. Eacces: the process has no read permission.
    pub(crate) fn stat(&self, caller: &Caller, id: ShmId) -> Result<ShmidDs, Errno>
        ensures { (n : ℕ) → Served self.now n caller.now (call.Stat id) (replied Stat result) self.now }
    {
        let found = self.look(id)?;
        let want = Want {
            read: true,
            write: false,
            execute: false,
        };
        if !grants(&caller.cred, &found.head.perm, want) {
            return Err(Errno::Eacces);
        }
        Ok(self.shown(&found))
    }

    // The segment that a caller controls. Einval, Eidrm: as `look`. Eperm: the caller does not own it.
    fn controlled(&self, caller: &Caller, id: ShmId) -> Result<Found, Errno>
        ensures found { IfOk result (IsFound self.now.flat.table) }
        ensures ok { let s = self.now.flat in
            IfOk result (λ f. (act : ℕ → Segment → Outcome)
            → flat.controls s (caller_seen caller.now s.runners) act (flat_ids.look s.table id)
            ≡ act (f.seg % 32768) (segment_seen s.table f)) }
        ensures err { let s = self.now.flat in
            IfErr result (λ e. (act : ℕ → Segment → Outcome)
            → flat.controls s (caller_seen caller.now s.runners) act (flat_ids.look s.table id)
            ≡ record { reply = Refused e; state = s }) }
    {
        let found = self.look(id)?;
        if !owns(&caller.cred, &found.head.perm) {
            return Err(Errno::Eperm);
        }
        Ok(found)
    }

    // Whether a segment can't be given to this user or group.
    fn is_no_owner(&self, uid: u32, gid: u32) -> bool
        ensures { result ≡ flat.is_no_owner self.now.flat uid gid }
    {
        self.limits.rules().contains(Rules::NO_LAST_USER) && (uid == u32::MAX || gid == u32::MAX)
    }

    #[tactic(auto, using(crate::proofs::Running::kept_refl, crate::proofs::Running::pages_rest))]
    /// Gives a segment another owner and other permission bits (IPC_SET). Under `Rules::NO_LAST_USER`, Einval
    /// for user or group 2^32 - 1.
    pub(crate) fn set(
        &mut self,
        time: u64,
        caller: &Caller,
        id: ShmId,
        uid: u32,
        gid: u32,
        mode: u16,
    ) -> Result<(), Errno>
        ensures { Served self.old time caller.now (call.Set id uid gid mode) (replied done result) self.new }
    {
        let found = self.controlled(caller, id)?;
        if self.is_no_owner(uid, gid) {
            return Err(Errno::Einval);
        }
        self.segments.set_owner(found.seg, time, uid, gid, mode);
        Ok(())
    }

    #[tactic(auto, using(crate::proofs::Running::kept_refl, crate::proofs::Running::pages_rest, crate::proofs::Running::pages_ended))]
    /// Destroys a segment without pieces, and marks one that has pieces for removal (IPC_RMID).
    pub(crate) fn rmid(&mut self, caller: &Caller, id: ShmId) -> Result<(), Errno>
        ensures { (n : ℕ) → Served self.old n caller.now (call.Rmid id) (replied done result) self.new }
    {
        let found = self.controlled(caller, id)?;
        remove(&mut self.segments, &self.spaces, &found);
        Ok(())
    }

    // Whether MEMLOCK is a limit of this user.
    fn has_own_limit(&self, cred: &Cred) -> bool
        ensures { result ≡ locking.has_own_limit self.now.flat.limits cred.now }
    {
        self.limits.rules().contains(Rules::LOCKS_BY_USER) && cred.uid != 0
    }

    // Whether the user, or all users together, would have locked too many pages.
    fn passes_limit(&self, cred: &Cred, found: &Found) -> bool
        requires { IsFound self.now.flat.table found.now }
        ensures { let limits = self.now.flat.limits in
            let table = self.now.flat.table in
            result ≡ locking.passes_limit limits cred.now table (segment_seen table found.now) }
    {
        let pages = u64::from(found.pages());
        if self.has_own_limit(cred)
            && self.segments.locked_by(cred.uid) + pages > self.limits.memlock()
        {
            return true;
        }
        self.segments.locked() + pages > self.limits.lockable()
    }

    // Why a user may not lock the segment.
    fn lock_refusal(&self, cred: &Cred, found: &Found) -> Option<Errno>
        requires { IsFound self.now.flat.table found.now }
        ensures { let limits = self.now.flat.limits in
            let table = self.now.flat.table in
            result ≡ locking.lock_refusal limits cred.now table (segment_seen table found.now) }
    {
        if self.has_own_limit(cred) && self.limits.memlock() == 0 {
            return Some(Errno::Eperm);
        }
        if !found.head.locked && self.passes_limit(cred, found) {
            return Some(Errno::Enomem);
        }
        None
    }

    #[tactic(auto, using(crate::proofs::Running::kept_refl, crate::proofs::Running::pages_rest))]
    /// Locks a segment's pages (SHM_LOCK). Enomem: all locked segments would have more than MEMLOCK pages.
    ///
    /// Under `Rules::LOCKS_BY_USER` MEMLOCK limits each user but 0. Eperm: MEMLOCK is 0. Enomem: the caller's
    /// user would have locked more than MEMLOCK pages, or fewer than two frames would be left.
    pub(crate) fn lock(&mut self, caller: &Caller, id: ShmId) -> Result<(), Errno>
        ensures { (n : ℕ) → Served self.old n caller.now (call.Lock id) (replied done result) self.new }
    {
        let found = self.controlled(caller, id)?;
        if let Some(errno) = self.lock_refusal(&caller.cred, &found) {
            return Err(errno);
        }
        self.segments.set_locked(found.seg, Some(caller.cred.uid));
        Ok(())
    }

    #[tactic(auto, using(crate::proofs::Running::kept_refl, crate::proofs::Running::pages_rest))]
    /// Unlocks a segment's pages (SHM_UNLOCK).
    pub(crate) fn unlock(&mut self, caller: &Caller, id: ShmId) -> Result<(), Errno>
        ensures { (n : ℕ) → Served self.old n caller.now (call.Unlock id) (replied done result) self.new }
    {
        let found = self.controlled(caller, id)?;
        self.segments.set_locked(found.seg, None);
        Ok(())
    }
}

//! munmap(2) and mprotect(2) of attached memory, and setuid(2). No page moves. Kept out of line, so that other
//! calls do not pay for their stack frames.
ghost use Rattle.std.specs.Prelude.{◌≡◌, ℕ};
ghost use Rattle.shm_base.specs.Mapping.{unmapped_to};
ghost use Rattle.shm_base.specs.declared.call.Call.TheVariants as call;
ghost use Rattle.shm_base.specs.declared.call.Reply.TheVariants.{Done};
ghost use Rattle.shm_attach.specs.Spaces.{IsCaller};
ghost use Rattle.shm_life.specs.MachineView.{Served, replied, done};

use crate::kernel::Kernel;
use crate::sweep::{after_detach, attach_rests};
use shm_attach::Caller;
use shm_base::{Cred, END_ADDRESS, Errno, PAGE_SIZE};
use shm_pager_core::Pager;

/// The end of a range that is to be unmapped. Einval: the address is within a page, the length is 0, or the
/// range ends above the addresses.
fn unmapped_to(addr: u64, len: u64) -> Result<u64, Errno>
    ensures { result ≡ unmapped_to addr len }
{
    if addr % PAGE_SIZE != 0 || len == 0 || addr > END_ADDRESS || len > END_ADDRESS - addr {
        return Err(Errno::Einval);
    }
    Ok(addr + len.div_ceil(PAGE_SIZE) * PAGE_SIZE)
}

impl<P: Pager> Kernel<P> {
    #[tactic(auto, using(crate::proofs::Running::kept_refl, crate::proofs::Running::pages_rest))]
    /// Unmaps a range (munmap(2)). The length is rounded up to whole pages. Pieces in the range are removed,
    /// and those that reach beyond it are cut. Each segment that lost pages gets a detach time and a last pid,
    /// and a marked one is destroyed with its last piece. Under `Rules::REST_IS_ATTACHED` the segments of cut
    /// pieces also get an attach time. A range without pieces changes nothing.
    ///
    /// - Einval: the address is within a page, the length is 0, or the range ends above the addresses.
    /// - Enomem: the process would have more pieces than it may.
    #[inline(never)]
    pub(crate) fn munmap(
        &mut self,
        time: u64,
        caller: &Caller,
        addr: u64,
        len: u64,
    ) -> Result<(), Errno>
        requires { IsCaller caller.now self.old.flat.runners }
        ensures { Served self.old time caller.now (call.Munmap addr len) (replied done result) self.new }
    {
        let to = unmapped_to(addr, len)?;
        let rests = self.spaces.space(caller).rests(addr, to);
        self.spaces.unmap(caller, addr, to)?;
        attach_rests(
            &mut self.segments,
            self.limits.rules(),
            rests.segments(),
            time,
            caller.pid,
        );
        after_detach(
            &mut self.segments,
            &self.spaces,
            self.spaces.lost(),
            time,
            caller.pid,
        );
        Ok(())
    }

    /// Makes a range writable or read-only (mprotect(2)). The length is rounded up to whole pages.
    ///
    /// A part of a piece with another protection is a piece of its own, unless it joins a neighbour of the
    /// same attach that has this protection. Whole pieces never join, and a piece that has the protection
    /// already is not split. No time is set, except under `Rules::REST_IS_ATTACHED`: each segment with one
    /// more piece then gets an attach time and a last pid.
    ///
    /// - Einval: the address is within a page.
    /// - Enomem: a page has no piece, the range passes 2^64, or the process would have more pieces than it
    ///   may.
    /// - Eacces: a piece would become writable whose attach had no write permission.
    ///
    /// Everything below the page that is refused has been changed.
    #[inline(never)]
    pub(crate) fn mprotect(
        &mut self,
        time: u64,
        caller: &Caller,
        addr: u64,
        len: u64,
        writable: bool,
    ) -> Result<(), Errno>
        requires { IsCaller caller.now self.old.flat.runners }
        ensures { let protect = call.Mprotect addr len writable in
            Served self.old time caller.now protect (replied done result) self.new }
    {
        let protected = self.spaces.protect(caller, addr, len, writable);
        attach_rests(
            &mut self.segments,
            self.limits.rules(),
            self.spaces.lost(),
            time,
            caller.pid,
        );
        protected
    }

    /// Gives the caller other ids (setuid(2), setgid(2), exec of a set-user-ID program). Its pieces stay;
    /// later permission tests use the new ids.
    #[inline(never)]
    pub(crate) fn setuid(&mut self, caller: &Caller, uid: u32, gid: u32)
        requires { IsCaller caller.now self.old.flat.runners }
        ensures { (n : ℕ) → Served self.old n caller.now (call.Setuid uid gid) Done self.new }
    {
        self.spaces.set_cred(caller, Cred { uid, gid });
    }
}

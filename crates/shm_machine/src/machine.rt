//! The machine.
ghost use Rattle.std.specs.Prelude.{◌≡◌, ◌⊎◌, true, IfOk, OnOk, IfErr, None, Some, false, MatchOption};
ghost use Rattle.shm_life.specs.Start.{start_error};
ghost use Rattle.shm_life.specs.declared.start.StartError.TheVariants as start;
ghost use Rattle.shm_life.specs.Enlarging.{IsEnlarged};
ghost use Rattle.shm_machine.specs.Opened.{IsOpened, area_made, sizes_of};
ghost use Rattle.shm_base.specs.declared.call.Reply.TheVariants as replies;
ghost use Rattle.shm_base.specs.History.{is_refusal};
ghost use Rattle.shm_machine.specs.Answered.{Answered, as_reply, done, fits};

use crate::opening::{AreaConfig, Failure, pager_for, pagers_for};
use crate::refusal::Refusal;
use shm_base::{Call, Errno, HostMemory, Limits, Process, Reply};
use shm_life::{StartError, System, first_area_error};
use shm_pager::AreaPager;
use std::alloc::Global;

/// A machine over swap areas of any kind. Its `system` has the counts, the listings, the flush rounds, and
/// the changes by its host: processes, reserved ranges, credentials and the time.
pub struct Machine {
    pub system: System<AreaPager>,
}

impl Drop for Machine {
    fn drop(self) {
        let Machine { system: _ } = self;
    }
}

// The error of a refusal, if the reply is one.
fn refused(reply: &Reply) -> Option<Errno>
    ensures { MatchOption result (is_refusal reply.now ≡ false) (λ e. reply.now ≡ replies.Refused e) }
{
    match reply {
        Reply::Refused(errno) => Some(*errno),
        _ => None,
    }
}

impl Machine {
    /// Opens a machine with zeros in each slot of its areas, whose listed reads and writes will fail. A
    /// failure of an area or a side that does not exist has no effect. Refused with the first start error
    /// that applies, or with `HostMemory`. Takes no memory for areas that are refused.
    pub fn open(
        alloc: Global,
        limits: Limits,
        areas: &[AreaConfig],
        failures: &[Failure],
        processes: &[Process],
    ) -> Result<Machine, StartError>
        ensures opened { IfOk result (λ m. IsOpened limits areas.now failures.now processes.now m.system) }
        ensures ok { OnOk result (start_error limits (sizes_of areas.now) processes.now ≡ None) }
        ensures err { IfErr result (λ e. (e ≡ start.HostMemory)
            ⊎ (start_error limits (sizes_of areas.now) processes.now ≡ Some e)) }
    {
        if let Some(error) = first_area_error(&limits, areas, |area| area.slots) {
            return Err(error);
        }
        let Ok(pagers) = pagers_for(alloc, areas, failures) else {
            return Err(StartError::HostMemory);
        };
        let system = System::start(alloc, limits, pagers, processes)?;
        Ok(Machine { system })
    }

    /// Adds a swap area of zeros with the next number, as swapon(8) does; no process calls this. Each failure is
    /// one of its calls, and its `area` is 0. A failure of another area, or of a side that the area does not
    /// have, has no effect. Refused as [`System::area_refusal`] says, or with `HostMemory`; then nothing
    /// changed.
    pub fn add_area(
        &mut self,
        alloc: Global,
        area: &AreaConfig,
        failures: &[Failure],
    ) -> Result<(), StartError>
        ensures { IsEnlarged area.now.slots (area_made failures.now 0 area.now) self.old.system result
            self.new.system }
    {
        if let Some(refusal) = self.system.area_refusal(area.slots) {
            return Err(refusal);
        }
        let Ok(pager) = pager_for(alloc, 0, area, failures) else {
            return Err(StartError::HostMemory);
        };
        self.system.add_area(alloc, pager)
    }

    /// A snapshot: another machine with the same state and memory, whose areas fail at the same calls.
    /// Afterwards the two are independent. HostMemory: the host refused memory.
    pub fn try_clone(&self) -> Result<Machine, HostMemory>
        ensures { IfOk result (λ copy. copy.system ≡ self.now.system) }
    {
        Ok(Machine {
            system: self.system.try_clone()?,
        })
    }

    // Makes a call, and separates the refusals from the other replies.
    pub(crate) fn answer(&mut self, pid: u32, call: &Call) -> Result<Reply, Refusal>
        ensures answered { Answered self.old.system pid call.now result self.new.system }
        ensures fits { IfOk result (λ r. fits call.now r ≡ true) }
    {
        if self.system.calls() == u64::MAX {
            return Err(Refusal::Spent);
        }
        match self.system.call(pid, call) {
            Ok(reply) => match refused(&reply) {
                Some(errno) => Err(Refusal::Refused(errno)),
                None => Ok(reply),
            },
            Err(HostMemory) => Err(Refusal::HostMemory),
        }
    }

    /// Makes one of the calls whose reply has no value: shmdt(2), the changes of shmctl(2), a store, fork,
    /// exec, exit, swapoff(2), munmap(2), mprotect(2) and setuid(2).
    pub fn perform(&mut self, pid: u32, call: &Call) -> Result<(), Refusal>
        requires { fits call.now replies.Done ≡ true }
        ensures { Answered self.old.system pid call.now (as_reply done result) self.new.system }
    {
        match self.answer(pid, call)? {
            Reply::Done => Ok(()),
            _ => unreachable!(),
        }
    }
}

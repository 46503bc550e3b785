//! A machine with its swap areas, its opening, and its count of calls.
ghost use Rattle.std.specs.Prelude.{◌≡◌, ◌<◌, length, map, IfOk, IfErr, OnOk, OnErr, None};
ghost use Rattle.shm_life.specs.Start.{start_error, IsFirstError};
ghost use Rattle.shm_slots.specs.View.{fresh, AreCountsOf};
ghost use Rattle.shm_pager_core.specs.Pages.{pager_seen};
ghost use Rattle.shm_fault.specs.Flushing.{IsFlushed};
ghost use Rattle.shm_life.specs.MachineView.{KeepsOn, IsExactly};
ghost use Rattle.shm_life.specs.SystemState.{IsStarted, IsOutOfMemory, Replied, most_calls, time_of};
ghost use Rattle.shm_life.specs.Counts.{Counts};
ghost use Rattle.shm_life.specs.Listed.{segment_at};

use crate::changing::{COUNTS, count_call};
use crate::kernel::Kernel;
use crate::start::{StartError, first_error};
use shm_attach::Spaces;
use shm_base::{Call, FlushReport, HostMemory, Limits, Process, Reply, ShmId, ShmidDs, Tally};
use shm_pager_core::Pager;
use shm_segments::Segments;
use shm_slots::Swap;
use std::alloc::{AllocError, Global};
use std::marker::Model;

/// What a machine starts with: its limits, the slot counts of its swap areas, and its processes.
pub struct Opening {
    pub limits: Limits,
    pub areas: Vec<u32>,
    pub processes: Vec<Process>,
}

impl Drop for Opening {
    fn drop(self) {
        let Opening {
            limits: _,
            areas: _,
            processes: _,
        } = self;
    }
}

impl Model for Opening {
    ghost use Rattle.shm_base.specs.State.{Opening as Flat};

    ghost Value = { Flat };

    ghost view = { λ o. record { limits = o.limits; areas = o.areas.items; processes = o.processes.items } };
}

/// A machine over swap areas. Contracts see its opening, its count of calls, its counts of changes of pieces,
/// the time that the host gave, and the flat machine.
pub struct System<P: Pager> {
    pub(crate) opening: Opening,
    pub(crate) calls: u64,
    // The time that calls note, if the host gave one.
    pub(crate) clock: Option<u64>,
    // How often the pieces of processes may have changed; see `changing`.
    pub(crate) changes: [u64; COUNTS],
    pub(crate) kernel: Kernel<P>,
}

impl<P: Pager> Drop for System<P> {
    fn drop(self) {
        let System {
            opening: _,
            calls: _,
            clock: _,
            changes: _,
            kernel: _,
        } = self;
    }
}

impl<P: Pager> Model for System<P> {
    ghost use Rattle.shm_life.specs.SystemState.{SystemState};

    ghost Value = { SystemState };

    ghost view = { λ s. record {
      opening = s.opening;
      calls = s.calls;
      clock = s.clock;
      changes = s.changes;
      machine = s.kernel.flat;
      memory = s.kernel.memory;
    } };
}

// The slot counts of the areas.
fn sizes_of<P: Pager>(alloc: Global, pagers: &[P]) -> Result<Vec<u32>, AllocError>
    ensures { IfOk result (λ v. v.items ≡ map (λ p. length (P.content p)) pagers.now) }
{
    let mut sizes = Vec::with_capacity(alloc, pagers.len())?;
    for pager in pagers {
        sizes.push(pager.slots())?;
    }
    Ok(sizes)
}

impl<P: Pager> System<P> {
    /// Opens a machine; the pagers give the slot counts of the areas. Reads and writes nothing: pages and
    /// counts of the pagers are those that were passed in. Refused with the first start error that applies;
    /// the pagers are dropped then.
    pub fn start(
        alloc: Global,
        limits: Limits,
        pagers: Vec<P>,
        processes: &[Process],
    ) -> Result<System<P>, StartError>
        ensures started { let sizes = map (λ p. length (P.content p)) pagers.items in
            let areas = map (λ p. fresh (pager_seen P.content P.failed P.most P.calls p)) pagers.items in
            IfOk result (λ s. IsStarted limits sizes areas processes.now s) }
        ensures ok { let sizes = map (λ p. length (P.content p)) pagers.items in
            OnOk result (start_error limits sizes processes.now ≡ None) }
        ensures err { let sizes = map (λ p. length (P.content p)) pagers.items in
            IfErr result (λ e. IsFirstError e (start_error limits sizes processes.now)) }
    {
        if let Some(error) = first_error(alloc, &limits, &pagers, processes) {
            return Err(error);
        }
        match System::open(alloc, limits, pagers, processes) {
            Ok(system) => Ok(system),
            Err(_) => Err(StartError::HostMemory),
        }
    }

    // A machine over these areas and processes.
    fn open(
        alloc: Global,
        limits: Limits,
        pagers: Vec<P>,
        processes: &[Process],
    ) -> Result<System<P>, HostMemory>
        requires none { let sizes = map (λ p. length (P.content p)) pagers.items in
            start_error limits sizes processes.now ≡ None }
        ensures { let sizes = map (λ p. length (P.content p)) pagers.items in
            let areas = map (λ p. fresh (pager_seen P.content P.failed P.most P.calls p)) pagers.items in
            IfOk result (λ s. IsStarted limits sizes areas processes.now s) }
    {
        // Reading the limits tells the proof their ranges.
        let (_, _) = (limits.shmall(), limits.lockable());
        let (_, _) = (limits.most_processes(), limits.most_slots());
        let opening = Opening {
            limits,
            areas: sizes_of(alloc, &pagers)?,
            processes: Vec::from_slice(alloc, processes)?,
        };
        let kernel = Kernel {
            limits,
            segments: Segments::new(alloc, limits.frames() as u32, Swap::new(alloc, pagers)?)?,
            spaces: Spaces::new(alloc, processes, limits.most_pieces())?,
            host_ranges: Vec::new(alloc),
        };
        Ok(System {
            opening,
            calls: 0,
            clock: None,
            changes: [0; COUNTS],
            kernel,
        })
    }

    /// The number of calls that got a reply.
    pub fn calls(&self) -> u64
        ensures { result ≡ self.now.calls }
    {
        self.calls
    }

    /// The machine's limits.
    pub fn limits(&self) -> Limits
        ensures { result ≡ self.now.machine.limits }
    {
        self.kernel.limits
    }

    /// What the machine started with.
    pub fn opening(&self) -> &Opening
        ensures { result.now ≡ self.now.opening }
    {
        &self.opening
    }

    // The time of the next call.
    #[inline(always)]
    pub(crate) fn time(&self) -> u64
        requires room { self.now.calls < most_calls }
        ensures { result ≡ time_of self.now }
    {
        match self.clock {
            Some(time) => time,
            None => self.calls + 1,
        }
    }

    /// One call of a process, at the host's time or else at its place among the calls. If a pager fails, the
    /// reply names the failure instead of the flat machine's reply, and the flat machine does not change.
    /// HostMemory: the host refused memory; nothing changed, and the call is not counted. It occurs only for
    /// a call that takes memory and that the flat machine does not refuse.
    pub fn call(&mut self, pid: u32, call: &Call) -> Result<Reply, HostMemory>
        requires room { self.old.calls < most_calls }
        ensures ok { IfOk result (λ r. Replied self.old pid call.now r self.new) }
        ensures err { OnErr result (IsOutOfMemory self.old pid call.now self.new) }
    {
        let mut reply = Reply::Done;
        self.call_into(pid, call, &mut reply)?;
        Ok(reply)
    }

    #[tactic(auto, using(crate::proofs::Running::kept_refl, crate::proofs::Running::pages_rest))]
    /// As [`System::call`], but writes the reply to `reply`, which is unknown after HostMemory. A reply has
    /// 80 bytes, which every function that returns it would clear and copy.
    #[inline(always)]
    pub fn call_into(&mut self, pid: u32, call: &Call, reply: &mut Reply) -> Result<(), HostMemory>
        requires room { self.old.calls < most_calls }
        ensures ok { OnOk result (Replied self.old pid call.now reply.new self.new) }
        ensures err { OnErr result (IsOutOfMemory self.old pid call.now self.new) }
    {
        let time = self.time();
        self.kernel.call(time, pid, call, reply)?;
        self.calls += 1;
        count_call(&mut self.changes, pid, call);
        Ok(())
    }

    /// Writes the first `n` dirty frames of segments that are not locked to their slots. The flat machine
    /// does not change.
    pub fn flush(&mut self, n: u64) -> FlushReport
        ensures rest { self.new ≡ record self.old { memory = self.new.memory } }
        ensures flushed { IsFlushed self.old.memory self.new.memory n result }
        ensures keeps { KeepsOn self.old.memory self.new.memory }
    {
        self.kernel.segments.flush(n)
    }

    /// The present counts of the machine, and what its pagers did.
    pub fn tally(&self) -> Tally
        ensures counts { Counts self.now.calls self.now.machine self.now.memory result }
        ensures counted { AreCountsOf P.failed self.now.memory.swap }
        ensures exact { IsExactly self.now.machine self.now.memory }
    {
        let pages = self.store().tally();
        let kernel = &self.kernel;
        Tally {
            events: self.calls,
            segments: kernel.segments.count(),
            reserved: kernel.segments.reserved(),
            locked: kernel.segments.locked(),
            frames: kernel.limits.frames(),
            resident: pages.resident,
            dirty: pages.dirty,
            slots: pages.slots,
            used: pages.used,
            ins: pages.ins,
            outs: pages.outs,
            failures: pages.failures,
        }
    }

    /// The number of indexes of the table that were ever used.
    pub fn indexes(&self) -> u32
        ensures { result ≡ length self.now.machine.table }
    {
        self.kernel.segments.indexes()
    }

    /// The segment at an index of the table, as `stat` shows it, without a permission test. None if the index
    /// has no segment.
    pub fn segment(&self, index: u32) -> Option<(ShmId, ShmidDs)>
        ensures { result ≡ segment_at self.now.machine index }
    {
        let found = self.kernel.segments.at(index)?;
        Some((found.id, self.kernel.shown(&found)))
    }
}

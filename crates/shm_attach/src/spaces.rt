//! The pieces of all processes.
ghost use Rattle.std.specs.Prelude.{◌≡◌, ◌≢◌, ◌↔◌, ◌≤◌, length, true, map, [], None, Some, IfSome, IfNone, IfOk, OnErr, All, AllPairs};
ghost use Rattle.shm_base.specs.State.{life_at_start, runner_at_start};
ghost use Rattle.shm_base.specs.Segments.{attach_count};
ghost use Rattle.shm_base.specs.Callers.{caller_from};
ghost use Rattle.shm_base.specs.Step.{unborn_from};
ghost use Rattle.shm_base.specs.declared.call.Process.{Process as Declared};
ghost use Rattle.shm_base.specs.declared.bounds.TheConstants.{MOST_PIECES, MOST_PROCESSES};
ghost use Rattle.shm_attach.specs.Views.{life_view};
ghost use Rattle.shm_fault.specs.Store.{StoreView};
ghost use Rattle.shm_fault.specs.Access.{NameFrames};
ghost use Rattle.shm_fault.specs.Steps.{MovesLead};
ghost use Rattle.shm_areas.specs.Arranged.{bare_all};
ghost use Rattle.shm_attach.specs.Spaces.{IsCaller, IsOnlyAt, Translation, AreTrue, pieces_at};
ghost use Rattle.shm_attach.specs.Spans.{wanted, pieces_by, AreSpans};

use crate::changes::space_at;
use crate::lost::Lost;
use crate::process::{Caller, Child, Life, Runner};
use crate::spans::{Segv, Spans, spans_in};
use crate::tables::Tables;
use indexmap::IndexMap;
use shm_areas::Space;
use shm_base::{HostMemory, Process};
use shm_fault::PageMove;
use std::alloc::Global;
use std::marker::Model;

/// The processes in the order of their declaration, each with its pieces; the attach count of each segment;
/// and the translations: for each page of each attached segment its frame, or none.
pub struct Spaces {
    pub(crate) processes: IndexMap<u32, Runner>,
    pub(crate) tables: Tables,
    pub(crate) lost: Lost,
    // The most pieces of a process.
    pub(crate) most: u32,
    // The index at which the last caller was found. Another process, or none, may be there now.
    pub(crate) last: usize,
}

impl Drop for Spaces {
    fn drop(self) {
        let Spaces {
            processes: _,
            tables: _,
            lost: _,
            most: _,
            last: _,
        } = self;
    }
}

impl Model for Spaces {
    ghost use Rattle.std.specs.Prelude.{◌≡◌};
    ghost use Rattle.shm_attach.specs.Views.{runners_view, HaveRoom};
    ghost use Rattle.shm_attach.specs.Spaces.{SpacesView};
    ghost use Rattle.shm_attach.specs.Exact.{AreTablesSound, no_reservations};
    ghost use Rattle.shm_attach.specs.Table.{translations_of};

    ghost Value = { SpacesView };

    ghost view = { λ s. record {
      runners = runners_view s.processes.entries;
      translations = translations_of s.tables.slab;
      most = s.most;
      lost = s.lost.segments;
    } };

    ghost invariant = { λ s. AreTablesSound no_reservations s.processes.entries s.tables
        × HaveRoom s.most s.processes.entries × (s.lost.most ≡ s.most) };
}

/// The state in which a process begins.
pub(crate) fn born(process: &Process) -> Life
    ensures { life_view result ≡ life_at_start process.now.born }
{
    match process.born {
        Some(cred) => Life::Live(cred),
        None => Life::Unborn,
    }
}

impl Spaces {
    /// The processes as they are declared, without pieces. Takes memory for the most pieces of each.
    /// HostMemory: the host refused memory.
    pub fn new(alloc: Global, processes: &[Process], most: u32) -> Result<Spaces, HostMemory>
        requires most { most ≤ MOST_PIECES }
        requires few { length processes.now ≤ MOST_PROCESSES }
        requires apart { AllPairs (λ (p q : Declared). p.pid ≢ q.pid) processes.now }
        ensures runners { IfOk result (λ s. s.runners ≡ map runner_at_start processes.now) }
        ensures translations { IfOk result (λ s. s.translations ≡ []) }
        ensures most { IfOk result (λ s. s.most ≡ most) }
    {
        let lost = Lost::new(alloc, most)?;
        let mut by_pid = IndexMap::new(alloc);
        for process in processes {
            let space = Space::new(alloc, most)?;
            let life = born(process);
            by_pid.insert(process.pid, Runner { life, space })?;
        }
        Ok(Spaces {
            processes: by_pid,
            tables: Tables::new(alloc),
            lost,
            most,
            last: 0,
        })
    }

    /// The live process with a pid.
    #[inline(always)]
    pub fn caller(&self, pid: u32) -> Option<Caller>
        ensures pid { IfSome result (λ c. c.pid ≡ pid) }
        ensures live { IfSome result (λ c. IsCaller c self.now.runners) }
        ensures none { IfNone result (caller_from 0 pid self.now.runners ≡ None) }
    {
        let (index, _, runner) = self.processes.get_full(&pid)?;
        match runner.life {
            Life::Live(cred) => Some(Caller { index, pid, cred }),
            _ => None,
        }
    }

    // The live process at an index, if it has the pid.
    #[inline(always)]
    fn caller_at(&self, index: usize, pid: u32) -> Option<Caller>
        ensures pid { IfSome result (λ c. c.pid ≡ pid) }
        ensures live { IfSome result (λ c. IsCaller c self.now.runners) }
    {
        let (key, runner) = self.processes.as_slice().get_index(index)?;
        if *key != pid {
            return None;
        }
        let Life::Live(cred) = runner.life else {
            return None;
        };
        Some(Caller { index, pid, cred })
    }

    // Searches the live process with a pid, and keeps its index.
    #[inline(never)]
    fn find_caller(&mut self, pid: u32) -> Option<Caller>
        ensures pid { IfSome result (λ c. c.pid ≡ pid) }
        ensures live { IfSome result (λ c. IsCaller c self.new.runners) }
        ensures none { IfNone result (caller_from 0 pid self.new.runners ≡ None) }
        ensures same { self.new ≡ self.old }
    {
        let caller = self.caller(pid)?;
        self.last = caller.index;
        Some(caller)
    }

    /// As [`Spaces::caller`]. If the same process calls again, it is found without a search.
    #[inline(always)]
    pub fn caller_again(&mut self, pid: u32) -> Option<Caller>
        ensures pid { IfSome result (λ c. c.pid ≡ pid) }
        ensures live { IfSome result (λ c. IsCaller c self.new.runners) }
        ensures none { IfNone result (caller_from 0 pid self.new.runners ≡ None) }
        ensures same { self.new ≡ self.old }
    {
        match self.caller_at(self.last, pid) {
            Some(caller) => Some(caller),
            None => self.find_caller(pid),
        }
    }

    /// The child with this pid, if it was declared and is not born yet.
    pub fn child(&self, pid: u32) -> Option<Child>
        ensures pid { IfSome result (λ c. c.pid ≡ pid) }
        ensures unborn { IfSome result (λ c. unborn_from 0 c.pid self.now.runners ≡ Some c.index) }
        ensures none { IfNone result (unborn_from 0 pid self.now.runners ≡ None) }
    {
        let (index, _, runner) = self.processes.get_full(&pid)?;
        match runner.life {
            Life::Unborn => Some(Child { index, pid }),
            _ => None,
        }
    }

    /// The address space of a live process.
    pub fn space(&self, caller: &Caller) -> &Space
        requires { IsCaller caller.now self.now.runners }
        ensures pieces { bare_all result.now.pieces ≡ pieces_at self.now.runners caller.now.index }
        ensures most { result.now.most ≡ self.now.most }
    {
        space_at(&self.processes, caller.index)
    }

    /// How many pieces of all processes belong to the segment (shm_nattch). The number is stored.
    pub fn count(&self, seg: u32) -> u32
        ensures value { result ≡ attach_count self.now.runners seg }
        ensures unnamed { result ≡ 0 → All (λ (t : Translation). t.seg ≢ seg) self.now.translations }
    {
        self.tables.count(seg)
    }

    /// Whether no other segment with this segment's index is attached. Of the segments that exist at the same
    /// time, no two have one index.
    pub fn is_only_at(&self, seg: u32) -> bool
        ensures { (result ≡ true) ↔ IsOnlyAt seg (attach_count self.now.runners) }
    {
        self.tables.is_only_at(seg)
    }

    /// The spans of an access to `len` addresses of a process, each with the frame that is kept for its page.
    /// Segv: the process is not live, an address has no piece, or a write meets a read-only piece.
    pub fn spans(&self, pid: u32, addr: u64, len: u64, write: bool) -> Result<Spans, Segv>
        requires size { (1 ≤ len) × (len ≤ 4096) }
        ensures spans { IfOk result (λ s. AreSpans write (pieces_by pid self.now.runners) addr len s) }
        ensures none { OnErr result (wanted write pid addr len self.now.runners ≡ None) }
        ensures frames { IfOk result (λ s. (m : StoreView) → AreTrue self.now.translations m
            → NameFrames m s) }
    {
        match self.caller(pid) {
            Some(caller) => self.spans_of(&caller, addr, len, write),
            None => Err(Segv),
        }
    }

    /// As [`Spaces::spans`], for a process that is known to be live.
    #[inline(always)]
    pub fn spans_of(&self, caller: &Caller, addr: u64, len: u64, write: bool) -> Result<Spans, Segv>
        requires live { IsCaller caller.now self.now.runners }
        requires size { (1 ≤ len) × (len ≤ 4096) }
        ensures spans { IfOk result (λ s.
            AreSpans write (pieces_by caller.now.pid self.now.runners) addr len s) }
        ensures none { OnErr result (wanted write caller.now.pid addr len self.now.runners ≡ None) }
        ensures frames { IfOk result (λ s. (m : StoreView) → AreTrue self.now.translations m
            → NameFrames m s) }
    {
        let space = space_at(&self.processes, caller.index);
        spans_in(space, &self.tables, addr, len, write)
    }

    /// The segments that the last change of pieces concerns, in order of the pieces' bases. After an attach,
    /// an unmap, an exec or an exit these are the segments that lost pages, once for each piece that was
    /// removed or cut. After a protect, refused or not, they are the segments of split pieces, once for each
    /// additional piece. Other calls leave the list as it is, and so does an attach or an unmap that fails.
    pub fn lost(&self) -> &[u32]
        ensures value { result.now ≡ self.now.lost }
        ensures few { length result.now ≤ MOST_PIECES }
    {
        self.lost.segments()
    }

    /// Notes the frames of pages that moved, in order, for all pieces at once. Takes no memory.
    #[inline(always)]
    pub fn note(&mut self, moved: &[PageMove])
        ensures runners { self.new.runners ≡ self.old.runners }
        ensures most { self.new.most ≡ self.old.most }
        ensures translated { (m n : StoreView) → AreTrue self.old.translations m → MovesLead moved.now m n
            → AreTrue self.new.translations n }
    {
        self.tables.note(moved);
    }
}

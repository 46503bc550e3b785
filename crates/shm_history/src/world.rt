//! A system with the history of its calls.
//!
//! The invariant of the type: the history is legal on the flat machine from the opening, and leads to the
//! machine that the system shows. A call and its reply are recorded together or not at all.
ghost use Rattle.std.specs.Prelude.{◌≡◌, ◌+◌, ◌-◌, ◌<◌, ◌≤◌, [], ◌++◌, length, drop, vec_len, vec_capacity, IfOk, OnOk, OnErr, IsOk, All, true, false};
ghost use Rattle.shm_base.specs.History.{IsHistory, is_refusal};
ghost use Rattle.shm_base.specs.Step.{step};
ghost use mathlib.Core.List.{IsPrefix};
ghost use Rattle.shm_slots.specs.View.{AreCountsOf};
ghost use Rattle.shm_fault.specs.Flushing.{IsFlushed};
ghost use Rattle.shm_life.specs.MachineView.{IsExactly, KeepsOn};
ghost use Rattle.shm_base.specs.Memory.{TakesNoMemory};
ghost use Rattle.shm_life.specs.Listed.{segment_at};
ghost use Rattle.shm_life.specs.SystemState.{IsAtOpening};
ghost use Rattle.shm_history.specs.WorldState.{tally_of, AreCounted, calls_of, step_calls, IsCalled, IsRun, RunTo, MayStop, StopsIn, StepTakesNone};

use shm_base::{Call, Event, FlushReport, HostMemory, Reply, ShmId, ShmidDs, Step, Tally};
use shm_life::{Opening, System};
use shm_pager_core::Pager;
use std::alloc::Global;
use std::marker::Model;

/// A system with its history, which is legal.
pub struct World<P: Pager> {
    system: System<P>,
    history: Vec<Event>,
}

impl<P: Pager> Drop for World<P> {
    fn drop(self) {
        let World {
            system: _,
            history: _,
        } = self;
    }
}

impl<P: Pager> Model for World<P> {
    ghost use Rattle.std.specs.Prelude.{◌≡◌, ◌-◌, length, vec_capacity, vec_len, true, None};
    ghost use Rattle.shm_base.specs.History.{IsHistory};
    ghost use Rattle.shm_life.specs.Listed.{segment_at};
    ghost use Rattle.shm_history.specs.WorldState.{WorldState, AreCounted};

    ghost Value = { WorldState };

    ghost view = { λ w. record {
      opening = w.system.opening;
      events = w.history.items;
      machine = w.system.machine;
      memory = w.system.memory;
      room = vec_capacity w.history - vec_len w.history;
    } };

    ghost invariant = { λ w. (w.system.calls ≡ length w.history.items)
        × IsHistory w.system.opening w.history.items w.system.machine
        × AreCounted w.history.items w.system.memory.swap × (w.system.clock ≡ None) };
}

// Makes room for one more event, if there is none.
#[inline(always)]
fn make_room(history: &mut Vec<Event>) -> Result<(), HostMemory>
    ensures items { history.new.items ≡ history.old.items }
    ensures room { OnOk result (vec_len history.new < vec_capacity history.new) }
    ensures grows { vec_capacity history.old ≤ vec_capacity history.new }
    ensures no_memory { vec_len history.old < vec_capacity history.old → IsOk result }
{
    if history.len() == history.capacity() {
        history.reserve(1)?;
    }
    Ok(())
}

impl<P: Pager> World<P> {
    #[tactic(auto, using(crate::proofs::Counted::counted_none))]
    /// A world without events, over a system as it started.
    pub fn new(alloc: Global, system: System<P>) -> World<P>
        requires new { IsAtOpening system }
        ensures opening { result.opening ≡ system.opening }
        ensures events { result.events ≡ [] }
        ensures machine { result.machine ≡ system.machine }
        ensures memory { result.memory ≡ system.memory }
    {
        World {
            system,
            history: Vec::new(alloc),
        }
    }

    /// The opening of its machine.
    pub fn opening(&self) -> &Opening
        ensures { result.now ≡ self.now.opening }
    {
        self.system.opening()
    }

    /// The system of this world, to read its machine and its memory.
    pub fn system(&self) -> &System<P>
        ensures opening { result.now.opening ≡ self.now.opening }
        ensures machine { result.now.machine ≡ self.now.machine }
        ensures memory { result.now.memory ≡ self.now.memory }
    {
        &self.system
    }

    /// The calls so far with their replies. They are legal and lead to the machine, and the memory shows that
    /// machine exactly. If no area was ever spent, at most as many replies name a pager's failure as failures
    /// were counted.
    pub fn history(&self) -> &[Event]
        ensures events { result.now ≡ self.now.events }
        ensures legal { IsHistory self.now.opening self.now.events self.now.machine }
        ensures counted { AreCounted self.now.events self.now.memory.swap }
        ensures exact { IsExactly self.now.machine self.now.memory }
    {
        // What the store promises: the memory is exact.
        prove!({
            let _ = self.system.store();
            true
        });
        self.history.as_slice()
    }

    /// The segment at an index of the table, as `stat` shows it, without a permission test. None if the index
    /// has no segment.
    pub fn segment(&self, index: u32) -> Option<(ShmId, ShmidDs)>
        ensures { result ≡ segment_at self.now.machine index }
    {
        self.system.segment(index)
    }

    /// How many calls can be recorded before the history needs memory.
    pub fn room(&self) -> usize
        ensures { result ≡ self.now.room }
    {
        self.history.capacity() - self.history.len()
    }

    /// Makes room for this many calls. HostMemory: the host refused memory.
    pub fn reserve(&mut self, count: usize) -> Result<(), HostMemory>
        ensures ok { OnOk result (count ≤ self.new.room) }
        ensures grows { self.old.room ≤ self.new.room }
        ensures rest { self.new ≡ record self.old { room = self.new.room } }
    {
        self.history.reserve(count)?;
        Ok(())
    }

    /// Makes one call and records it with its reply. HostMemory: the host refused memory; nothing is
    /// recorded, and nothing changed except the room. With room left, that occurs only for calls that take
    /// memory and that the flat machine does not refuse.
    pub fn call(&mut self, pid: u32, call: &Call) -> Result<Reply, HostMemory>
        ensures called { IfOk result (λ r. IsCalled self.old pid call.now r self.new) }
        ensures err { OnErr result (self.new ≡ record self.old { room = self.new.room }) }
        ensures memory { OnErr result
            (0 < self.old.room
            → is_refusal (step self.old.machine (length self.old.events + 1) pid call.now).reply ≡ false) }
        ensures no_memory { TakesNoMemory call.now → 0 < self.old.room → IsOk result }
        ensures room { OnErr result (self.old.room ≤ self.new.room) }
    {
        make_room(&mut self.history)?;
        // What the store promises: the memory is exact before the call too.
        prove!({
            let _ = self.system.store();
            true
        });
        // The reply is written straight into the event.
        let place = self.history.len();
        self.history.push_reserved(Event {
            pid,
            call: *call,
            reply: Reply::Done,
        });
        let event = &mut self.history[place];
        if let Err(refused) = self.system.call_into(pid, call, &mut event.reply) {
            self.history.truncate(place);
            return Err(refused);
        }
        Ok(self.history[place].reply)
    }

    /// A flush round: writes the first `pages` dirty frames of segments that are not locked to their slots.
    /// It is not an event, and changes only the memory.
    pub fn flush(&mut self, pages: u64) -> FlushReport
        ensures rest { self.new ≡ record self.old { memory = self.new.memory } }
        ensures flushed { IsFlushed self.old.memory self.new.memory pages result }
        ensures keeps { KeepsOn self.old.memory self.new.memory }
    {
        self.system.flush(pages)
    }

    /// The present counts of the machine and of its pagers' work.
    pub fn tally(&self) -> Tally
        ensures counts { result ≡ tally_of self.now }
        ensures counted { AreCountsOf P.failed self.now.memory.swap }
        ensures exact { IsExactly self.now.machine self.now.memory }
    {
        self.system.tally()
    }

    // One step. HostMemory: the host refused memory for a step that may take some; nothing changed except the
    // room, which does not shrink.
    fn run_step(&mut self, step: &Step) -> Result<(), HostMemory>
        ensures ran { OnOk result (IsRun self.old step.now self.new) }
        ensures stopped { OnErr result (self.new ≡ record self.old { room = self.new.room }) }
        ensures may_stop { OnErr result (MayStop self.old step.now) }
        ensures room { OnErr result (self.old.room ≤ self.new.room) }
    {
        match step {
            Step::Call(pid, call) => {
                let _reply = self.call(*pid, call)?;
            }
            Step::Flush(pages) => {
                let _report = self.flush(*pages);
            }
        }
        Ok(())
    }

    /// Runs the steps in order. HostMemory: stops at the first step for which the host refuses memory, and
    /// keeps the steps before it. Only a recorded call takes room, for one event. If there is room for every
    /// call and no call takes memory, all steps run.
    pub fn run_steps(&mut self, steps: &[Step]) -> Result<(), HostMemory>
        ensures steps { OnOk result (RunTo self.old steps.now self.new) }
        ensures stopped { OnErr result (StopsIn self.old steps.now self.new) }
        ensures no_memory { All StepTakesNone steps.now → length (step_calls steps.now) ≤ self.old.room
            → IsOk result }
        ensures ran { OnOk result
            (calls_of self.new.events ≡ calls_of self.old.events ++ step_calls steps.now) }
        ensures part { IsPrefix (calls_of self.new.events)
            (calls_of self.old.events ++ step_calls steps.now) }
        ensures kept { self.new.events ≡ self.old.events ++ drop (length self.old.events) self.new.events }
        ensures opening { self.new.opening ≡ self.old.opening }
    {
        for step in steps {
            self.run_step(step)?;
        }
        Ok(())
    }
}

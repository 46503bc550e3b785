//! Runs of a script along a schedule.
ghost use Rattle.std.specs.Prelude.{◌≡◌, IfOk};
ghost use Rattle.shm_schedules.specs.Schedules.{after, fresh, goes, next, walked};

use crate::engine::Engine;
use crate::lines::next_call;
use shm_base::{Call, Event, HostMemory, has_pid};
use shm_text::Script;
use std::alloc::{AllocError, Global};
use std::marker::Model;

/// A run of a script so far: the calls with their replies, and the machine after them.
pub struct Run<M: Engine> {
    machine: Box<M>,
    events: Vec<Event>,
}

impl<M: Engine> Drop for Run<M> {
    fn drop(self) {
        let Run {
            machine: _,
            events: _,
        } = self;
    }
}

impl<M: Engine> Model for Run<M> {
    ghost use Rattle.std.specs.Prelude.{◌≡◌, length};
    ghost use Rattle.shm_schedules.specs.Schedules.{Run};

    ghost Value = { Run };

    ghost view = { λ n. record { machine = M.flat n.machine.value; events = n.events.items } };

    ghost invariant = { λ n. M.calls n.machine.value ≡ length n.events.items };
}

impl<M: Engine> Run<M> {
    /// The run before its first line, on a machine that has made no call. AllocError: the host refused memory.
    pub fn first(alloc: Global, machine: M) -> Result<Run<M>, AllocError>
        requires { M.calls machine ≡ 0 }
        ensures { IfOk result (λ run. run ≡ fresh (M.flat machine)) }
    {
        let machine = Box::new(alloc, machine)?;
        Ok(Run {
            machine,
            events: Vec::new(alloc),
        })
    }

    /// The calls with their replies, in order.
    pub fn events(&self) -> &[Event]
        ensures { result.now ≡ self.now.events }
    {
        self.events.as_slice()
    }

    /// The calls with their replies, of a run that is not needed any more.
    pub fn into_events(self) -> Vec<Event>
        ensures { result.items ≡ self.events }
    {
        let Run { machine: _, events } = self;
        events
    }

    /// The call that a process makes next. None: the script does not declare it, it is not born yet or has ended,
    /// or it has no line left.
    pub fn next(&self, script: &Script, pid: u32) -> Option<Call>
        ensures { result ≡ next script.now self.now pid }
    {
        if !has_pid(&script.processes, pid) || !self.machine.is_live(pid) {
            return None;
        }
        next_call(&script.lines, pid, &self.events)
    }

    /// The run after the next line of a process; none if the process can't continue. The run is consumed.
    /// HostMemory: the host refused memory.
    pub fn goes(self, script: &Script, pid: u32) -> Result<Option<Run<M>>, HostMemory>
        ensures { IfOk result (λ r. r ≡ goes script.now pid self) }
    {
        let Some(call) = self.next(script, pid) else {
            return Ok(None);
        };
        let next = self.make(pid, &call)?;
        Ok(Some(next))
    }

    /// The run after one more call of a process. The run is consumed. HostMemory: the host refused memory.
    pub fn make(self, pid: u32, call: &Call) -> Result<Run<M>, HostMemory>
        ensures { IfOk result (λ run. run ≡ after self pid call.now) }
    {
        let Run {
            mut machine,
            mut events,
        } = self;
        let reply = machine.call(pid, call)?;
        events.push(Event {
            pid,
            call: *call,
            reply,
        })?;
        Ok(Run { machine, events })
    }

    /// The machine at its end.
    pub fn machine(&self) -> &M
        ensures { M.flat result.now ≡ self.now.machine }
    {
        &self.machine
    }

    /// The run to which a schedule leads from here; none if a process that it names can't continue. HostMemory:
    /// the host refused memory.
    pub fn walk(
        &self,
        alloc: Global,
        script: &Script,
        pids: &[u32],
    ) -> Result<Option<Run<M>>, HostMemory>
        ensures { IfOk result (λ end. end ≡ walked script.now pids.now self.now) }
    {
        let mut run = self.copied(alloc)?;
        for pid in pids {
            let Some(next) = run.goes(script, *pid)? else {
                return Ok(None);
            };
            run = next;
        }
        Ok(Some(run))
    }

    /// The run after one more call of a process. This one stays as it is. HostMemory: the host refused memory.
    pub fn after(&self, alloc: Global, pid: u32, call: &Call) -> Result<Run<M>, HostMemory>
        ensures { IfOk result (λ run. run ≡ after self.now pid call.now) }
    {
        let copy = self.copied(alloc)?;
        copy.make(pid, call)
    }

    /// The same run once more. Afterwards the two are independent. HostMemory: the host refused memory.
    pub fn copied(&self, alloc: Global) -> Result<Run<M>, HostMemory>
        ensures { IfOk result (λ run. run ≡ self.now) }
    {
        let machine = Box::new(alloc, self.machine.snapshot()?)?;
        let mut events = Vec::with_capacity(alloc, self.events().len() + 1)?;
        events.extend_from_slice(self.events())?;
        Ok(Run { machine, events })
    }
}

//! The variables of all processes of a script.
ghost use Rattle.std.specs.Prelude.{◌≡◌, map, IfOk, Some};
ghost use Rattle.shm_text.specs.Variables.{call_of};
ghost use Rattle.shm_program.specs.Values.{fresh_holder, values_of, with_answer};

use shm_base::{Call, Process, Reply};
use shm_text::{Command, Vars};
use std::alloc::{AllocError, Global};
use std::marker::Model;

/// The variables of one process.
#[derive(Drop)]
struct Holder {
    pid: u32,
    vars: Vars,
}

impl Model for Holder {
    ghost use Rattle.shm_program.specs.Values.{HolderView};

    ghost Value = { HolderView };

    ghost view = { λ h. record { pid = h.pid; values = h.vars } };
}

/// The variables of the declared processes. A process that is not declared has none.
#[derive(Drop)]
pub struct Values {
    holders: Vec<Holder>,
}

impl Model for Values {
    ghost use Rattle.std.specs.Prelude.{List};
    ghost use Rattle.shm_program.specs.Values.{HolderView};

    ghost Value = { List HolderView };

    ghost view = { λ v. v.holders.items };
}

impl Values {
    /// The variables of these processes at the start. AllocError: the host refused memory.
    pub fn new(alloc: Global, processes: &[Process]) -> Result<Values, AllocError>
        ensures { IfOk result (λ v. v ≡ map fresh_holder processes.now) }
    {
        let mut holders = Vec::with_capacity(alloc, processes.len())?;
        for process in processes {
            holders.push(Holder {
                pid: process.pid,
                vars: Vars::new(),
            })?;
        }
        Ok(Values { holders })
    }

    /// The call that a command line makes, with the present variables of its process.
    pub fn call(&self, command: &Command) -> Call
        ensures { result ≡ call_of (values_of self.now command.now.pid) command.now.call }
    {
        let pid = command.pid();
        for holder in &self.holders {
            if holder.pid == pid {
                return holder.vars.call(command);
            }
        }
        Vars::new().call(command)
    }

    /// Stores the reply to a command line in its variable.
    pub fn took(&mut self, command: &Command, reply: &Reply)
        ensures { self.new ≡ with_answer self.old command.now (Some reply.now) }
    {
        take_reply(&mut self.holders, command, reply);
    }
}

fn take_reply(holders: &mut Vec<Holder>, command: &Command, reply: &Reply)
    ensures { holders.new.items ≡ with_answer holders.old.items command.now (Some reply.now) }
{
    let pid = command.pid();
    for index in 0..holders.len() {
        let holder = &mut holders[index];
        if holder.pid == pid {
            holder.vars.took(command, Some(reply));
            return;
        }
    }
}

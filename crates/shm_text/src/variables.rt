//! The variables of a process.
ghost use Rattle.std.specs.Prelude.{◌≡◌, ◌-◌, ◌<◌, List, Option, ℕ};
ghost use Rattle.std.specs.Option.{option_copied};
ghost use Rattle.std.specs.Prelude.{true};
ghost use Rattle.shm_text.specs.Form.{is_id};
ghost use Rattle.shm_text.specs.Variables.{no_values, value_at, id_of, id_from, addr_of, addr_from, call_of, bytes_number, reply_number, values_after};

use crate::script::{Command, LineAddr, LineId, Variable};
use shm_base::{Call, LAST_ID, Reply, ShmId};
use std::marker::Model;

/// The 26 variables of one process. Each is a number, or -1 after a refusal or out of memory. As an
/// identifier -1 was never issued; as an address it is the last one. All begin as 0.
pub struct Vars {
    values: [Option<u64>; 26],
}

impl Model for Vars {
    ghost use Rattle.std.specs.Prelude.{List, Option, ℕ};

    ghost Value = { List (Option ℕ) };

    ghost view = { λ v. v.values };
}

impl Drop for Vars {
    fn drop(self) {
        let Vars { values: _ } = self;
    }
}

// The bytes as a number, the least significant first; none if there are more than eight.
fn number_in(bytes: &[u8]) -> Option<u64>
    ensures { result ≡ bytes_number bytes.now }
{
    if bytes.len() > 8 {
        return None;
    }
    let mut number = [0; 8];
    number[..bytes.len()].copy_from_slice(bytes);
    Some(u64::from_le_bytes(number))
}

fn number_of(reply: &Reply) -> Option<u64>
    ensures { result ≡ reply_number reply.now }
{
    match reply {
        Reply::Id(id) => u64::try_from(*id).ok(),
        Reply::Addr(addr) => Some(*addr),
        Reply::Number(number) => Some(*number),
        Reply::Bytes(chunk) => number_in(chunk.as_slice()),
        Reply::Stat(_) | Reply::Done | Reply::Refused(_) => None,
    }
}

fn id_in(value: Option<u64>) -> ShmId
    ensures { result ≡ id_from value }
{
    match value {
        Some(number) if number <= LAST_ID as u64 => number as i32,
        _ => -1,
    }
}

fn addr_in(value: Option<u64>) -> u64
    ensures { result ≡ addr_from value }
{
    value.unwrap_or(u64::MAX)
}

impl Vars {
    /// The variables of a process when it begins: all are 0.
    pub fn new() -> Vars
        ensures { result ≡ no_values }
    {
        Vars {
            values: [Some(0); 26],
        }
    }

    fn value(&self, var: Variable) -> Option<u64>
        ensures { result ≡ value_at self.now var }
    {
        self.values[(var.letter() - b'a') as usize]
    }

    fn id(&self, id: LineId) -> ShmId
        requires { is_id id ≡ true }
        ensures { result ≡ id_of self.now id }
    {
        match id {
            LineId::Number(number) => number as i32,
            LineId::Var(var) => id_in(self.value(var)),
        }
    }

    fn addr(&self, addr: LineAddr) -> u64
        ensures { result ≡ addr_of self.now addr }
    {
        match addr {
            LineAddr::Number(number) => number,
            LineAddr::Var(var) => addr_in(self.value(var)),
            LineAddr::Sum(var, number) => addr_in(self.value(var)).wrapping_add(number),
        }
    }

    /// The call that a command line makes, with the variables' present values.
    pub fn call(&self, command: &Command) -> Call
        ensures { result ≡ call_of self.now command.now.call }
    {
        match *command.call() {
            Call::Shmget {
                key,
                size,
                mode,
                flags,
            } => Call::Shmget {
                key,
                size,
                mode,
                flags,
            },
            Call::Shmat { id, addr, flags } => Call::Shmat {
                id: self.id(id),
                addr: self.addr(addr),
                flags,
            },
            Call::Shmdt { addr } => Call::Shmdt {
                addr: self.addr(addr),
            },
            Call::Stat { id } => Call::Stat { id: self.id(id) },
            Call::Set { id, uid, gid, mode } => Call::Set {
                id: self.id(id),
                uid,
                gid,
                mode,
            },
            Call::Rmid { id } => Call::Rmid { id: self.id(id) },
            Call::Lock { id } => Call::Lock { id: self.id(id) },
            Call::Unlock { id } => Call::Unlock { id: self.id(id) },
            Call::Load { addr, len } => Call::Load {
                addr: self.addr(addr),
                len,
            },
            Call::Store { chunk, addr } => Call::Store {
                chunk,
                addr: self.addr(addr),
            },
            Call::Xadd { addr, add } => Call::Xadd {
                addr: self.addr(addr),
                add,
            },
            Call::Exchange { chunk, addr } => Call::Exchange {
                chunk,
                addr: self.addr(addr),
            },
            Call::CompareExchange {
                expected,
                desired,
                addr,
            } => Call::CompareExchange {
                expected,
                desired,
                addr: self.addr(addr),
            },
            Call::Fork { child } => Call::Fork { child },
            Call::Exec => Call::Exec,
            Call::Exit => Call::Exit,
            Call::Swapoff { area } => Call::Swapoff { area },
            Call::Munmap { addr, len } => Call::Munmap {
                addr: self.addr(addr),
                len,
            },
            Call::Mprotect {
                addr,
                len,
                writable,
            } => Call::Mprotect {
                addr: self.addr(addr),
                len,
                writable,
            },
            Call::Setuid { uid, gid } => Call::Setuid { uid, gid },
        }
    }

    /// Stores the answer of a command line in the line's variable, if it has one: the identifier, address or
    /// number of the reply, or its bytes as a number. A refusal stores -1, and so does out of memory, which
    /// has no reply.
    pub fn took(&mut self, command: &Command, reply: Option<&Reply>)
        ensures { self.new ≡ values_after self.old command.now.var (option_copied reply.entry) }
    {
        if let Some(var) = command.var() {
            self.values[(var.letter() - b'a') as usize] = reply.and_then(number_of);
        }
    }
}

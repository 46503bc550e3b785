//! The calls that return a value.
ghost use Rattle.std.specs.Prelude.{◌≡◌, false, length, IfOk};
ghost use Rattle.shm_base.specs.declared.call.Call.TheVariants as call;
ghost use Rattle.shm_base.specs.declared.call.Reply.TheVariants as reply;
ghost use Rattle.shm_life.specs.Lending.{pages_asked};
ghost use Rattle.shm_machine.specs.Answered.{Answered, as_reply};
ghost use Rattle.shm_machine.specs.Ready.{AccessedBy};

use crate::machine::Machine;
use crate::refusal::Refusal;
use shm_base::{AccessLen, AtFlags, Call, Chunk, GetFlags, LONGEST_ACCESS, Reply, ShmId, ShmidDs};

impl Machine {
    /// shmget(2): the identifier of the segment that has the key, or of a new one.
    pub fn get(
        &mut self,
        pid: u32,
        key: u32,
        size: u64,
        mode: u16,
        flags: GetFlags,
    ) -> Result<ShmId, Refusal>
        ensures { Answered self.old.system pid (call.Shmget key size mode flags)
            (as_reply (λ i. reply.Id i) result) self.new.system }
    {
        let call = Call::Shmget {
            key,
            size,
            mode,
            flags,
        };
        match self.answer(pid, &call)? {
            Reply::Id(id) => Ok(id),
            _ => unreachable!(),
        }
    }

    /// shmat(2): the address at which the segment is attached.
    pub fn attach(&mut self, pid: u32, id: ShmId, addr: u64, flags: AtFlags) -> Result<u64, Refusal>
        ensures { Answered self.old.system pid (call.Shmat id addr flags)
            (as_reply (λ a. reply.Addr a) result) self.new.system }
    {
        match self.answer(pid, &Call::Shmat { id, addr, flags })? {
            Reply::Addr(at) => Ok(at),
            _ => unreachable!(),
        }
    }

    /// Reads bytes of attached memory.
    pub fn load(&mut self, pid: u32, addr: u64, len: AccessLen) -> Result<Chunk, Refusal>
        ensures answered { let pages = pages_asked self.old.system.machine pid addr len false in
            let answer = as_reply (λ b. reply.Bytes b) result in
            AccessedBy pages self.old.system pid (call.Load addr len) answer self.new.system }
        ensures length { IfOk result (λ b. length b ≡ len) }
    {
        let mut bytes = [0; LONGEST_ACCESS];
        self.load_into(pid, addr, &mut bytes[..len.get()])?;
        Ok(Chunk::from_array(bytes, len))
    }

    /// shmctl(2), IPC_STAT: shows the segment.
    pub fn stat(&mut self, pid: u32, id: ShmId) -> Result<ShmidDs, Refusal>
        ensures { Answered self.old.system pid (call.Stat id)
            (as_reply (λ s. reply.Stat s) result) self.new.system }
    {
        match self.answer(pid, &Call::Stat { id })? {
            Reply::Stat(shown) => Ok(shown),
            _ => unreachable!(),
        }
    }
}

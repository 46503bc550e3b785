//! Where a process of a run is in its lines.
ghost use Rattle.std.specs.Prelude.{◌≡◌, ◌<◌, All, IfOk, length, map};
ghost use Rattle.shm_threads.specs.Strands.{IsFresh, IsKeptAs, IsMade, made_by, pid_of_strand};
ghost use Rattle.shm_threads.specs.Transcripts.{callers_of, pid_in};

use crate::entry_list::EntryList;
use crate::lines::{callers, count};
use crate::transcript::Answer;
use shm_base::{Call, HostMemory, Reply};
use shm_history::World;
use shm_pager_core::Pager;
use shm_text::{Command, Script, Vars};
use std::alloc::Global;

/// A process of a run: how many lines it has, its variables now, and an entry for each call so far. So the
/// number of entries is its place.
#[derive(Drop)]
pub(crate) struct Strand {
    pub(crate) pid: u32,
    pub(crate) lines: usize,
    pub(crate) vars: Vars,
    pub(crate) entries: EntryList,
}

/// What a call did to the lives of processes.
#[derive(Clone, Copy, Debug, PartialEq, Eq)]
pub(crate) enum Made {
    /// This child is born.
    Birth(u32),
    /// The caller has ended.
    End,
    Nothing,
}

/// A strand for each process before its first line, with room for an entry of each, which it keeps or not.
pub(crate) fn strands(
    alloc: Global,
    script: &Script,
    is_kept: bool,
) -> Result<Vec<Strand>, HostMemory>
    ensures pids { IfOk result (λ ss. map pid_of_strand ss.items ≡ map pid_in script.now.processes) }
    ensures fresh { IfOk result (λ ss. All (IsFresh (callers_of script.now.lines)) ss.items) }
    ensures kept { IfOk result (λ ss. All (IsKeptAs is_kept) ss.items) }
{
    let mut strands = Vec::with_capacity(alloc, script.processes.len())?;
    let pids = callers(alloc, &script.lines)?;
    let callers = pids.as_slice();
    for process in &script.processes {
        let strand = strand_of(alloc, callers, process.pid, is_kept)?;
        strands.push(strand)?;
    }
    Ok(strands)
}

fn strand_of(alloc: Global, callers: &[u32], pid: u32, is_kept: bool) -> Result<Strand, HostMemory>
    ensures pid { IfOk result (λ s. s.pid ≡ pid) }
    ensures fresh { IfOk result (IsFresh callers.now) }
    ensures kept { IfOk result (IsKeptAs is_kept) }
{
    let lines = count(callers, pid);
    let entries = EntryList::with_room(alloc, lines, is_kept)?;
    Ok(Strand {
        pid,
        lines,
        vars: Vars::new(),
        entries,
    })
}

fn made_of(call: &Call, answer: &Answer) -> Made
    ensures { result ≡ made_by call.now answer.now }
{
    match (call, answer) {
        (Call::Fork { child }, Answer::Reply(Reply::Done)) => Made::Birth(*child),
        (Call::Exit, Answer::Reply(Reply::Done)) => Made::End,
        _ => Made::Nothing,
    }
}

/// Makes the call of a strand's next line, which is this command, and notes it with its answer. There is room for it.
pub(crate) fn make<P: Pager>(world: &mut World<P>, strand: &mut Strand, command: &Command) -> Made
    requires noted { length strand.old.entries.items < strand.old.entries.room }
    requires recorded { 0 < world.old.room }
    ensures { IsMade world.old strand.old command.now result world.new strand.new }
{
    let call = strand.vars.call(command);
    let answer = match world.call(strand.pid, &call) {
        Ok(reply) => Answer::Reply(reply),
        Err(HostMemory) => Answer::HostMemory,
    };
    strand.vars.took(command, answer.reply());
    let made = made_of(&call, &answer);
    strand.entries.push_reserved(call, answer);
    made
}

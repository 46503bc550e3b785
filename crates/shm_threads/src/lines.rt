//! The command lines of a process.
ghost use Rattle.std.specs.Prelude.{◌≡◌, ◌==◌, [], ◌∷◌, IfOk, filter, length};
ghost use Rattle.shm_threads.specs.Asked.{IsNth, IsWithin};
ghost use Rattle.shm_threads.specs.Transcripts.{callers_of, commands_of, commands_in};

use shm_base::HostMemory;
use shm_text::{Command, Line};
use std::alloc::Global;

/// The command of a line, if it is one of the process.
pub(crate) fn command_of(line: &Line, pid: u32) -> Option<&Command>
    ensures { commands_of pid (line.now ∷ []) ≡ commands_in result }
{
    match line {
        Line::Command(command) if command.pid() == pid => Some(command),
        _ => None,
    }
}

/// The pids of all command lines, in order. They are counted in less time than the lines, which are larger.
pub(crate) fn callers(alloc: Global, lines: &[Line]) -> Result<Vec<u32>, HostMemory>
    ensures { IfOk result (λ pids. pids.items ≡ callers_of lines.now) }
{
    let mut callers = Vec::with_capacity(alloc, lines.len())?;
    for line in lines {
        if let Line::Command(command) = line {
            callers.push(command.pid())?;
        }
    }
    Ok(callers)
}

/// How many of these pids are a process's.
pub(crate) fn count(callers: &[u32], pid: u32) -> usize
    ensures { result ≡ length (filter (λ p. p == pid) callers.now) }
{
    callers.iter().filter(|caller| **caller == pid).count()
}

/// The n-th command line of a process, which has that many.
pub(crate) fn nth_command(lines: &[Line], pid: u32, n: u64) -> &Command
    requires { IsWithin n (length (commands_of pid lines.now)) }
    ensures { IsNth (commands_of pid lines.now) n result.now }
{
    let mut left = n;
    for line in lines {
        if let Some(command) = command_of(line, pid) {
            left -= 1;
            if left == 0 {
                return command;
            }
        }
    }
    unreachable!()
}

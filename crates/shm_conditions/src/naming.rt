//! Which reply a word `P:N=REPLY` is about.
ghost use Rattle.std.specs.Prelude.{◌≡◌};
ghost use Rattle.shm_conditions.specs.Naming.{count_lines, line_in, line_named, place_from, reply_in};

use crate::fault::ConditionFaultKind;
use shm_base::Process;
use shm_schedules::{past, until};
use shm_text::{Line, Script, read_decimal};

/// A line of a process: the place of the process in the script, and the place of the line among those of the process.
#[derive(Clone, Copy, Debug, PartialEq, Eq)]
pub struct ProcessLine {
    pub process: usize,
    pub line: usize,
}

// The place of a process.
fn place_of(processes: &[Process], number: u64) -> Option<usize>
    ensures { result ≡ place_from 0 number processes.now }
{
    for (place, process) in processes.iter().enumerate() {
        if u64::from(process.pid) == number {
            return Some(place);
        }
    }
    None
}

// How many lines a process has.
fn count_lines(lines: &[Line], pid: u64) -> u64
    ensures { result ≡ count_lines pid lines.now }
{
    let mut count = 0;
    for line in lines {
        if let Line::Command(command) = line {
            if u64::from(command.pid()) == pid {
                count += 1;
            }
        }
    }
    count
}

// The line of a process with a number from 1.
fn line_named(script: &Script, pid: u64, number: u64) -> Result<ProcessLine, ConditionFaultKind>
    ensures { result ≡ line_named script.now pid number (place_from 0 pid script.now.processes) }
{
    let Some(process) = place_of(&script.processes, pid) else {
        return Err(ConditionFaultKind::UnknownProcess);
    };
    if number == 0 || count_lines(&script.lines, pid) < number {
        return Err(ConditionFaultKind::UnknownLine);
    }
    Ok(ProcessLine {
        process,
        line: (number - 1) as usize,
    })
}

/// The word of the reply, after the equality sign.
pub(crate) fn reply_in(word: &[u8]) -> &[u8]
    ensures { result.now ≡ reply_in word.now }
{
    past(b'=', word)
}

/// The line that a word names before the equality sign.
pub(crate) fn line_in(script: &Script, word: &[u8]) -> Result<ProcessLine, ConditionFaultKind>
    ensures { result ≡ line_in script.now word.now }
{
    if reply_in(word).is_empty() {
        return Err(ConditionFaultKind::BadWord);
    }
    let Some(pid) = read_decimal(until(b':', word)) else {
        return Err(ConditionFaultKind::BadWord);
    };
    let Some(number) = read_decimal(until(b'=', past(b':', word))) else {
        return Err(ConditionFaultKind::BadWord);
    };
    line_named(script, pid, number)
}

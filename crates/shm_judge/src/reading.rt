//! Reads a log line by line. A line has a process, a call, and a reply after `= `, as outcomes are printed; a
//! place may precede them. The script says what the call is, so the reader ignores the line's words for it.
ghost use Rattle.std.specs.Prelude.{◌≡◌, IfErr, IfOk, OnOk, Ok};
ghost use Rattle.shm_text.specs.Number.{decimal_of};
ghost use Rattle.shm_judge.specs.Reading.{IsSaid, bare, declared_as, entries_of, is_skipped, line_says, log_of, own_answers, reply_in, said};
ghost use Rattle.shm_schedules.specs.Cuts.{until};
ghost use Rattle.shm_judge.specs.Refusals.{IsRefusedLog};

use crate::fault::{LogFault, LogFaultKind, LogRefused};
use crate::log::{Answer, Answers, Entry, Log};
use shm_base::Process;
use shm_schedules::{past, until};
use shm_text::{Script, read_decimal};
use std::alloc::{AllocError, Global};

fn first_number(line: &[u8]) -> Option<u64>
    ensures { result ≡ decimal_of (until 32 line.now) }
{
    read_decimal(until(b' ', line))
}

// The line without its place, if it has one.
fn bare(line: &[u8]) -> &[u8]
    ensures { result.now ≡ bare line.now }
{
    let rest = past(b' ', line);
    if first_number(rest).is_some() {
        return rest;
    }
    line
}

fn reply_in(line: &[u8]) -> &[u8]
    ensures { result.now ≡ reply_in line.now }
{
    past(b' ', past(b'=', line))
}

fn is_skipped(line: &[u8]) -> bool
    ensures { result ≡ is_skipped line.now }
{
    match line {
        [] => true,
        [first, ..] => *first == b'#',
    }
}

fn declared_as(processes: &[Process], number: u64) -> Option<u32>
    ensures { result ≡ declared_as processes.now number }
{
    for process in processes {
        if u64::from(process.pid) == number {
            return Some(process.pid);
        }
    }
    None
}

// What a line says.
fn said(
    alloc: Global,
    processes: &[Process],
    line: &[u8],
) -> Result<Result<Entry, LogFaultKind>, AllocError>
    ensures { IfOk result (λ r. r ≡ said processes.now line.now) }
{
    let Some(number) = first_number(line) else {
        return Ok(Err(LogFaultKind::BadLine));
    };
    let Some(pid) = declared_as(processes, number) else {
        return Ok(Err(LogFaultKind::UnknownProcess));
    };
    let reply = reply_in(line);
    if reply.is_empty() {
        return Ok(Err(LogFaultKind::BadLine));
    }
    let answer = Answer {
        line: Vec::from_slice(alloc, line)?,
        reply: Vec::from_slice(alloc, reply)?,
    };
    Ok(Ok(Entry { pid, answer }))
}

/// The entries of a log, line by line, or its first fault. HostMemory: the host refused memory.
pub fn read_log(alloc: Global, script: &Script, text: &[u8]) -> Result<Vec<Entry>, LogRefused>
    ensures ok { IfOk result (λ entries. entries_of script.now text.now ≡ Ok entries.items) }
    ensures err { IfErr result (λ e. IsRefusedLog e (entries_of script.now text.now)) }
{
    let mut entries = Vec::new(alloc);
    let mut number = 1u64;
    let mut rest = text;
    while !rest.is_empty() {
        if let Err(refused) = put_line(alloc, script, number, until(b'\n', rest), &mut entries) {
            return Err(refused);
        }
        rest = past(b'\n', rest);
        number += 1;
    }
    Ok(entries)
}

// Appends the entries of a line.
fn put_line(
    alloc: Global,
    script: &Script,
    number: u64,
    line: &[u8],
    entries: &mut Vec<Entry>,
) -> Result<(), LogRefused>
    ensures ok { OnOk result (
        IsSaid (line_says script.now.processes number line.now) entries.old.items entries.new.items) }
    ensures err { IfErr result (λ e. IsRefusedLog e (line_says script.now.processes number line.now)) }
{
    if is_skipped(line) {
        return Ok(());
    }
    match said(alloc, &script.processes, bare(line))? {
        Ok(entry) => entries.push(entry)?,
        Err(kind) => return Err(LogRefused::Fault(LogFault { line: number, kind })),
    }
    Ok(())
}

fn copied(alloc: Global, answer: &Answer) -> Result<Answer, AllocError>
    ensures { IfOk result (λ a. a ≡ answer.now) }
{
    Ok(Answer {
        line: Vec::from_slice(alloc, &answer.line)?,
        reply: Vec::from_slice(alloc, &answer.reply)?,
    })
}

// The answers of one process.
fn own_answers(alloc: Global, entries: &[Entry], pid: u32) -> Result<Answers, AllocError>
    ensures { IfOk result (λ a. a ≡ own_answers entries.now pid) }
{
    let mut answers = Vec::new(alloc);
    for entry in entries {
        if entry.pid == pid {
            let answer = copied(alloc, &entry.answer)?;
            answers.push(answer)?;
        }
    }
    Ok(Answers { answers })
}

/// The answers to each process. AllocError: the host refused memory.
pub fn log_of(alloc: Global, script: &Script, entries: &[Entry]) -> Result<Log, AllocError>
    ensures { IfOk result (λ log. log ≡ log_of script.now entries.now) }
{
    let mut processes = Vec::new(alloc);
    for process in &script.processes {
        let own = own_answers(alloc, entries, process.pid)?;
        processes.push(own)?;
    }
    Ok(Log { processes })
}

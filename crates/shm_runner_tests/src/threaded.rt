//! A run with threads writes its whole output or nothing.
ghost use Rattle.std.specs.Prelude.{IfOk};
ghost use Rattle.shm_threads.specs.Outcomes.{IsOpened};

use crate::ends::{OUTPUT, SCRIPT, Sink, reader, writer};
use crate::sweeps::opened;
use shm_base::{Call, Reply};
use shm_history::World;
use shm_pager::RamPager;
use shm_program::RunFault;
use shm_runner::{run_threaded, write_outcome};
use shm_text::{Script, read_script};
use shm_threads::{Answer, EntryList, OpenGate, Outcome, Transcript, run_threads};
use std::alloc::Global;
use std::io::ErrorKind;
use std::sync::Wait;
use std::test::Fail;
use std::thread::Threads;

fn run<T: Threads + Wait + Sync>(
    rt: &T,
    alloc: Global,
    fails: u32,
    taker: &mut Sink,
    areas: usize,
) -> Result<Option<RunFault>, Fail> {
    let mut pagers = Vec::new(alloc);
    for _ in 0..areas {
        pagers.push(RamPager::new(alloc, 64)?)?;
    }
    Ok(run_threaded(rt, alloc, &mut reader(25, fails), taker, pagers).err())
}

#[test]
fn one_process_with_threads(rt: HostRuntime) -> Result<(), Fail> {
    let alloc = rt.alloc();
    for most in [1, 4096] {
        let mut taker = writer(alloc, most, 0, ErrorKind::Other);
        assert!(rt; run(&rt, alloc, 0, &mut taker, 1)?.is_none());
        assert!(rt; taker.taken.as_slice() == OUTPUT, "at {most}");
    }
    Ok(())
}

#[test]
fn faults_with_threads(rt: HostRuntime) -> Result<(), Fail> {
    let alloc = rt.alloc();
    for (fails, areas, fault) in [
        (7, 1, RunFault::ReadFailed),
        (0, 0, RunFault::StartRefused(1)),
        (0, 9, RunFault::StartRefused(1)),
    ] {
        let mut taker = writer(alloc, 4096, 0, ErrorKind::Other);
        assert!(rt; run(&rt, alloc, fails, &mut taker, areas)? == Some(fault));
        assert!(rt; taker.taken.is_empty());
    }
    let mut taker = writer(alloc, 50, 2, ErrorKind::Other);
    assert!(rt; run(&rt, alloc, 0, &mut taker, 1)? == Some(RunFault::WriteFailed));
    Ok(())
}

fn script(alloc: Global) -> Result<Script, Fail> {
    Ok(read_script(alloc, SCRIPT).ok().ok_or("a script")?)
}

// The world of the script before its first event.
fn over_ram(alloc: Global, script: &Script) -> Result<World<RamPager>, Fail>
    ensures { IfOk result (IsOpened script.now) }
{
    let pagers = vec![in alloc; RamPager::new(alloc, 64)?]?;
    opened(alloc, script, pagers)
}

// The world after the script.
fn ran<T: Threads + Wait + Sync>(rt: &T, alloc: Global) -> Result<World<RamPager>, Fail> {
    let script = script(alloc)?;
    let world = over_ram(alloc, &script)?;
    let run = run_threads(rt, alloc, world, &script, &OpenGate);
    Ok(run.ok().ok_or("a run")?.world)
}

// A worker's answer to a call: its reply, or that the host refused memory.
fn answer_of(reply: Option<Reply>) -> Answer {
    match reply {
        Some(reply) => Answer::Reply(reply),
        None => Answer::HostMemory,
    }
}

// A transcript with one call for which the host refused memory, or without calls.
fn transcripts(alloc: Global, marked: bool) -> Result<Vec<Transcript>, Fail> {
    let mut entries = EntryList::with_room(alloc, 1, true)?;
    if marked {
        let refused: Option<Reply> = None;
        entries.push_reserved(Call::Exit, answer_of(refused));
    }
    Ok(vec![in alloc; Transcript { pid: 1, entries }]?)
}

fn outcome<T: Threads + Wait + Sync>(
    rt: &T,
    alloc: Global,
    marked: bool,
) -> Result<Outcome<RamPager>, Fail> {
    let transcripts = transcripts(alloc, marked)?;
    let world = ran(rt, alloc)?;
    Ok(Outcome { world, transcripts })
}

// How writing such an outcome ends.
fn written<T: Threads + Wait + Sync>(
    rt: &T,
    alloc: Global,
    marked: bool,
    taker: &mut Sink,
) -> Result<Option<RunFault>, Fail> {
    let outcome = outcome(rt, alloc, marked)?;
    Ok(write_outcome(alloc, taker, &outcome).err())
}

#[test]
fn a_marked_run_is_written(rt: HostRuntime) -> Result<(), Fail> {
    let alloc = rt.alloc();
    for (marked, fault) in [(false, None), (true, Some(RunFault::HostMemory))] {
        let mut taker = writer(alloc, 4096, 0, ErrorKind::Other);
        assert!(rt; written(&rt, alloc, marked, &mut taker)? == fault);
        assert!(rt; taker.taken.as_slice() == OUTPUT);
    }
    let mut taker = writer(alloc, 50, 2, ErrorKind::Other);
    assert!(rt; written(&rt, alloc, true, &mut taker)? == Some(RunFault::WriteFailed));
    Ok(())
}

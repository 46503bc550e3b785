//! A run of which the host refuses one allocation: none of its calls is lost or made twice, and no thread
//! waits forever. `rt try --test --fail-alloc N -- refused::` makes the N-th allocation fail.
ghost use Rattle.std.specs.Prelude.{IfSome};
ghost use Rattle.shm_threads.specs.Outcomes.{IsOpened};

use crate::shared::{Noted, Rule, Ruled, ended, opened_over};
use shm_history::World;
use shm_pager::RamPager;
use shm_text::{Script, read_script};
use shm_threads::{RunError, run_threads};
use std::alloc::Global;
use std::sync::Wait;
use std::test::Fail;
use std::thread::Threads;

/// A waiting child, its parent, and another process. Four of the eight lines take memory.
const TAKERS: &[u8] = b"\
limits 65536 16 64 4 1\n\
child 3\n\
process 1 100 100\n\
process 2 100 100\n\
1 s = shmget private 4096 600\n\
1 a = shmat s null -\n\
1 store a 2a\n\
1 fork 3\n\
3 load 0x40000000 1\n\
2 t = shmget private 4096 600\n\
2 b = shmat t null -\n\
2 store b 2b\n";

// Whether the run ended in one of the allowed ways: with an event for each call that is not marked; before
// any call; or, if a thread was refused, without calls of processes that are declared after that one.
fn is_as_it_may(run: &Result<Noted, RunError>, gate: &Ruled) -> bool {
    let [_, _, parent, _, others, _, _] = gate.counts();
    match run {
        Ok(seen) => seen.marked <= 1 && seen.events.checked_add(seen.marked) == Some(8),
        Err(RunError::HostMemory) => parent == 0 && others == 0,
        Err(RunError::ThreadRefused) => parent > 0 || others == 0,
        Err(_) => false,
    }
}

fn opened(alloc: Global, script: &Script) -> Option<World<RamPager>>
    ensures { IfSome result (IsOpened script.now) }
{
    let mut pagers = Vec::new(alloc);
    let pager = RamPager::new(alloc, 64).ok()?;
    pagers.push(pager).ok()?;
    match opened_over(alloc, script, pagers) {
        Ok(world) => Some(world),
        Err(_) => None,
    }
}

// The observations after the run; none if memory was refused before it.
fn ran<R: Threads + Wait + Sync>(
    rt: &R,
    alloc: Global,
    gate: &Ruled,
) -> Option<Result<Noted, RunError>> {
    let script = read_script(alloc, TAKERS).ok()?;
    let world = opened(alloc, &script)?;
    Some(ended(run_threads(rt, alloc, world, &script, gate)))
}

#[test]
fn one_allocation(rt: HostRuntime) -> Result<(), Fail> {
    let gate = Ruled::by(Rule::Open);
    if let Some(run) = ran(&rt, rt.alloc(), &gate) {
        assert!(rt; is_as_it_may(&run, &gate));
    }
    Ok(())
}

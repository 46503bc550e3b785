//! The guess before any search: a schedule near the order of a log's lines.
ghost use Rattle.std.specs.Prelude.{◌≡◌, ◌↔◌, ◌∷◌, [], All, IfOk, IfSome, IsTrue, OnOk, Some};
ghost use Rattle.shm_text.specs.Script.{ScriptView};
ghost use Rattle.shm_judge.specs.Judge.{IsExplained, IsWholeIn};
ghost use Rattle.shm_judge.specs.Logs.{AllFill};
ghost use Rattle.shm_schedules.specs.Schedules.{IsReached, Run as FlatRun, fresh, goes};

use crate::log::{Entry, Log};
use crate::plan::{Move, Plan};
use shm_base::{Event, HostMemory};
use shm_schedules::{Engine, Run, push_followers};
use shm_text::Script;
use std::alloc::{AllocError, Global};

// The most runs on the stack, for going back.
const LONGEST: usize = 64;

// The most moves for each line.
const MOVES: usize = 4;

/// The calls and replies of a schedule that has the replies of a log, if one is found near the order of the log's
/// lines. The machine has made no call.
pub(crate) fn explained<M: Engine>(
    alloc: Global,
    script: &Script,
    log: &Log,
    entries: &[Entry],
    machine: &M,
) -> Result<Option<Vec<Event>>, HostMemory>
    requires new { M.calls machine.now ≡ 0 }
    ensures { IfOk result (λ r. IfSome r (λ events.
        IsExplained script.now log.now (fresh (M.flat machine.now)) events.items)) }
{
    let copy = machine.snapshot()?;
    let Some(run) = near_order(alloc, script, entries, copy)? else {
        return Ok(None);
    };
    if !is_whole_in(alloc, script, log, &run)? {
        return Ok(None);
    }
    Ok(Some(run.into_events()))
}

// Whether a run is whole: no process can continue, and it has all replies of the log.
pub(crate) fn is_whole<N: Drop>(
    alloc: Global,
    script: &Script,
    log: &Log,
    events: &[Event],
    offered: &[N],
) -> Result<bool, HostMemory>
    ensures { IfOk result (λ r.
        IsTrue r ↔ (offered.now ≡ []) × AllFill script.now log.now events.now) }
{
    if !offered.is_empty() {
        return Ok(false);
    }
    let filled = log.is_filled(alloc, script, events)?;
    Ok(filled)
}

// The same, of a run whose followers are not at hand.
fn is_whole_in<M: Engine>(
    alloc: Global,
    script: &Script,
    log: &Log,
    run: &Run<M>,
) -> Result<bool, HostMemory>
    ensures { IfOk result (λ r. IsTrue r ↔ IsWholeIn script.now log.now run.now) }
{
    let mut offered = Vec::new(alloc);
    push_followers(alloc, script, run, &mut offered)?;
    let whole = is_whole(alloc, script, log, run.events(), &offered)?;
    Ok(whole)
}

// Whether the last reply of a run is that of a line.
fn is_answered<M: Engine>(alloc: Global, entry: &Entry, run: &Run<M>) -> Result<bool, AllocError> {
    let events = run.events();
    if events.is_empty() {
        return Ok(false);
    }
    entry.answer.fits(alloc, &events[events.len() - 1].reply)
}

// The run after a line, if its process can continue and gets the line's reply.
fn goes_as<M: Engine>(
    alloc: Global,
    script: &Script,
    run: &Run<M>,
    entry: &Entry,
) -> Result<Option<Run<M>>, HostMemory>
    ensures { IfOk result (λ r. IfSome r (λ next. goes script.now entry.now.pid run.now ≡ Some next)) }
{
    let Some(call) = run.next(script, entry.pid) else {
        return Ok(None);
    };
    let next = run.after(alloc, entry.pid, &call)?;
    if !is_answered(alloc, entry, &next)? {
        return Ok(None);
    }
    Ok(Some(next))
}

// Drops the first run, if there are as many as there may be.
fn forget_first<M: Engine>(stack: &mut Vec<Run<M>>)
    ensures reached { (script : ScriptView) (first : FlatRun) →
        All (IsReached script first) stack.old.items → All (IsReached script first) stack.new.items }
{
    if stack.len() >= LONGEST {
        stack.remove(0);
    }
}

// Appends the run after a line, if the line fits, and returns whether it does.
fn put_next<M: Engine>(
    alloc: Global,
    script: &Script,
    entry: &Entry,
    stack: &mut Vec<Run<M>>,
) -> Result<bool, HostMemory>
    ensures reached { OnOk result ((first : FlatRun) →
        All (IsReached script.now first) stack.old.items → All (IsReached script.now first) stack.new.items) }
{
    let count = stack.len();
    if count == 0 {
        return Ok(false);
    }
    let Some(next) = goes_as(alloc, script, &stack[count - 1], entry)? else {
        return Ok(false);
    };
    forget_first(stack);
    stack.push(next)?;
    Ok(true)
}

// Makes one move of a plan, and returns whether there was one.
fn walk_on<M: Engine>(
    alloc: Global,
    script: &Script,
    entries: &[Entry],
    plan: &mut Plan,
    stack: &mut Vec<Run<M>>,
) -> Result<bool, HostMemory>
    ensures reached { OnOk result ((first : FlatRun) →
        All (IsReached script.now first) stack.old.items → All (IsReached script.now first) stack.new.items) }
{
    match plan.next(entries.len()) {
        Move::Try(line) => {
            if line >= entries.len() {
                return Ok(false);
            }
            if put_next(alloc, script, &entries[line], stack)? {
                plan.took(entries, line)?;
            } else {
                plan.failed(line);
            }
            Ok(true)
        }
        Move::Back => {
            plan.back(entries);
            Ok(stack.len() > 1 && stack.pop().is_some())
        }
        Move::End => Ok(false),
    }
}

// A run of a schedule near the order of the lines. It continues while the plan has a move. The machine has
// made no call.
fn near_order<M: Engine>(
    alloc: Global,
    script: &Script,
    entries: &[Entry],
    machine: M,
) -> Result<Option<Run<M>>, HostMemory>
    requires new { M.calls machine ≡ 0 }
    ensures { IfOk result (λ r. IfSome r (IsReached script.now (fresh (M.flat machine)))) }
{
    let mut plan = Plan::of(alloc, script, entries)?;
    let mut stack = first_stack(alloc, machine)?;
    for _ in 0..entries.len().saturating_mul(MOVES) {
        if !walk_on(alloc, script, entries, &mut plan, &mut stack)? {
            break;
        }
    }
    Ok(stack.pop())
}

// The run before its first line, alone.
fn first_stack<M: Engine>(alloc: Global, machine: M) -> Result<Vec<Run<M>>, HostMemory>
    requires { M.calls machine ≡ 0 }
    ensures { IfOk result (λ stack. stack.items ≡ fresh (M.flat machine) ∷ []) }
{
    let mut stack = Vec::new(alloc);
    let first = Run::first(alloc, machine)?;
    stack.push(first)?;
    Ok(stack)
}

//! The judge: searches a schedule that has the replies of a log. It is a depth-first search that admits a node only if
//! its replies begin the log, and if no equivalent node was admitted before.
ghost use Rattle.std.specs.Prelude.{◌≡◌, ◌↔◌, ◌∷◌, [], ◌+◌, ◌++◌, ◌<◌, ◌≤◌, Contains, IfErr, IfOk, IsPermutation, IsTrue, OnOk, length};
ghost use Rattle.shm_judge.specs.Judge.{IsDoubt, IsRight, newest, stuck_at};
ghost use Rattle.shm_judge.specs.Searching.{EndsInDoubt, GoesOnTo, IsAdmitted, IsLonger, IsTooMany, one_successor, state, successors};
ghost use Rattle.shm_schedules.specs.Schedules.{fresh, next};

use crate::guess::{explained, is_whole};
use crate::log::{Entry, Log};
use crate::plan::last_line;
use crate::verdict::{Stuck, Verdict};
use indexmap::IndexSet;
use shm_base::{Event, HostMemory, Process};
use shm_outcomes::{Key, Node};
use shm_schedules::{Engine, Lists, Run, SearchError, push_followers};
use shm_text::Script;
use std::alloc::{AllocError, Global};

// The run, and the calls by which it can continue.
fn stuck_at<M: Engine>(alloc: Global, script: &Script, run: &Run<M>) -> Result<Stuck, HostMemory>
    ensures { IfOk result (λ s. s ≡ stuck_at script.now run.now) }
{
    let mut offered = Vec::new(alloc);
    push_followers(alloc, script, run, &mut offered)?;
    let mut next = Vec::new(alloc);
    for one in &offered {
        next.extend_from_slice(newest(run, one))?;
    }
    let events = Vec::from_slice(alloc, run.events())?;
    Ok(Stuck { events, next })
}

// The events that a run has after those of an earlier one.
fn newest<'a, M: Engine>(run: &Run<M>, next: &'a Run<M>) -> &'a [Event]
    ensures { result.now ≡ newest run.now next.now }
{
    let from = run.events().len();
    let events = next.events();
    if from > events.len() {
        return &[];
    }
    &events[from..]
}

/// Whether some schedule of a script has the replies of a log, whose lines are these entries. The machine has
/// made no call. It tries an order near that of the lines first, and else at most `most` prefixes of schedules, of
/// which no two are equivalent.
pub fn judge_log<M: Engine>(
    alloc: Global,
    script: &Script,
    log: &Log,
    entries: &[Entry],
    machine: M,
    most: u64,
) -> Result<Verdict, SearchError>
    requires new { M.calls machine ≡ 0 }
    ensures ok { IfOk result (IsRight script.now log.now (fresh (M.flat machine))) }
    ensures err { IfErr result (IsDoubt script.now log.now (fresh (M.flat machine)) most) }
{
    if let Some(events) = explained(alloc, script, log, entries, &machine)? {
        return Ok(Verdict::Legal(events));
    }
    searched(alloc, script, log, entries, machine, most)
}

// The same by the search alone. It expands the successor first whose last call comes first in the log.
fn searched<M: Engine>(
    alloc: Global,
    script: &Script,
    log: &Log,
    entries: &[Entry],
    machine: M,
    most: u64,
) -> Result<Verdict, SearchError>
    requires new { M.calls machine ≡ 0 }
    ensures ok { IfOk result (IsRight script.now log.now (fresh (M.flat machine))) }
    ensures err { IfErr result (IsDoubt script.now log.now (fresh (M.flat machine)) most) }
{
    let first = Run::first(alloc, machine)?;
    let mut stuck = stuck_at(alloc, script, &first)?;
    let mut lists = Lists::new(alloc);
    let mut explored = IndexSet::new(alloc);
    let mut frontier = Vec::new(alloc);
    let root = Node::first(alloc, script, &first)?;
    if let Err(error) = admit(alloc, script, log, most, root, &mut frontier, &mut explored) {
        return Err(error);
    }
    'nodes: while let Some(node) = frontier.pop() {
        let mut offered = Vec::new(alloc);
        push_successors(alloc, script, &node, &mut lists, &mut offered)?;
        if is_whole(alloc, script, log, node.run().events(), &offered)? {
            return Ok(Verdict::Legal(node.into_run().into_events()));
        }
        keep_longest(alloc, script, node.run(), &mut stuck)?;
        put_in_order(entries, &mut offered);
        if let Err(error) = admit_all(
            alloc,
            script,
            log,
            most,
            &mut offered,
            &mut frontier,
            &mut explored,
        ) {
            return Err(error);
        }
    }
    Ok(Verdict::Illegal(stuck))
}

// Appends each node that extends this one by a call, in the script's order of processes.
fn push_successors<M: Engine>(
    alloc: Global,
    script: &Script,
    node: &Node<M>,
    lists: &mut Lists,
    offered: &mut Vec<Node<M>>,
) -> Result<(), HostMemory>
    ensures { OnOk result (offered.new.items
        ≡ offered.old.items ++ successors script.now script.now.processes node.now) }
{
    for process in &script.processes {
        push_successor(alloc, script, node, process, lists, offered)?;
    }
    Ok(())
}

// Appends the node that extends this one by the next call of a process, if it has one.
fn push_successor<M: Engine>(
    alloc: Global,
    script: &Script,
    node: &Node<M>,
    process: &Process,
    lists: &mut Lists,
    offered: &mut Vec<Node<M>>,
) -> Result<(), HostMemory>
    ensures { OnOk result (offered.new.items ≡ offered.old.items
        ++ one_successor script.now node.now process.now.pid (next script.now node.now.run process.now.pid)) }
{
    let Some(call) = node.run().next(script, process.pid) else {
        return Ok(());
    };
    let after = node.after(alloc, script, process.pid, &call, lists)?;
    offered.push(after)?;
    Ok(())
}

// Keeps the longer of two beginnings.
fn keep_longest<M: Engine>(
    alloc: Global,
    script: &Script,
    run: &Run<M>,
    stuck: &mut Stuck,
) -> Result<(), HostMemory>
    ensures { OnOk result (IsLonger script.now run.now stuck.old stuck.new) }
{
    if run.events().len() > stuck.events.len() {
        *stuck = stuck_at(alloc, script, run)?;
    }
    Ok(())
}

// The index of the node, from an index on, whose last call comes first in the log.
fn nearest<M: Engine>(entries: &[Entry], offered: &[Node<M>], from: usize) -> usize {
    let mut found = from;
    let mut line = entries.len();
    for (place, node) in offered.iter().enumerate() {
        let own = last_line(entries, node.run().events());
        if place >= from && own < line {
            found = place;
            line = own;
        }
    }
    found
}

// Moves that node to the index.
fn put_nearest<M: Engine>(entries: &[Entry], offered: &mut Vec<Node<M>>, place: usize)
    ensures { IsPermutation offered.old.items offered.new.items }
{
    let found = nearest(entries, offered, place);
    if place < offered.len() && found < offered.len() {
        offered.swap(place, found);
    }
}

// Sorts the nodes by the log lines of their last calls. The first one is admitted last and expanded next.
fn put_in_order<M: Engine>(entries: &[Entry], offered: &mut Vec<Node<M>>)
    ensures { IsPermutation offered.old.items offered.new.items }
{
    for place in 0..offered.len() {
        put_nearest(entries, offered, place);
    }
}

// Admits those of these nodes that are new.
fn admit_all<M: Engine>(
    alloc: Global,
    script: &Script,
    log: &Log,
    most: u64,
    offered: &mut Vec<Node<M>>,
    frontier: &mut Vec<Node<M>>,
    explored: &mut IndexSet<Key>,
) -> Result<(), SearchError>
    requires few { length explored.old.keys ≤ most }
    ensures kept { OnOk result (GoesOnTo script.now log.now
        (state explored.old.keys frontier.old.items offered.old.items)
        (state explored.new.keys frontier.new.items [])) }
    ensures count { OnOk result (length frontier.new.items + length explored.old.keys
        ≡ length frontier.old.items + length explored.new.keys) }
    ensures few { OnOk result (length explored.new.keys ≤ most) }
    ensures err { IfErr result (EndsInDoubt script.now log.now most
        (state explored.old.keys frontier.old.items offered.old.items)) }
{
    while let Some(node) = offered.pop() {
        if let Err(error) = admit(alloc, script, log, most, node, frontier, explored) {
            return Err(error);
        }
    }
    Ok(())
}

// Adds a node to the frontier, if it begins the log and no equivalent one was admitted before.
fn admit<M: Engine>(
    alloc: Global,
    script: &Script,
    log: &Log,
    most: u64,
    node: Node<M>,
    frontier: &mut Vec<Node<M>>,
    explored: &mut IndexSet<Key>,
) -> Result<(), SearchError>
    requires few { length explored.old.keys ≤ most }
    ensures admitted { OnOk result (IsAdmitted script.now log.now node
        explored.old.keys explored.new.keys frontier.old.items frontier.new.items) }
    ensures few { OnOk result (length explored.new.keys ≤ most) }
    ensures err { IfErr result (IsTooMany script.now log.now node explored.old.keys most) }
{
    if !log.begins(alloc, script, node.run().events())? {
        return Ok(());
    }
    let key = Key::of(alloc, &node)?;
    if has(explored, &key) {
        return Ok(());
    }
    if explored.len() as u64 >= most {
        return Err(SearchError::Bound);
    }
    put(explored, key)?;
    frontier.push(node)?;
    Ok(())
}

// Whether the key is among them.
fn has(explored: &IndexSet<Key>, key: &Key) -> bool
    ensures { IsTrue result ↔ Contains explored.now.keys key.now }
{
    explored.contains(key)
}

// Appends a key that is not among them.
fn put(explored: &mut IndexSet<Key>, key: Key) -> Result<(), AllocError>
    requires new { Contains explored.old.keys key → ⊥ }
    ensures { OnOk result (explored.new.keys ≡ explored.old.keys ++ key ∷ []) }
{
    explored.insert(key)?;
    Ok(())
}

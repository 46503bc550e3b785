//! What the threads of a run share: the world and each process's place in its lines, under one lock.
//!
//! The run's guarantees are invariants of the type under the lock, so they hold whenever the lock is free. Threads only
//! say whose turn it is. Noting a birth or an end returns news, which can only be used up by waking the waiting threads.
ghost use Rattle.std.specs.Prelude.{◌≡◌, ◌≤◌, ◌<◌, ◌+◌, ◌⊎◌, [], length, map, option_map, position, true, false, ◌↔◌};
ghost use Rattle.std.specs.Prelude.{All, Some, None, IfOk, IfErr, IfSome, OnOk, MatchBool, is_some, ℕ, vec_len, vec_capacity};
ghost use Rattle.shm_threads.specs.Asked.{IsNth, IsWithin, rounds_of};
ghost use Rattle.shm_threads.specs.Births.{births_after, is_birth, with_end};
ghost use Rattle.shm_threads.specs.Ends.{CanStop, HasCall, IsEnded, ended_by, least};
ghost use Rattle.shm_threads.specs.Keepers.{IsKept, cell_of, stored_of, HasPublished};
ghost use Rattle.shm_threads.specs.Running.{IsFlush, IsFlushed, IsIdle, IsOver, IsProcessAt};
ghost use Rattle.shm_threads.specs.Passed.{ArePassed};
ghost use Rattle.shm_threads.specs.Running.{IsRunning, IsTurn, can_come, is_next};
ghost use Rattle.shm_threads.specs.Strands.{IsFresh, IsKeptAs, can_go, transcript_of};
ghost use Rattle.shm_threads.specs.Transcripts.{callers_of, commands_of};

use crate::births::{News, ProcessState, is_born, may_fork, note_birth, note_end};
use crate::gate::Gate;
use crate::lines::nth_command;
use crate::origin::Origin;
use crate::outcome::{RunError, comes_before, ended_by, least};
use crate::start::Refused;
use crate::strand::{Made, Strand, make};
use crate::transcript::Transcript;
use shm_history::{Keeper, World};
use shm_pager_core::Pager;
use shm_text::{Command, Line};
use std::marker::{Model, PhantomData};
use std::sync::{Condvar, Mutex, MutexGuard, Wait};
use std::thread::yield_now;

/// The world, a strand for each process, the pages of the flush rounds and how many of them were made,
/// which processes are born and have left, the keeper of a gauged run, and the least pid of a thread that
/// the gate ended.
#[derive(Drop)]
pub(crate) struct RunState<P: Pager, O: Origin> {
    world: World<P>,
    strands: Vec<Strand>,
    rounds: Vec<u32>,
    made: usize,
    processes: Vec<ProcessState>,
    keeper: Option<Keeper>,
    expired: Option<u32>,
    of: PhantomData<O>,
}

impl<P: Pager, O: Origin> Model for RunState<P, O> {
    ghost use Rattle.std.specs.Prelude.{◌≡◌, All, IfSome};
    ghost use Rattle.shm_threads.specs.Asked.{rounds_of};
    ghost use Rattle.shm_threads.specs.Ends.{IsEnded};
    ghost use Rattle.shm_threads.specs.Keepers.{IsKept};
    ghost use Rattle.shm_threads.specs.Passed.{ArePassed};
    ghost use Rattle.shm_threads.specs.Running.{IsRunning, RunView};
    ghost use Rattle.shm_threads.specs.Strands.{IsKeptAs};

    ghost Value = { RunView };

    ghost view = { λ s. record {
      world = s.world;
      strands = s.strands.items;
      rounds = s.rounds.items;
      made = s.made;
      processes = s.processes.items;
      keeper = s.keeper;
      expired = s.expired;
    } };

    ghost invariant = { λ s. IsRunning O.script O.start s.world s.strands.items s.made
        × ((s.rounds.items ≡ rounds_of O.script.lines)
        × (IsKept O.cell O.stored s.keeper × (IfSome s.expired (IsEnded O.answers O.script)
        × (ArePassed O.answers s.strands.items s.made
        × All (IsKeptAs O.is_kept) s.strands.items)))) };
}

// Whether a strand can continue: its process is live, and has a line left.
fn goes<P: Pager>(world: &World<P>, strand: &Strand) -> bool
    ensures { result ≡ can_go world.now.machine strand.now }
{
    strand.entries.len() < strand.lines && world.system().spaces().caller(strand.pid).is_some()
}

// Whether a strand can continue, and comes before the thread that the gate ended, if it ended one.
fn comes<P: Pager>(world: &World<P>, strand: &Strand, expired: Option<u32>) -> bool
    ensures { result ≡ can_come expired world.now.machine strand.now }
{
    comes_before(strand.pid, expired) && goes(world, strand)
}

// Whether the next call of a strand is its n-th.
fn is_next(strand: &Strand, n: u64) -> bool
    ensures { result ≡ is_next strand.now n }
{
    strand.entries.len() as u64 + 1 == n
}

// A strand that can continue: its index, its pid, and the number of its next call.
struct Next {
    index: usize,
    pid: u32,
    n: u64,
}

// What a turn of a process left: whether it may have more of them, and news of a birth.
struct Turn {
    goes_on: bool,
    news: Option<News>,
}

impl<P: Pager, O: Origin> RunState<P, O> {
    // Makes the call of the next line of a process, if it can continue and this is its n-th call.
    fn step(&mut self, index: usize, pid: u32, n: u64, command: &Command) -> Turn
        requires process { IsProcessAt O.script.processes index pid }
        requires passed { O.answers pid n true ≡ true }
        requires line { IsNth (commands_of pid O.script.lines) n command.now }
        ensures { IsIdle self.old index n result.goes_on (is_some result.news) self.new
            ⊎ IsTurn self.old index command.now result.goes_on (is_some result.news) self.new }
    {
        if index >= self.strands.len()
            || !is_next(&self.strands[index], n)
            || !goes(&self.world, &self.strands[index])
        {
            return Turn {
                goes_on: false,
                news: None,
            };
        }
        let made = make(&mut self.world, &mut self.strands[index], command);
        Turn {
            goes_on: made != Made::End,
            news: born_by(&mut self.processes, made),
        }
    }

    // The index of the first strand that can continue and comes before the thread that the gate ended. The clauses after the
    // first one are what the state promises.
    fn first(&self) -> Option<usize>
        ensures first { result
            ≡ position (can_come self.now.expired self.now.world.machine) self.now.strands }
        ensures running { IsRunning O.script O.start self.now.world self.now.strands self.now.made }
        ensures rounds { self.now.rounds ≡ rounds_of O.script.lines }
        ensures ended { IfSome self.now.expired (IsEnded O.answers O.script) }
        ensures passed { ArePassed O.answers self.now.strands self.now.made }
    {
        self.strands
            .iter()
            .position(|strand| comes(&self.world, strand, self.expired))
    }

    // The first strand that can continue and comes before the thread that the gate ended, and its next call.
    fn next(&self) -> Option<Next>
        ensures first { option_map (λ k. k.index) result
            ≡ position (can_come self.now.expired self.now.world.machine) self.now.strands }
        ensures process { IfSome result (λ k. IsProcessAt O.script.processes k.index k.pid) }
        ensures line { IfSome result
            (λ k. IsWithin k.n (length (commands_of k.pid O.script.lines))) }
        ensures running { IsRunning O.script O.start self.now.world self.now.strands self.now.made }
        ensures rounds { self.now.rounds ≡ rounds_of O.script.lines }
        ensures ended { IfSome self.now.expired (IsEnded O.answers O.script) }
        ensures passed { ArePassed O.answers self.now.strands self.now.made }
    {
        let Some(index) = self.first() else {
            return None;
        };
        let strand = &self.strands[index];
        Some(Next {
            index,
            pid: strand.pid,
            n: strand.entries.len() as u64 + 1,
        })
    }

    // Makes the next flush round, if it is the n-th. If there is a keeper, it publishes the counts afterwards.
    // False if no round is left.
    fn flush<R: Wait>(&mut self, rt: &R, n: u64) -> bool
        requires { O.answers 0 n true ≡ true }
        ensures { MatchBool result (IsFlush self.old self.new) (IsFlushed self.old n self.new) }
    {
        let Some(pages) = self.rounds.get(self.made) else {
            return false;
        };
        if self.made as u64 + 1 != n {
            return false;
        }
        let _report = self.world.flush(u64::from(*pages));
        self.made += 1;
        publish(rt, &self.world, &mut self.keeper);
        true
    }

    // Notes that a process has left, and returns it as news.
    fn end(&mut self, pid: u32) -> News
        ensures { self.new ≡ record self.old { processes = map (with_end pid) self.old.processes } }
    {
        note_end(&mut self.processes, pid)
    }

    // Notes that the gate ended the thread of a process, or the flusher, before its n-th call.
    fn expire(&mut self, pid: u32, n: u64)
        requires has { HasCall O.script pid n }
        requires ended { O.answers pid n false ≡ true }
        ensures { self.new ≡ record self.old { expired = Some (least pid self.old.expired) } }
    {
        self.expired = Some(least(pid, self.expired));
    }

    // Makes the calls of lines and the rounds that are left, once no thread is left: there are none, as each thread has
    // made its own. After a refused thread it makes none; otherwise it makes those that the gate passes, of the threads
    // that come before the one that it ended.
    fn complete<R: Wait, G: Gate>(
        &mut self,
        rt: &R,
        refused: Option<Refused>,
        gate: &G,
        changed: &Condvar,
        lines: &[Line],
    ) -> Result<(), RunError>
        requires gate { G.answers gate.now ≡ O.answers }
        requires lines { O.script.lines ≡ lines.now }
        ensures ended { result ≡ ended_by (is_some refused) self.new.expired }
        ensures kept { is_some refused ≡ true → self.new ≡ self.old }
        ensures error { IfErr result (CanStop O.answers O.script O.start) }
        ensures over { OnOk result
            (IsOver O.script O.start self.new.world self.new.strands self.new.made None) }
    {
        if let Some(refused) = refused {
            return Err(refused.error());
        }
        for _ in rt.forever() {
            if let Some(Next { index, pid, n }) = self.next() {
                if !gate.before(pid, n) {
                    self.expire(pid, n);
                    continue;
                }
                let command = nth_command(lines, pid, n);
                let Turn { goes_on: _, news } = self.step(index, pid, n, command);
                announce(news, changed);
                gate.after(pid, n);
            } else if comes_before(0, self.expired) && self.made < self.rounds.len() {
                let n = self.made as u64 + 1;
                if !gate.before(0, n) {
                    self.expire(0, n);
                    continue;
                }
                self.flush(rt, n);
                gate.after(0, n);
            } else {
                return ended_by(self.expired);
            }
        }
        unreachable!()
    }
}

// Has the keeper, if there is one, publish the counts of a world.
fn publish<R: Wait, P: Pager>(rt: &R, world: &World<P>, keeper: &mut Option<Keeper>)
    ensures kept { IsKept (cell_of keeper.old) (stored_of keeper.old) keeper.new }
    ensures published { HasPublished world.now keeper.new }
{
    if let Some(keeper) = keeper {
        world.publish(rt, keeper);
    }
}

// Notes the child that a call has forked, if any, and returns it as news.
fn born_by(processes: &mut Vec<ProcessState>, made: Made) -> Option<News>
    ensures births { processes.new.items ≡ births_after made processes.old.items }
    ensures news { is_some result ≡ is_birth made }
{
    match made {
        Made::Birth(child) => Some(note_birth(processes, child)),
        Made::End | Made::Nothing => None,
    }
}

/// What the threads of a run share: the state under its lock, and a condition variable for forks and for processes that
/// leave.
#[derive(Drop)]
pub(crate) struct Shared<P: Pager, O: Origin> {
    state: Mutex<RunState<P, O>>,
    changed: Condvar,
}

// How often a thread tries to take the lock before it sleeps.
const TRIES: u32 = 100;

// The most times that it lets others run between two tries.
const MOST_YIELDS: u32 = 32;

// Lets other threads run this many times.
fn let_others_run(times: u32) {
    for _ in 0..times {
        yield_now();
    }
}

impl<P: Pager, O: Origin> Shared<P, O> {
    pub(crate) fn new(
        world: World<P>,
        strands: Vec<Strand>,
        rounds: Vec<u32>,
        processes: Vec<ProcessState>,
        keeper: Option<Keeper>,
    ) -> Shared<P, O>
        requires running { IsRunning O.script O.start world strands.items 0 }
        requires fresh { All (IsFresh (callers_of O.script.lines)) strands.items }
        requires rounds { rounds.items ≡ rounds_of O.script.lines }
        requires kept { IsKept O.cell O.stored keeper }
        requires entries { All (IsKeptAs O.is_kept) strands.items }
    {
        Shared {
            state: Mutex::new(RunState {
                world,
                strands,
                rounds,
                made: 0,
                processes,
                keeper,
                expired: None,
                of: PhantomData,
            }),
            changed: Condvar::new(),
        }
    }

    // The lock. A call is short, so a thread that finds it taken lets others run before it tries again, longer
    // each time, and sleeps at last. A lock that moves to another processor brings what it guards along, which
    // takes longer than the call.
    fn locked<R: Wait>(&self, rt: &R) -> MutexGuard<'_, RunState<P, O>> {
        let mut yields = 1u32;
        for _ in 0..TRIES {
            if let Some(guard) = self.state.try_lock() {
                return guard;
            }
            let_others_run(yields);
            yields = yields.saturating_mul(2).min(MOST_YIELDS);
        }
        self.state.lock(rt)
    }

    /// Makes the call of the next line of a process, its n-th, which the gate passed. False if it can't continue.
    pub(crate) fn step<R: Wait>(
        &self,
        rt: &R,
        index: usize,
        pid: u32,
        n: u64,
        command: &Command,
    ) -> bool
        requires process { IsProcessAt O.script.processes index pid }
        requires passed { O.answers pid n true ≡ true }
        requires line { IsNth (commands_of pid O.script.lines) n command.now }
    {
        let Turn { goes_on, news } = self.locked(rt).step(index, pid, n, command);
        announce(news, &self.changed);
        goes_on
    }

    /// Makes the next flush round, the n-th, which the gate passed, under the lock. A keeper publishes in it.
    pub(crate) fn flush<R: Wait>(&self, rt: &R, n: u64)
        requires { O.answers 0 n true ≡ true }
    {
        let _made = self.state.lock(rt).flush(rt, n);
    }

    /// Waits until the process is born, or no process is left that could fork it. False if it is not born.
    pub(crate) fn wait_for_birth<R: Wait>(&self, rt: &R, pid: u32) -> bool {
        let state = self.changed.wait_while(rt, self.state.lock(rt), |state| {
            !is_born(&state.processes, pid) && may_fork(&state.processes)
        });
        is_born(&state.processes, pid)
    }

    /// Notes that a process has left.
    pub(crate) fn end<R: Wait>(&self, rt: &R, pid: u32) {
        let news = self.state.lock(rt).end(pid);
        news.announce(&self.changed);
    }

    /// Notes that the gate ended the thread of a process, or the flusher, before its n-th call.
    pub(crate) fn expire<R: Wait>(&self, rt: &R, pid: u32, n: u64)
        requires has { HasCall O.script pid n }
        requires ended { O.answers pid n false ≡ true }
    {
        self.state.lock(rt).expire(pid, n);
    }

    /// What a run left, once no thread is left, or why it has no outcome.
    pub(crate) fn finish<R: Wait, G: Gate>(
        self,
        rt: &R,
        refused: Option<Refused>,
        gate: &G,
        lines: &[Line],
    ) -> Result<Left<P>, RunError>
        requires gate { G.answers gate.now ≡ O.answers }
        requires lines { O.script.lines ≡ lines.now }
        ensures over { IfOk result (λ l. (made : ℕ)
            × (IsOver O.script O.start l.world l.strands.items made None
            × ArePassed O.answers l.strands.items made)) }
        ensures kept { IfOk result (λ l. IsKept O.cell O.stored l.keeper) }
        ensures entries { IfOk result (λ l. All (IsKeptAs O.is_kept) l.strands.items) }
        ensures joined { OnOk result (is_some refused ≡ false) }
        ensures refused { IfErr result (λ e. (e ≡ RunError.ThreadRefused) ↔ (is_some refused ≡ true)) }
        ensures error { IfErr result (CanStop O.answers O.script O.start) }
    {
        let Shared { state, changed } = self;
        let mut state = state.into_inner();
        state.complete(rt, refused, gate, &changed, lines)?;
        let RunState {
            world,
            strands,
            keeper,
            ..
        } = state;
        Ok(Left {
            world,
            strands,
            keeper,
        })
    }
}

/// What a run left: the world, the strands and the keeper.
#[derive(Drop)]
pub(crate) struct Left<P: Pager> {
    pub(crate) world: World<P>,
    pub(crate) strands: Vec<Strand>,
    pub(crate) keeper: Option<Keeper>,
}

fn announce(news: Option<News>, changed: &Condvar) {
    match news {
        Some(news) => news.announce(changed),
        None => {}
    }
}

/// The transcripts of strands. The list has room for each.
pub(crate) fn transcripts_of(
    strands: Vec<Strand>,
    mut transcripts: Vec<Transcript>,
) -> Vec<Transcript>
    requires none { transcripts.items ≡ [] }
    requires room { vec_len strands ≤ vec_capacity transcripts }
    ensures { result.items ≡ map transcript_of strands.items }
{
    for strand in strands {
        let Strand { pid, entries, .. } = strand;
        transcripts.push_reserved(Transcript { pid, entries });
    }
    transcripts
}

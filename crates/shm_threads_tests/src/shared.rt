//! What tests of runs share: a gate, worlds, and observations after a run.
ghost use Rattle.std.specs.Prelude.{IfOk};
ghost use Rattle.shm_threads.specs.Outcomes.{IsOpened};

use shm_base::{AccessLen, Call, Reply, Tally};
use shm_history::{System, World};
use shm_life::StartError;
use shm_pager::RamPager;
use shm_pager_core::Pager;
use shm_text::{Script, read_script};
use shm_threads::{Gate, Outcome, RunError, Transcript, run_threads};
use std::alloc::Global;
use std::sync::Wait;
use std::sync::atomic::{AtomicU64, Ordering};
use std::test::Fail;
use std::thread;
use std::thread::Threads;

const TURNS: u64 = 1_000_000;

const SETTLED: u64 = 20_000;

/// Waits for at most this many turns until a count is this high. Returns whether it was.
pub(crate) fn comes_to(count: &AtomicU64, least: u64) -> bool {
    for _ in 0..TURNS {
        if count.load(Ordering::SeqCst) >= least {
            return true;
        }
        thread::yield_now();
    }
    false
}

// Lets the other threads run until they probably wait.
fn others_run() {
    for _ in 0..SETTLED {
        thread::yield_now();
    }
}

/// The rule of a gate.
#[derive(Clone, Copy)]
pub(crate) enum Rule {
    /// Lets every worker pass.
    Open,
    /// Ends every worker whose pid is not below this one.
    Below(u32),
    /// Ends one worker.
    Without(u32),
    /// Ends one worker, or the flusher with pid 0, before its first call, and would let it pass if it were asked again.
    OnceWithout(u32),
    /// Lets this many of the flusher's rounds pass.
    Rounds(u64),
    /// Holds each of two processes until the other has come as far.
    Meet,
    /// Holds process 1 after its first call until process 2 has made one.
    ChildFirst,
    /// Has process 2 make its call while process 1's gate is in `after`.
    DuringAfter,
    /// Holds the flusher's first round until process 1 has made this many calls.
    AfterCalls(u64),
    /// Holds process 1 before its first call until all children probably wait, and before its third until
    /// another process has made a call.
    Waited,
}

/// The number of the call of a worker's last `before`, and that of its last `after`.
#[derive(Drop)]
struct Turn {
    asked: AtomicU64,
    told: AtomicU64,
}

impl Turn {
    fn none() -> Turn {
        Turn {
            asked: AtomicU64::new(0),
            told: AtomicU64::new(0),
        }
    }

    // Whether the gate is called before the next call, and was called after all earlier ones.
    fn ask(&self, n: u64) -> bool {
        let before = n.wrapping_sub(1);
        self.asked.swap(n, Ordering::SeqCst) == before && self.told.load(Ordering::SeqCst) == before
    }

    // Whether the gate is called after the call before which it was called last.
    fn tell(&self, n: u64) -> bool {
        let before = n.wrapping_sub(1);
        self.told.swap(n, Ordering::SeqCst) == before && self.asked.load(Ordering::SeqCst) == n
    }
}

/// Keeps a rule. Counts its calls for the flusher, for process 1 and for process 2, and those out of order.
/// Any other process counts as process 2.
#[derive(Drop)]
pub(crate) struct Ruled {
    rule: Rule,
    flusher: Turn,
    first: Turn,
    second: Turn,
    wrong: AtomicU64,
}

impl Ruled {
    pub(crate) fn by(rule: Rule) -> Ruled {
        Ruled {
            rule,
            flusher: Turn::none(),
            first: Turn::none(),
            second: Turn::none(),
            wrong: AtomicU64::new(0),
        }
    }

    /// The numbers of the last `before` and of the last `after`, for the flusher, for process 1 and for
    /// process 2; and how many calls were out of order.
    pub(crate) fn counts(&self) -> [u64; 7] {
        [
            self.flusher.asked.load(Ordering::SeqCst),
            self.flusher.told.load(Ordering::SeqCst),
            self.first.asked.load(Ordering::SeqCst),
            self.first.told.load(Ordering::SeqCst),
            self.second.asked.load(Ordering::SeqCst),
            self.second.told.load(Ordering::SeqCst),
            self.wrong.load(Ordering::SeqCst),
        ]
    }

    /// The number of rounds after which it was called.
    pub(crate) fn rounds(&self) -> u64 {
        self.flusher.told.load(Ordering::SeqCst)
    }

    fn turn(&self, pid: u32) -> &Turn {
        match pid {
            0 => &self.flusher,
            1 => &self.first,
            _ => &self.second,
        }
    }

    // Lets others run before the first call, and waits before the third until one of them has made a call.
    fn has_waited(&self, n: u64) -> bool {
        match n {
            1 => {
                others_run();
                true
            }
            3 => comes_to(&self.second.told, 1),
            _ => true,
        }
    }

    fn note(&self, is_in_turn: bool) {
        if !is_in_turn {
            self.wrong.fetch_add(1, Ordering::SeqCst);
        }
    }
}

impl Gate for Ruled {
    ghost use Rattle.std.specs.Prelude.{true};

    ghost answers = { λ gate pid n may. true };

    fn before(&self, pid: u32, n: u64) -> bool {
        let is_in_turn = self.turn(pid).ask(n);
        self.note(is_in_turn);
        match self.rule {
            Rule::Open => true,
            Rule::Below(end) => pid < end,
            Rule::Without(ended) => pid != ended,
            Rule::OnceWithout(ended) => pid != ended || n > 1 || !is_in_turn,
            Rule::Rounds(most) => pid != 0 || n <= most,
            Rule::Meet => comes_to(&self.turn(3u32.wrapping_sub(pid)).asked, n),
            Rule::ChildFirst => pid != 1 || n == 1 || comes_to(&self.second.told, 1),
            Rule::DuringAfter => pid == 1 || comes_to(&self.first.told, 1),
            Rule::AfterCalls(calls) => pid != 0 || comes_to(&self.first.told, calls),
            Rule::Waited => pid != 1 || self.has_waited(n),
        }
    }

    fn after(&self, pid: u32, n: u64) {
        self.note(self.turn(pid).tell(n));
        if matches!(self.rule, Rule::DuringAfter) && pid == 1 {
            let _in_time = comes_to(&self.second.told, 1);
        }
    }
}

pub(crate) fn script(alloc: Global, text: &[u8]) -> Result<Script, Fail> {
    Ok(read_script(alloc, text)?)
}

/// A world over a system as a script starts it over these pagers.
pub(crate) fn opened_over<P: Pager>(
    alloc: Global,
    script: &Script,
    pagers: Vec<P>,
) -> Result<World<P>, StartError>
    ensures { IfOk result (IsOpened script.now) }
{
    let system = System::start(alloc, script.limits, pagers, &script.processes)?;
    Ok(World::new(alloc, system))
}

pub(crate) fn world_over<P: Pager>(
    alloc: Global,
    script: &Script,
    pager: P,
) -> Result<World<P>, Fail>
    ensures { IfOk result (IsOpened script.now) }
{
    let mut pagers = Vec::new(alloc);
    pagers.push(pager)?;
    Ok(opened_over(alloc, script, pagers)?)
}

/// What a test examines after a run.
#[derive(Clone, Copy)]
pub(crate) struct Noted {
    pub(crate) events: usize,
    pub(crate) transcripts: usize,
    /// How many calls each of the first five transcripts has; 0 for a transcript that does not exist.
    pub(crate) calls: [usize; 5],
    /// How many calls are marked: the host refused memory for them.
    pub(crate) marked: usize,
    pub(crate) indexes: u32,
    pub(crate) tally: Tally,
    /// The last event's process and reply.
    pub(crate) last: Option<(u32, Reply)>,
    /// What process 1 loads after the run from the address of the first segment.
    pub(crate) loaded: Option<Reply>,
}

impl Noted {
    /// Whether there are this many transcripts, with these numbers of calls.
    pub(crate) fn has_calls(&self, calls: &[usize]) -> bool {
        self.transcripts == calls.len() && self.calls.starts_with(calls)
    }
}

fn calls_of(transcripts: &[Transcript]) -> [usize; 5] {
    let mut calls = [0; 5];
    for (count, transcript) in calls.iter_mut().zip(transcripts) {
        *count = transcript.entries.len();
    }
    calls
}

fn marked_in(transcripts: &[Transcript]) -> usize {
    let mut marked = 0usize;
    for transcript in transcripts {
        for entry in transcript.entries.kept().unwrap_or(&[]) {
            if entry.answer.reply().is_none() {
                marked = marked.saturating_add(1);
            }
        }
    }
    marked
}

fn last_of(world: &World<RamPager>) -> Option<(u32, Reply)> {
    let event = world.history().last()?;
    Some((event.pid, event.reply))
}

fn loaded(world: &mut World<RamPager>) -> Option<Reply> {
    let len = AccessLen::new(8)?;
    let addr = 0x40000000;
    world.call(1, &Call::Load { addr, len }).ok()
}

fn look(world: &mut World<RamPager>, transcripts: &[Transcript]) -> Noted {
    Noted {
        events: world.history().len(),
        transcripts: transcripts.len(),
        calls: calls_of(transcripts),
        marked: marked_in(transcripts),
        indexes: world.system().indexes(),
        tally: world.tally(),
        last: last_of(world),
        loaded: loaded(world),
    }
}

pub(crate) fn ended(run: Result<Outcome<RamPager>, RunError>) -> Result<Noted, RunError> {
    let Outcome {
        mut world,
        transcripts,
    } = run?;
    Ok(look(&mut world, &transcripts))
}

/// The observations after a run of a script over an area of this many slots, or why it has no outcome.
pub(crate) fn run_over<R: Threads + Wait + Sync, G: Gate>(
    rt: &R,
    alloc: Global,
    script: &Script,
    slots: u32,
    gate: &G,
) -> Result<Result<Noted, RunError>, Fail> {
    let world = world_over(alloc, script, RamPager::new(alloc, slots)?)?;
    Ok(ended(run_threads(rt, alloc, world, script, gate)))
}

/// The observations after a run of a text over 64 slots, or why it has no outcome.
pub(crate) fn run_with_gate<R: Threads + Wait + Sync, G: Gate>(
    rt: &R,
    alloc: Global,
    text: &[u8],
    gate: &G,
) -> Result<Result<Noted, RunError>, Fail> {
    let script = script(alloc, text)?;
    run_over(rt, alloc, &script, 64, gate)
}

/// The observations after a run by this rule.
pub(crate) fn seen_by<R: Threads + Wait + Sync>(
    rt: &R,
    alloc: Global,
    text: &[u8],
    rule: Rule,
) -> Result<Noted, Fail> {
    Ok(run_with_gate(rt, alloc, text, &Ruled::by(rule))??)
}

/// Why a run by this rule has no outcome.
pub(crate) fn fault_by<R: Threads + Wait + Sync>(
    rt: &R,
    alloc: Global,
    text: &[u8],
    rule: Rule,
) -> Result<Option<RunError>, Fail> {
    Ok(run_with_gate(rt, alloc, text, &Ruled::by(rule))?.err())
}

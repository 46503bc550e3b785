//! Whole runs: whatever the schedule, they end as expected.
use crate::shared::{Rule, Ruled, run_over, script, seen_by};
use shm_base::{Chunk, Reply, Tally};
use shm_text::{FlushLine, Line, Script};
use shm_threads::RunError;
use std::alloc::Global;
use std::sync::Wait;
use std::test::Fail;
use std::thread::Threads;

pub(crate) const TWO: &[u8] = b"\
limits 65536 16 64 4 1\n\
process 1 100 100\n\
process 2 100 100\n\
1 shmget private 1 600\n\
1 shmget private 1 600\n\
2 shmget private 1 600\n\
2 shmget private 1 600\n";

/// The second process is declared first.
pub(crate) const TURNED: &[u8] = b"\
limits 65536 16 64 4 1\n\
process 2 100 100\n\
process 1 100 100\n\
1 exec\n\
2 exec\n";

const CHILD: &[u8] = b"\
limits 65536 16 64 4 1\n\
process 1 100 100\n\
child 2\n\
1 exit\n\
2 exit\n\
1 exit\n";

/// A parent and its child, which is declared first.
pub(crate) const FAMILY: &[u8] = b"\
limits 65536 16 64 4 1\n\
child 2\n\
process 1 100 100\n\
1 fork 2\n\
2 exec\n\
1 exit\n";

/// A child forks another, and one is never born.
const TREE: &[u8] = b"\
limits 65536 16 64 4 1\n\
process 1 100 100\n\
child 2\n\
child 3\n\
child 4\n\
child 5\n\
5 exit\n\
2 fork 4\n\
1 fork 2\n\
1 fork 3\n";

/// Eight waiting children. One of them is born, and the others never are.
const WAITERS: &[u8] = b"\
limits 65536 16 64 4 1\n\
child 2\n\
child 3\n\
child 4\n\
child 5\n\
child 6\n\
child 7\n\
child 8\n\
child 9\n\
process 1 100 100\n\
1 exec\n\
1 fork 8\n\
8 exec\n\
1 exec\n";

const PAIR: &[u8] = b"\
limits 65536 16 64 4 1\n\
process 1 100 100\n\
process 2 100 100\n";

/// A head; lines that follow it this many times; the rule of the run; and the observations after it: this
/// many events, and this many calls of each process.
struct Whole {
    name: &'static str,
    head: &'static [u8],
    lines: &'static [u8],
    times: u32,
    rule: Rule,
    events: usize,
    calls: &'static [usize],
}

const RUNS: &[Whole] = &[
    Whole {
        name: "two run at once",
        head: TWO,
        lines: &[],
        times: 0,
        rule: Rule::Meet,
        events: 4,
        calls: &[2, 2],
    },
    Whole {
        name: "a child is never born",
        head: CHILD,
        lines: &[],
        times: 0,
        rule: Rule::Open,
        events: 1,
        calls: &[1, 0],
    },
    Whole {
        name: "a child runs before its parent ends",
        head: FAMILY,
        lines: &[],
        times: 0,
        rule: Rule::ChildFirst,
        events: 3,
        calls: &[1, 2],
    },
    Whole {
        name: "children of children",
        head: TREE,
        lines: b"4 exec\n3 exec\n2 exec\n1 exec\n",
        times: 10,
        rule: Rule::Open,
        events: 43,
        calls: &[12, 11, 10, 10, 0],
    },
    Whole {
        name: "as many lines as there may be",
        head: PAIR,
        lines: b"1 exec\n2 exec\n",
        times: 50_000,
        rule: Rule::Open,
        events: 100_000,
        calls: &[50_000, 50_000],
    },
];

// Whether a run ends as expected.
fn ends_so<R: Threads + Wait + Sync>(rt: &R, alloc: Global, run: &Whole) -> Result<bool, Fail> {
    let text = repeated(alloc, run.head, run.lines, run.times)?;
    let seen = seen_by(rt, alloc, &text, run.rule)?;
    Ok(seen.events == run.events && seen.has_calls(run.calls))
}

#[test]
fn runs_end_as_stated(rt: HostRuntime) -> Result<(), Fail> {
    for run in RUNS {
        assert!(rt; ends_so(&rt, rt.alloc(), run)?, "{}", run.name);
    }
    Ok(())
}

// The head, and then the lines this many times.
pub(crate) fn repeated(
    alloc: Global,
    head: &[u8],
    lines: &[u8],
    times: u32,
) -> Result<Vec<u8>, Fail> {
    let mut text = Vec::from_slice(alloc, head)?;
    for _ in 0..times {
        text.extend_from_slice(lines)?;
    }
    Ok(text)
}

/// Process 1 shares its page with three children, and then needs frames for another segment.
pub(crate) const COUNTER: &[u8] = b"\
limits 65536 16 64 2 0\n\
process 1 100 100\n\
child 2\n\
child 3\n\
child 4\n\
1 shmget private 4096 600\n\
1 shmat 0 null -\n\
1 fork 2\n\
1 fork 3\n\
1 fork 4\n\
1 t = shmget private 12288 600\n\
1 b = shmat t null -\n\
1 store b 01\n\
1 store b+4096 02\n\
1 store b+8192 03\n\
1 rmid t\n\
1 shmdt b\n";

pub(crate) const COUNTS: &[u8] = b"\
1 xadd 0x40000000 1\n\
2 xadd 0x40000000 1\n\
3 xadd 0x40000000 1\n\
4 xadd 0x40000000 1\n\
1 xadd 0x40000000 1\n\
2 xadd 0x40000000 1\n\
3 xadd 0x40000000 1\n\
4 xadd 0x40000000 1\n\
0 flush 2\n";

#[test]
fn four_count_together(rt: HostRuntime) -> Result<(), Fail> {
    let alloc = rt.alloc();
    let text = repeated(alloc, COUNTER, COUNTS, 50)?;
    let seen = seen_by(&rt, alloc, &text, Rule::Open)?;
    assert_eq!(rt; seen.events, 412);
    assert_eq!(rt; (seen.tally.segments, seen.tally.reserved), (1, 1));
    assert!(rt; seen.tally.used <= 1);
    assert!(rt; seen.has_calls(&[112, 100, 100, 100]));
    // the counter of process 1 has counted all 400
    let sum = Chunk::new(&[0x90, 1, 0, 0, 0, 0, 0, 0]).ok_or("8 bytes")?;
    assert!(rt; seen.loaded == Some(Reply::Bytes(sum)));
    Ok(())
}

/// A parent and its child unmap the pages of a marked segment. The parent protects its other page, and the
/// child becomes another user.
const CHANGES: &[u8] = b"\
limits 65536 16 64 4 1\n\
process 1 100 100\n\
child 2\n\
1 s = shmget private 4096 600\n\
1 a = shmat s null -\n\
1 store a 2a\n\
1 t = shmget private 8192 600\n\
1 b = shmat t null -\n\
1 fork 2\n\
1 rmid t\n\
1 mprotect a 4096 ro\n\
1 store a 2b\n\
1 munmap b+4096 4096\n\
1 munmap b 4096\n\
2 setuid 200 200\n\
2 lock 0\n\
2 munmap 0x40001000 8192\n";

#[test]
fn pieces_and_users_change(rt: HostRuntime) -> Result<(), Fail> {
    let alloc = rt.alloc();
    let seen = seen_by(&rt, alloc, CHANGES, Rule::Open)?;
    assert_eq!(rt; seen.events, 14);
    assert!(rt; seen.has_calls(&[11, 3]));
    // the marked segment is gone with its last piece, and user 200 may not lock the other one
    assert_eq!(rt;
        (seen.tally.segments, seen.tally.reserved, seen.tally.locked),
        (1, 1, 0)
    );
    // nothing was stored in the read-only page
    let kept = Chunk::new(&[0x2a, 0, 0, 0, 0, 0, 0, 0]).ok_or("8 bytes")?;
    assert!(rt; seen.loaded == Some(Reply::Bytes(kept)));
    Ok(())
}

// Adds a line for each of 64 processes, with this beginning and end.
fn push_lines(alloc: Global, text: &mut Vec<u8>, head: &str, tail: &str) -> Result<(), Fail> {
    for pid in 1..65 {
        let line = format!(in alloc; "{head}{pid}{tail}\n")?;
        text.extend_from_slice(line.as_bytes())?;
    }
    Ok(())
}

fn many_processes(alloc: Global) -> Result<Vec<u8>, Fail> {
    let mut text = Vec::from_slice(alloc, b"limits 65536 16 64 4 1\n".as_slice())?;
    push_lines(alloc, &mut text, "process ", " 100 100")?;
    push_lines(alloc, &mut text, "", " shmget 5 4096 600,creat")?;
    Ok(text)
}

#[test]
fn as_many_processes_as_allowed(rt: HostRuntime) -> Result<(), Fail> {
    let text = many_processes(rt.alloc())?;
    let seen = seen_by(&rt, rt.alloc(), &text, Rule::Open)?;
    assert_eq!(rt; seen.events, 64);
    assert_eq!(rt; seen.indexes, 1);
    Ok(())
}

const THREE_CALLS: &[u8] = b"\
limits 65536 16 64 4 1\n\
process 1 100 100\n\
process 2 100 100\n\
1 exec\n\
2 exec\n\
1 exit\n";

// Adds three rounds, of one, two and three pages.
fn push_rounds(script: &mut Script) -> Result<(), Fail> {
    for pages in 1..4 {
        let round = FlushLine::new(pages).ok_or("1 to 4096")?;
        script.lines.push(Line::Flush(round))?;
    }
    Ok(())
}

// Whether the flusher makes this many rounds, and the run ends as expected.
fn makes_rounds<R: Threads + Wait + Sync>(
    rt: &R,
    alloc: Global,
    script: &Script,
    (most, fault): (u64, Option<RunError>),
) -> Result<bool, Fail> {
    let gate = Ruled::by(Rule::Rounds(most));
    let ended = run_over(rt, alloc, script, 64, &gate)?.err();
    Ok(ended == fault && gate.rounds() == most)
}

const MOST_ROUNDS: &[(u64, Option<RunError>)] = &[
    (3, None),
    (1, Some(RunError::GateExpired { pid: 0 })),
];

#[test]
fn the_flusher_makes_its_rounds(rt: HostRuntime) -> Result<(), Fail> {
    let mut script = script(rt.alloc(), THREE_CALLS)?;
    push_rounds(&mut script)?;
    for &rounds in MOST_ROUNDS {
        assert!(rt;
            makes_rounds(&rt, rt.alloc(), &script, rounds)?,
            "at most {}",
            rounds.0
        );
    }
    Ok(())
}

const FOUR_CALLS: &[u8] = b"\
limits 65536 16 64 4 1\n\
process 1 100 100\n\
1 s = shmget private 8192 600\n\
1 a = shmat s null -\n\
1 store a+4094 01020304\n\
1 load a+4093 6\n";

/// Four calls that leave two pages dirty, and flush rounds of at most this many pages.
pub(crate) fn late(alloc: Global, rounds: &[u64]) -> Result<Vec<u8>, Fail> {
    let mut text = Vec::from_slice(alloc, FOUR_CALLS)?;
    for pages in rounds {
        let round = format!(in alloc; "0 flush {pages}\n")?;
        text.extend_from_slice(round.as_bytes())?;
    }
    Ok(text)
}

/// The counts after four calls and a round of one page.
const ONE_WRITTEN: Tally = Tally {
    events: 4,
    segments: 1,
    reserved: 2,
    locked: 0,
    frames: 4,
    resident: 2,
    dirty: 1,
    slots: 64,
    used: 1,
    ins: 0,
    outs: 1,
    failures: 0,
};

const ROUNDS: &[(u64, Tally)] = &[
    (1, ONE_WRITTEN),
    (
        2,
        Tally {
            dirty: 0,
            used: 2,
            outs: 2,
            ..ONE_WRITTEN
        },
    ),
];

// The counts after the calls and a round of this many pages.
fn counted_late<R: Threads + Wait + Sync>(
    rt: &R,
    alloc: Global,
    pages: u64,
) -> Result<Tally, Fail> {
    let text = late(alloc, &[pages])?;
    Ok(seen_by(rt, alloc, &text, Rule::AfterCalls(4))?.tally)
}

#[test]
fn a_round_after_the_last_call(rt: HostRuntime) -> Result<(), Fail> {
    for (pages, tally) in ROUNDS {
        assert!(rt;
            counted_late(&rt, rt.alloc(), *pages)? == *tally,
            "of {pages}"
        );
    }
    Ok(())
}

const WIDE: &[u8] = b"\
limits 524288 16 128 128 0\n\
process 1 100 100\n\
1 s = shmget private 266240 600\n\
1 a = shmat s null -\n";

// Stores a byte in each of 65 pages, and asks for a round of all of them.
fn wide(alloc: Global) -> Result<Vec<u8>, Fail> {
    let mut text = Vec::from_slice(alloc, WIDE)?;
    for page in 0u32..65 {
        let addr = page * 4096;
        let line = format!(in alloc; "1 store a+{addr} 01\n")?;
        text.extend_from_slice(line.as_bytes())?;
    }
    text.extend_from_slice(b"0 flush 65\n".as_slice())?;
    Ok(text)
}

#[test]
fn a_round_of_many_pages(rt: HostRuntime) -> Result<(), Fail> {
    let alloc = rt.alloc();
    let script = script(alloc, &wide(alloc)?)?;
    let seen = run_over(&rt, alloc, &script, 128, &Ruled::by(Rule::AfterCalls(67)))??;
    assert_eq!(rt; seen.events, 67);
    assert_eq!(rt; (seen.tally.resident, seen.tally.dirty), (65, 0));
    assert_eq!(rt; (seen.tally.used, seen.tally.outs), (65, 65));
    Ok(())
}

// A parent waits for a call of the child that it forked, while seven other children wait that are never born.
#[test]
fn a_fork_wakes_the_child(rt: HostRuntime) -> Result<(), Fail> {
    let seen = seen_by(&rt, rt.alloc(), WAITERS, Rule::Waited)?;
    assert_eq!(rt; seen.events, 4);
    assert_eq!(rt; seen.transcripts, 9);
    Ok(())
}

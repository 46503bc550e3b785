//! When a run calls its gate, and how a run ends if its gate ends a worker.
use crate::runs::{FAMILY, TURNED, TWO};
use crate::shared::{Rule, Ruled, fault_by, run_with_gate, seen_by};
use Rule::{Below, OnceWithout, Without};
use shm_base::Reply;
use shm_threads::RunError;
use std::test::Fail;

const ROUNDS: &[u8] = b"\
limits 65536 16 64 4 1\n\
process 1 100 100\n\
process 2 100 100\n\
1 exec\n\
2 exec\n\
0 flush 1\n\
1 exec\n\
2 exec\n\
0 flush 1\n\
1 exit\n\
2 exit\n";

#[test]
fn a_gate_is_called_before_and_after_each_call(rt: HostRuntime) -> Result<(), Fail> {
    let gate = Ruled::by(Rule::Open);
    let seen = run_with_gate(&rt, rt.alloc(), ROUNDS, &gate)??;
    assert_eq!(rt; seen.events, 6);
    // the flusher's two rounds and the three calls of each process, and nothing out of order
    assert!(rt; gate.counts() == [2, 2, 3, 3, 3, 3, 0]);
    Ok(())
}

/// The second process looks for what the first one made.
const LOOK: &[u8] = b"\
limits 65536 16 64 4 1\n\
process 1 100 100\n\
process 2 100 100\n\
1 shmget 5 4096 600,creat\n\
2 shmget 5 0 600\n";

#[test]
fn a_gate_is_called_after_the_answer(rt: HostRuntime) -> Result<(), Fail> {
    let seen = seen_by(&rt, rt.alloc(), LOOK, Rule::DuringAfter)?;
    assert!(rt; seen.last == Some((2, Reply::Id(0))));
    Ok(())
}

/// The worker that a run names if the gate ends workers: all of them, those of the processes, one, or none. What
/// a gate says is noted when it says it, so a gate that would answer otherwise if it were asked again changes
/// nothing.
const ENDED: &[(&str, &[u8], Rule, Option<u32>)] = &[
    ("the flusher before a process", ROUNDS, Below(0), Some(0)),
    ("the processes", ROUNDS, Below(1), Some(1)),
    ("none", ROUNDS, Rule::Open, None),
    ("both of two", TWO, Below(1), Some(1)),
    ("both, the second declared first", TURNED, Below(1), Some(1)),
    ("the second of two", TWO, Below(2), Some(2)),
    ("one that might pass later", TWO, OnceWithout(1), Some(1)),
    (
        "the flusher that might pass later",
        ROUNDS,
        OnceWithout(0),
        Some(0),
    ),
    ("a parent, whose run ends", FAMILY, Without(1), Some(1)),
];

#[test]
fn a_gate_ends_workers(rt: HostRuntime) -> Result<(), Fail> {
    for &(name, text, rule, ended) in ENDED {
        let fault = ended.map(|pid| RunError::GateExpired { pid });
        assert!(rt; fault_by(&rt, rt.alloc(), text, rule)? == fault, "{name}");
    }
    Ok(())
}

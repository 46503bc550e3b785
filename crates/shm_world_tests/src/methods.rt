//! Each method when it succeeds; and failures of the listed calls and sides.
use bitflags::Flags;
use shm_base::{AccessLen, AtFlags, Call, Chunk, Cred, Errno, GetFlags, Limits, Process};
use shm_machine::{AreaConfig, AreaKind, Failure, Machine, Refusal, Side};
use std::alloc::{AllocError, Global};
use std::test::Fail;

// Two frames over one area of eight slots; user 0 as process 1, which may fork process 2.
fn machine_over(alloc: Global, kind: AreaKind, failures: &[Failure]) -> Result<Machine, Fail> {
    let limits = Limits::new(16384, 4, 8, 2, 0)
        .ok()
        .ok_or("the limits hold")?;
    let processes = [
        Process {
            pid: 1,
            born: Some(Cred { uid: 0, gid: 0 }),
        },
        Process { pid: 2, born: None },
    ];
    match Machine::open(
        alloc,
        limits,
        &[AreaConfig { kind, slots: 8 }],
        failures,
        &processes,
    ) {
        Ok(machine) => Ok(machine),
        Err(_) => Err("the machine opens".into()),
    }
}

fn chunk_of(bytes: &[u8]) -> Result<Chunk, Fail> {
    Ok(Chunk::new(bytes).ok_or("1 to 64 bytes")?)
}

// A segment of this many bytes, attached where the machine chooses.
fn attached(machine: &mut Machine, size: u64) -> Result<u64, Refusal> {
    let id = machine.get(1, 0, size, 0o600, GetFlags::from_bits_retain(0))?;
    machine.attach(1, id, 0, AtFlags::from_bits_retain(0))
}

// The result of the third of three stores, each to a page of its own, and its result when it is made again.
fn third_store(machine: &mut Machine) -> Result<(bool, bool), Fail> {
    if attached(machine, 12288) != Ok(0x40000000) {
        return Err("the segment is attached".into());
    }
    let pages = [0x40000000, 0x40001000, 0x40002000, 0x40002000];
    let mut answers = [true; 4];
    for (answer, addr) in answers.iter_mut().zip(pages) {
        let chunk = chunk_of(&[7])?;
        *answer = match machine.perform(1, &Call::Store { addr, chunk }) {
            Ok(()) => true,
            Err(refusal) => {
                if refusal != Refusal::Refused(Errno::Sigbus) {
                    return Err("a pager failed".into());
                }
                false
            }
        };
    }
    if !answers[0] || !answers[1] {
        return Err("two pages have their frames".into());
    }
    Ok((answers[2], answers[3]))
}

fn third_store_over(
    alloc: Global,
    kind: AreaKind,
    failures: &[Failure],
) -> Result<(bool, bool), Fail> {
    let mut machine = machine_over(alloc, kind, failures)?;
    third_store(&mut machine)
}

fn first_write(side: Side) -> Failure {
    Failure {
        area: 0,
        side,
        is_write: true,
        call: 1,
    }
}

// The third page gets a frame by the eviction of a dirty page: the area's first write.
#[test]
fn listed_writes_fail(rt: HostRuntime) -> Result<(), Fail> {
    let alloc = rt.alloc();
    let left = first_write(Side::Left);
    let right = first_write(Side::Right);
    let read = Failure {
        is_write: false,
        ..left
    };
    let second = Failure { call: 2, ..left };
    let other = Failure { area: 1, ..left };
    let fails = (false, true);
    let works = (true, true);
    assert!(rt; third_store_over(alloc, AreaKind::Ram, &[left])? == fails);
    assert!(rt; third_store_over(alloc, AreaKind::Sparse, &[left])? == fails);
    assert!(rt; third_store_over(alloc, AreaKind::Ram, &[left, second])? == (false, false));
    assert!(rt; third_store_over(alloc, AreaKind::Ram, &[read, second, other, right])? == works);
    assert!(rt; third_store_over(alloc, AreaKind::Mirror, &[left])? == works);
    assert!(rt; third_store_over(alloc, AreaKind::Mirror, &[right])? == works);
    assert!(rt; third_store_over(alloc, AreaKind::Mirror, &[left, right])? == fails);
    Ok(())
}

// Calls each method once. Returns false if an answer is not what the rules say.
fn each_method(machine: &mut Machine) -> Result<bool, Refusal> {
    let at = attached(machine, 8192)?;
    let Some(two) = AccessLen::new(2) else {
        return Ok(false);
    };
    let before = machine.add(1, at, 513)?;
    let sum = machine.load(1, at, two)?;
    let shown = machine.stat(1, 0)?;
    machine.perform(1, &Call::Fork { child: 2 })?;
    let report = machine.system.flush(9);
    let tally = machine.system.tally();
    let listed = machine.system.segment(0).is_some() && machine.system.segment(1).is_none();
    Ok(
        at == 0x40000000
            && before == 0
            && sum.as_slice() == [1, 2].as_slice()
            && shown.nattch == 1
            && report.written == 1
            && tally.events == 6
            && tally.segments == 1
            && machine.system.calls() == 6
            && machine.system.indexes() == 1
            && listed,
    )
}

#[test]
fn methods_answer(rt: HostRuntime) -> Result<(), Fail> {
    let mut machine = machine_over(rt.alloc(), AreaKind::Ram, &[])?;
    match each_method(&mut machine) {
        Ok(answer) => assert!(rt; answer),
        Err(_) => return Err("no method refuses".into()),
    }
    Ok(())
}

// 130 bytes over the border of two pages: two calls in each direction. A read past the piece stops at its
// second call.
fn each_way(machine: &mut Machine) -> Result<bool, Refusal> {
    let found = attached(machine, 8192)?;
    let at = 0x40000000;
    let out = machine.write(1, at + 4000, &[5; 130]);
    let mut bytes = [9; 132];
    let back = machine.read(1, at + 3999, &mut bytes);
    let ends = bytes[0] == 0 && bytes[1] == 5 && bytes[130] == 5 && bytes[131] == 0;
    let mut past = [9; 70];
    let stopped = machine.read(1, at + 8192 - 64, &mut past);
    let none = machine.write(1, u64::MAX, &[]);
    let sigsegv = Some(Refusal::Refused(Errno::Sigsegv));
    Ok(
        found == at
            && ends
            && out.done == 130
            && out.stopped.is_none()
            && back.done == 132
            && back.stopped.is_none()
            && stopped.done == 64
            && stopped.stopped == sigsegv
            && past[63] == 0
            && past[64] == 9
            && none.done == 0
            && none.stopped.is_none()
            && machine.system.calls() == 8,
    )
}

#[test]
fn any_length(rt: HostRuntime) -> Result<(), Fail> {
    let mut machine = machine_over(rt.alloc(), AreaKind::Sparse, &[])?;
    match each_way(&mut machine) {
        Ok(answer) => assert!(rt; answer),
        Err(_) => return Err("the segment is attached".into()),
    }
    Ok(())
}

fn text_of(alloc: Global, refusal: Refusal) -> Result<String, AllocError> {
    format!(in alloc; "{refusal}")
}

#[test]
fn refusals_are_reported(rt: HostRuntime) {
    let texts = [
        (Refusal::Refused(Errno::Enoent), "refused: ENOENT"),
        (Refusal::HostMemory, "out of memory"),
        (Refusal::Spent, "no more calls can be counted"),
        (Refusal::Lent, "a page on loan is in the way"),
    ];
    for (refusal, want) in texts {
        assert!(rt; text_of(rt.alloc(), refusal).is_ok_and(|t| t.as_str() == want));
    }
}

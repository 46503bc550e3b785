//! Processes that come and go, credentials that change, and the time that the host gives.
use bitflags::Flags;
use shm_base::{
    AdmitRefusal, AtFlags, Call, Cred, DismissRefusal, Errno, GetFlags, Limits, Process, ShmidDs,
};
use shm_machine::{AreaConfig, AreaKind, Machine, Refusal};
use std::alloc::Global;
use std::test::Fail;

fn user(id: u32) -> Cred {
    Cred { uid: id, gid: id }
}

// Process 1 of user 100, with a segment of one page that only its owner may use.
fn machine_of_one(alloc: Global) -> Result<Machine, Fail> {
    let limits = Limits::new(16384, 4, 8, 2, 0)
        .ok()
        .ok_or("the limits hold")?;
    let area = AreaConfig {
        kind: AreaKind::Ram,
        slots: 8,
    };
    let first = Process {
        pid: 1,
        born: Some(user(100)),
    };
    let Ok(mut machine) = Machine::open(alloc, limits, &[area], &[], &[first]) else {
        return Err("the machine opens".into());
    };
    match machine.get(1, 0, 4096, 0o600, GetFlags::from_bits_retain(0)) {
        Ok(0) => Ok(machine),
        _ => Err("the first segment is segment 0".into()),
    }
}

fn admitted(
    machine: &mut Machine,
    alloc: Global,
    pid: u32,
    born: Option<Cred>,
) -> Result<Result<(), AdmitRefusal>, Fail> {
    match machine.system.admit(alloc, &Process { pid, born }) {
        Ok(answer) => Ok(answer),
        Err(_) => Err("there is memory".into()),
    }
}

fn attached(machine: &mut Machine, pid: u32) -> bool {
    machine.attach(pid, 0, 0, AtFlags::from_bits_retain(0)) == Ok(0x40000000)
}

fn shown(machine: &mut Machine) -> Result<ShmidDs, Fail> {
    match machine.stat(1, 0) {
        Ok(shown) => Ok(shown),
        Err(_) => Err("process 1 may read its segment".into()),
    }
}

fn ends(machine: &mut Machine, pid: u32) -> bool {
    machine.perform(pid, &Call::Exit) == Ok(())
}

// A process joins, attaches the segment and forks a child; both end and leave. Returns the attach counts
// meanwhile and at the end.
fn live_once(
    machine: &mut Machine,
    alloc: Global,
    pid: u32,
    child: u32,
) -> Result<(u32, u32), Fail> {
    let joined = admitted(machine, alloc, pid, Some(user(100)))?;
    let declared = admitted(machine, alloc, child, None)?;
    if joined != Ok(()) || declared != Ok(()) || !attached(machine, pid) {
        return Err("a process joins, and its child".into());
    }
    if machine.perform(pid, &Call::Fork { child }) != Ok(()) {
        return Err("the child is forked".into());
    }
    let meanwhile = shown(machine)?.nattch;
    if machine.system.dismiss(child) != Err(DismissRefusal::StillLive) {
        return Err("a live process stays".into());
    }
    if !ends(machine, pid) || !ends(machine, child) {
        return Err("both end".into());
    }
    if machine.system.dismiss(pid) != Ok(()) || machine.system.dismiss(child) != Ok(()) {
        return Err("both leave".into());
    }
    Ok((meanwhile, shown(machine)?.nattch))
}

// Many more processes than the 64 that may exist at a time, with few pids.
#[test]
fn pids_are_used_again(rt: HostRuntime) -> Result<(), Fail> {
    let alloc = rt.alloc();
    let mut machine = machine_of_one(alloc)?;
    for turn in 0..200_u32 {
        let pid = 2 + turn % 7;
        assert!(rt; live_once(&mut machine, alloc, pid, pid + 7)? == (2, 0));
    }
    assert!(rt; machine.system.dismiss(2) == Err(DismissRefusal::NoProcess));
    Ok(())
}

#[test]
fn at_most_64_processes(rt: HostRuntime) -> Result<(), Fail> {
    let alloc = rt.alloc();
    let mut machine = machine_of_one(alloc)?;
    for pid in 2..65_u32 {
        assert!(rt; admitted(&mut machine, alloc, pid, Some(user(100)))? == Ok(()));
    }
    let next = admitted(&mut machine, alloc, 65, Some(user(100)))?;
    assert!(rt; next == Err(AdmitRefusal::TooManyProcesses));
    let taken = admitted(&mut machine, alloc, 64, Some(user(100)))?;
    assert!(rt; taken == Err(AdmitRefusal::PidTaken));
    assert!(rt; admitted(&mut machine, alloc, 0, None)? == Err(AdmitRefusal::BadPid));
    // An ended process counts until it is dismissed, but its own pid can be used again.
    assert!(rt; ends(&mut machine, 64));
    let still = admitted(&mut machine, alloc, 65, None)?;
    assert!(rt; still == Err(AdmitRefusal::TooManyProcesses));
    assert!(rt; admitted(&mut machine, alloc, 64, Some(user(100)))? == Ok(()));
    assert!(rt; ends(&mut machine, 2));
    assert!(rt; machine.system.dismiss(2) == Ok(()));
    assert!(rt; admitted(&mut machine, alloc, 65, None)? == Ok(()));
    // The last process took the index of the one that left, and is found there.
    assert!(rt; attached(&mut machine, 64));
    Ok(())
}

// A process asks to be this user from now on.
fn becomes(machine: &mut Machine, pid: u32, id: u32) -> Result<(), Refusal> {
    machine.perform(pid, &Call::Setuid { uid: id, gid: id })
}

#[test]
fn another_user_is_granted(rt: HostRuntime) -> Result<(), Fail> {
    let alloc = rt.alloc();
    let mut machine = machine_of_one(alloc)?;
    assert!(rt; admitted(&mut machine, alloc, 2, Some(user(200)))? == Ok(()));
    let refused = Err(Refusal::Refused(Errno::Eacces));
    assert!(rt; machine.stat(2, 0) == refused);
    assert!(rt; becomes(&mut machine, 2, 100) == Ok(()));
    assert!(rt; attached(&mut machine, 2));
    assert!(rt; becomes(&mut machine, 2, 200) == Ok(()));
    assert!(rt; machine.stat(2, 0) == refused);
    assert!(rt; shown(&mut machine)?.nattch == 1);
    assert!(rt; becomes(&mut machine, 3, 0) == Err(Refusal::Refused(Errno::Esrch)));
    Ok(())
}

#[test]
fn times_come_from_the_host(rt: HostRuntime) -> Result<(), Fail> {
    let mut machine = machine_of_one(rt.alloc())?;
    machine.system.set_time(Some(1_700_000_000));
    assert!(rt; attached(&mut machine, 1));
    let now = shown(&mut machine)?;
    assert!(rt; now.ctime == 1);
    assert!(rt; now.atime == 1_700_000_000);
    machine.system.set_time(None);
    assert!(rt; machine.perform(1, &Call::Shmdt { addr: 0x40000000 }) == Ok(()));
    // Three calls were made before.
    assert!(rt; shown(&mut machine)?.dtime == 4);
    Ok(())
}

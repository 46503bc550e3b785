//! Changes that the host of a guest makes: processes join and leave, the time and limits are set, and swap areas are
//! added.
ghost use Rattle.std.specs.Prelude.{◌≡◌};
ghost use Rattle.nogcuvema.specs.Hosting.{admit_code, dismiss_code, fits_area, HostedThrough, AdmitsBy, DismissesBy, EnlargesBy, LimitsBy, TellsTime};
ghost use Rattle.nogcuvema.specs.Opens.{process_of};

use crate::code::{DONE, NO_MEMORY, OUT_OF_RANGE};
use crate::handle::{Handle, with_machine};
use crate::open::{
    BAD_LIMITS, START_REFUSED, are_kinds, are_there, failures_of, kind_of, process_of,
};
use crate::structs::{NogArea, NogFailure, NogProcess};
use shm_base::{AdmitRefusal, DismissRefusal, Process};
use shm_life::{NewLimits, StartError};
use shm_machine::{AreaConfig, Machine};
use std::alloc::Global;

fn admit_code(refusal: AdmitRefusal) -> u32
    ensures { result ≡ admit_code refusal }
{
    match refusal {
        AdmitRefusal::BadPid => 2031,
        AdmitRefusal::PidTaken => 2032,
        AdmitRefusal::TooManyProcesses => 2033,
    }
}

fn dismiss_code(refusal: DismissRefusal) -> u32
    ensures { result ≡ dismiss_code refusal }
{
    match refusal {
        DismissRefusal::NoProcess => 2041,
        DismissRefusal::StillLive => 2042,
    }
}

fn admitted(alloc: Global, machine: &mut Machine, process: &Process) -> u32
    ensures { AdmitsBy process.now machine.old result machine.new }
{
    match machine.system.admit(alloc, process) {
        Ok(Ok(())) => DONE,
        Ok(Err(refusal)) => admit_code(refusal),
        Err(_) => NO_MEMORY,
    }
}

fn dismissed(machine: &mut Machine, pid: u32) -> u32
    ensures { DismissesBy pid machine.old result machine.new }
{
    match machine.system.dismiss(pid) {
        Ok(()) => DONE,
        Err(refusal) => dismiss_code(refusal),
    }
}

fn limited(machine: &mut Machine, limits: &NewLimits) -> u32
    ensures { LimitsBy limits.now machine.old result machine.new }
{
    match machine.system.set_limits(limits) {
        Ok(()) => DONE,
        Err(bad) => BAD_LIMITS + u32::from(bad.0),
    }
}

// Whether the area is of a kind, and each failure is one of its calls.
fn fits_area(area: &NogArea, failures: &[NogFailure]) -> bool
    ensures { result ≡ fits_area area.now failures.now }
{
    let alone = [*area];
    are_kinds(&alone) && are_there(&alone, failures)
}

fn enlarged(alloc: Global, machine: &mut Machine, area: &NogArea, failures: &[NogFailure]) -> u32
    ensures { EnlargesBy area.now failures.now machine.old result machine.new }
{
    if !fits_area(area, failures) {
        return OUT_OF_RANGE;
    }
    if let Some(refusal) = machine.system.area_refusal(area.slots) {
        return START_REFUSED + u32::from(refusal.number());
    }
    let Ok(failures) = failures_of(alloc, failures) else {
        return NO_MEMORY;
    };
    let config = AreaConfig {
        kind: kind_of(area.kind),
        slots: area.slots,
    };
    match machine.add_area(alloc, &config, &failures) {
        Ok(()) => DONE,
        Err(StartError::HostMemory) => NO_MEMORY,
        Err(refusal) => START_REFUSED + u32::from(refusal.number()),
    }
}

/// A process joins: live with its user and group, or as a child to be forked. An ended process with its pid
/// gives its place to it. Not counted as a call.
#[unsafe(no_mangle)]
pub extern "C" fn nog_admit(alloc: Global, handle: &mut Handle, process: &NogProcess) -> u32
    ensures { HostedThrough (AdmitsBy (process_of process.now))
        handle.old.kept.value result handle.new.kept.value }
{
    with_machine!(
        alloc,
        handle,
        |machine| admitted(alloc, machine, &process_of(process))
    )
}

/// A process that ended, or a child that is not born yet, leaves. Its pid can be used again. Not counted as a
/// call.
#[unsafe(no_mangle)]
pub extern "C" fn nog_dismiss(alloc: Global, handle: &mut Handle, pid: u32) -> u32
    ensures { HostedThrough (DismissesBy pid) handle.old.kept.value result handle.new.kept.value }
{
    with_machine!(alloc, handle, |machine| dismissed(machine, pid))
}

/// Sets the time that calls note from now on. Not counted as a call.
#[unsafe(no_mangle)]
pub extern "C" fn nog_set_time(alloc: Global, handle: &mut Handle, time: u64) -> u32
    ensures { HostedThrough (TellsTime time) handle.old.kept.value result handle.new.kept.value }
{
    with_machine!(alloc, handle, |machine| {
        machine.system.set_time(Some(time));
        DONE
    })
}

/// Gives the machine another SHMMAX, SHMMNI, SHMALL and MEMLOCK. Segments that exist stay. Not counted as a
/// call.
#[unsafe(no_mangle)]
pub extern "C" fn nog_set_limits(
    alloc: Global,
    handle: &mut Handle,
    shmmax: u64,
    shmmni: u64,
    shmall: u64,
    memlock: u64,
) -> u32
    ensures { HostedThrough
        (LimitsBy (record { shmmax = shmmax; shmmni = shmmni; shmall = shmall; memlock = memlock }))
        handle.old.kept.value result handle.new.kept.value }
{
    let limits = NewLimits {
        shmmax,
        shmmni,
        shmall,
        memlock,
    };
    with_machine!(alloc, handle, |machine| limited(machine, &limits))
}

/// Adds a swap area with the next number. No byte changes, and no page moves. Not counted as a call.
#[unsafe(no_mangle)]
pub extern "C" fn nog_swapon(
    alloc: Global,
    handle: &mut Handle,
    area: &NogArea,
    failures: &[NogFailure],
) -> u32
    ensures { HostedThrough (EnlargesBy area.now failures.now)
        handle.old.kept.value result handle.new.kept.value }
{
    with_machine!(
        alloc,
        handle,
        |machine| enlarged(alloc, machine, area, failures)
    )
}

//! Opens and closes machines.
ghost use Rattle.std.specs.Prelude.{◌≡◌, ◌≢◌, [], map, IfOk, IfErr, None, is_some, if◌then◌else◌};
ghost use Rattle.shm_life.specs.Start.{start_error};
ghost use Rattle.shm_machine.specs.Opened.{sizes_of};
ghost use Rattle.nogcuvema.specs.Answers.{closed};
ghost use Rattle.nogcuvema.specs.Opens.{kind_of, area_of, failure_of, side_of, limits_by, process_of, rules_of, are_kinds, is_there, are_there, Opens, OpenedTo, IsRefusedBy};

use crate::code::{CLOSED, DONE, NO_MEMORY, OUT_OF_RANGE};
use crate::handle::Handle;
use crate::structs::{NogArea, NogFailure, NogLimits, NogProcess};
use bitflags::Flags;
use shm_base::{BadLimits, Cred, Limits, Process, Rules, Sizes};
use shm_life::{StartError, first_area_error};
use shm_machine::{AreaConfig, AreaKind, Failure, Machine, Side};
use std::alloc::{AllocError, Global};

pub(crate) const BAD_LIMITS: u32 = 2010;

pub(crate) const START_REFUSED: u32 = 2020;

pub(crate) fn kind_of(kind: u32) -> AreaKind
    ensures { result ≡ kind_of kind }
{
    if kind == 1 {
        AreaKind::Ram
    } else if kind == 2 {
        AreaKind::Sparse
    } else {
        AreaKind::Mirror
    }
}

pub(crate) fn side_of(side: u32) -> Side
    ensures { result ≡ side_of side }
{
    if side == 0 { Side::Left } else { Side::Right }
}

fn areas_of(alloc: Global, areas: &[NogArea]) -> Result<Vec<AreaConfig>, AllocError>
    ensures { IfOk result (λ v. v.items ≡ map area_of areas.now) }
{
    let mut all = Vec::new(alloc);
    for area in areas {
        all.push(AreaConfig {
            kind: kind_of(area.kind),
            slots: area.slots,
        })?;
    }
    Ok(all)
}

pub(crate) fn failures_of(
    alloc: Global,
    failures: &[NogFailure],
) -> Result<Vec<Failure>, AllocError>
    ensures { IfOk result (λ v. v.items ≡ map failure_of failures.now) }
{
    let mut all = Vec::new(alloc);
    for failure in failures {
        all.push(Failure {
            area: failure.area,
            side: side_of(failure.side),
            is_write: failure.is_write != 0,
            call: failure.call,
        })?;
    }
    Ok(all)
}

pub(crate) fn process_of(process: &NogProcess) -> Process
    ensures { result ≡ process_of process.now }
{
    let NogProcess {
        pid,
        is_born,
        uid,
        gid,
    } = *process;
    let born = if is_born == 0 {
        None
    } else {
        Some(Cred { uid, gid })
    };
    Process { pid, born }
}

fn processes_of(alloc: Global, processes: &[NogProcess]) -> Result<Vec<Process>, AllocError>
    ensures { IfOk result (λ v. v.items ≡ map process_of processes.now) }
{
    let mut all = Vec::new(alloc);
    for process in processes {
        all.push(process_of(process))?;
    }
    Ok(all)
}

pub(crate) fn are_kinds(areas: &[NogArea]) -> bool
    ensures { result ≡ are_kinds areas.now }
{
    areas.iter().all(|area| area.kind >= 1 && area.kind <= 3)
}

fn is_there(areas: &[NogArea], failure: &NogFailure) -> bool
    ensures { result ≡ is_there areas.now failure.now }
{
    let Some(area) = areas.get(failure.area as usize) else {
        return false;
    };
    let sides = if area.kind == 3 { 2 } else { 1 };
    failure.side < sides && failure.call >= 1
}

pub(crate) fn are_there(areas: &[NogArea], failures: &[NogFailure]) -> bool
    ensures { result ≡ are_there areas.now failures.now }
{
    for failure in failures {
        if !is_there(areas, failure) {
            return false;
        }
    }
    true
}

// The rules for a number. A number with more bits than rules have gives bits that no rule has.
fn rules_of(number: u64) -> Rules
    ensures { result ≡ rules_of number }
{
    Rules::from_bits_retain(number.min(65535) as u16)
}

// The limits, or the first that is out of its range. If the last three numbers are 0, the profile's limits.
fn limits_by(limits: &NogLimits) -> Result<Limits, BadLimits>
    ensures { result ≡ limits_by limits.now }
{
    let sizes = Sizes {
        shmmax: limits.shmmax,
        shmmni: limits.shmmni,
        shmall: limits.shmall,
        frames: limits.frames,
        memlock: limits.memlock,
        most_pieces: limits.most_pieces,
        most_processes: limits.most_processes,
        most_slots: limits.most_slots,
        rules: rules_of(limits.rules),
    };
    if sizes.most_pieces == 0 && sizes.most_processes == 0 && sizes.most_slots == 0 {
        let profile = Limits::new(
            sizes.shmmax,
            sizes.shmmni,
            sizes.shmall,
            sizes.frames,
            sizes.memlock,
        )?;
        return profile.with_rules(sizes.rules);
    }
    Limits::of(&sizes)
}

// The first start error of the areas.
fn area_error(limits: &Limits, areas: &[NogArea]) -> Option<StartError>
    ensures { result ≡ start_error limits.now (sizes_of (map area_of areas.now)) [] }
{
    first_area_error(limits, areas, |area| area.slots)
}

// The machine, or the code of the first refusal.
#[tactic(auto, using(crate::proofs::Standing::memory_wanted))]
fn machine_of(
    alloc: Global,
    limits: &NogLimits,
    areas: &[NogArea],
    failures: &[NogFailure],
    processes: &[NogProcess],
) -> Result<Machine, u32>
    ensures ok { IfOk result (Opens limits.now areas.now failures.now processes.now) }
    ensures err { IfErr result (λ code.
        (code ≢ 0) × IsRefusedBy limits.now areas.now failures.now processes.now code) }
{
    let bounds = match limits_by(limits) {
        Ok(bounds) => bounds,
        Err(bad) => return Err(BAD_LIMITS + u32::from(bad.0)),
    };
    if !are_kinds(areas) || !are_there(areas, failures) {
        return Err(OUT_OF_RANGE);
    }
    if let Some(error) = area_error(&bounds, areas) {
        return Err(START_REFUSED + u32::from(error.number()));
    }
    let Ok(areas) = areas_of(alloc, areas) else {
        return Err(NO_MEMORY);
    };
    let Ok(failures) = failures_of(alloc, failures) else {
        return Err(NO_MEMORY);
    };
    let Ok(processes) = processes_of(alloc, processes) else {
        return Err(NO_MEMORY);
    };
    match Machine::open(alloc, bounds, &areas, &failures, &processes) {
        Ok(machine) => Ok(machine),
        Err(StartError::HostMemory) => Err(NO_MEMORY),
        Err(error) => Err(START_REFUSED + u32::from(error.number())),
    }
}

/// Opens a machine in the handle. The machine that was in it is dropped if that succeeds.
#[unsafe(no_mangle)]
pub extern "C" fn nog_open(
    alloc: Global,
    handle: &mut Handle,
    limits: &NogLimits,
    areas: &[NogArea],
    failures: &[NogFailure],
    processes: &[NogProcess],
) -> u32
    ensures { OpenedTo handle.old.kept.value limits.now areas.now failures.now processes.now
        result handle.new.kept.value }
{
    let machine = match machine_of(alloc, limits, areas, failures, processes) {
        Ok(machine) => machine,
        Err(code) => return code,
    };
    let Ok(made) = Box::new(alloc, machine) else {
        return NO_MEMORY;
    };
    let _before = handle.take(alloc);
    handle.put(made);
    DONE
}

/// Drops the machine.
#[unsafe(no_mangle)]
pub extern "C" fn nog_close(alloc: Global, handle: &mut Handle) -> u32
    ensures code { result ≡ (if is_some handle.old.kept.value then 0 else closed) }
    ensures none { handle.new.kept.value ≡ None }
{
    match handle.take(alloc) {
        Some(_) => DONE,
        None => CLOSED,
    }
}

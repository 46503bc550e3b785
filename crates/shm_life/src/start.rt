//! What a system starts with, and why a start is refused.
ghost use Rattle.std.specs.Prelude.{◌≡◌, ℕ, true, [], length, map, IfOk};
ghost use Rattle.std.specs.Fn.{FnReturnsAt};
ghost use Rattle.shm_base.specs.Bounds.{within};
ghost use Rattle.shm_slots.specs.View.{IsAreaSize};
ghost use Rattle.shm_life.specs.Start.{start_error, are_pids, error_number};

use shm_base::{LAST_PID, Limits, MOST_AREAS, PROFILE_PROCESSES, Process, has_pid};
use shm_pager_core::Pager;
use std::alloc::{AllocError, Global};
use std::collections::HashSet;
use thiserror::Error;

/// Why a system did not start (this project's profile). The first that applies is returned:
///
/// - `Areas`: there are not 1 to 8 swap areas.
/// - `AreaSize`: an area has no slot, or more than the limits allow (65536 in the profile).
/// - `Processes`: there are more than the limits allow (64 in the profile).
/// - `Pid`: a pid is 0, above 2147483647, or used twice.
/// - `HostMemory`: the host refused memory.
#[derive(Clone, Copy, Debug, PartialEq, Eq, Error)]
pub enum StartError {
    #[error("not 1 to 8 swap areas")]
    Areas,
    #[error("a swap area without slots, or with too many")]
    AreaSize,
    #[error("too many processes")]
    Processes,
    #[error("a pid out of range, or twice")]
    Pid,
    #[error("out of memory")]
    HostMemory,
}

impl StartError {
    /// The error's number in messages, from 1.
    pub fn number(self) -> u8
        ensures { result ≡ error_number self }
    {
        match self {
            StartError::Areas => 1,
            StartError::AreaSize => 2,
            StartError::Processes => 3,
            StartError::Pid => 4,
            StartError::HostMemory => 5,
        }
    }
}

// Whether an area may have this many slots.
pub(crate) fn is_area_size(limits: &Limits, slots: u32) -> bool
    ensures value { result ≡ within 1 limits.now.most_slots slots }
    ensures size { result ≡ true → IsAreaSize slots }
{
    slots >= 1 && slots <= limits.most_slots()
}

/// The first start error of swap areas; `slots` gives an area's number of slots. Takes no memory. `Areas`:
/// there are not 1 to 8. `AreaSize`: one has no slot, or more than the limits allow.
pub fn first_area_error<A, F: Fn(&A) -> u32>(
    limits: &Limits,
    areas: &[A],
    slots: F,
) -> Option<StartError>
    requires { F.IsAlwaysCallable slots }
    ensures { (size : A → ℕ) → ((a : A) (n : ℕ) → FnReturnsAt F.Fn slots a n → n ≡ size a)
        → result ≡ start_error limits.now (map size areas.now) [] }
{
    if areas.is_empty() || areas.len() > MOST_AREAS {
        return Some(StartError::Areas);
    }
    for area in areas {
        if !is_area_size(limits, slots(area)) {
            return Some(StartError::AreaSize);
        }
    }
    None
}

fn is_pid(pid: u32) -> bool
    ensures { result ≡ within 1 LAST_PID pid }
{
    pid >= 1 && pid <= LAST_PID
}

// Whether each pid is in its range, and none is used twice. Compares each with each.
fn are_compared_pids_sound(processes: &[Process]) -> bool
    ensures { result ≡ are_pids processes.now }
{
    for (index, process) in processes.iter().enumerate() {
        if !is_pid(process.pid) || has_pid(&processes[index + 1..], process.pid) {
            return false;
        }
    }
    true
}

// The same, by a set of the pids.
fn are_listed_pids_sound(alloc: Global, processes: &[Process]) -> Result<bool, AllocError>
    ensures { IfOk result (λ sound. sound ≡ are_pids processes.now) }
{
    let mut later = HashSet::with_capacity(alloc, processes.len())?;
    let mut index = processes.len();
    while index > 0 {
        index -= 1;
        let pid = processes[index].pid;
        if !is_pid(pid) {
            return Ok(false);
        }
        if !later.insert(pid)? {
            return Ok(false);
        }
    }
    Ok(true)
}

// Whether each pid is in its range, and none is used twice. Compares them if there are no more than in the
// profile, or if the host has no memory for a set.
fn are_pids_sound(alloc: Global, processes: &[Process]) -> bool
    ensures { result ≡ are_pids processes.now }
{
    if processes.len() <= PROFILE_PROCESSES {
        return are_compared_pids_sound(processes);
    }
    match are_listed_pids_sound(alloc, processes) {
        Ok(sound) => sound,
        Err(_) => are_compared_pids_sound(processes),
    }
}

/// The first start error other than out of memory. Takes no memory for at most as many processes as the
/// profile has.
pub(crate) fn first_error<P: Pager>(
    alloc: Global,
    limits: &Limits,
    pagers: &[P],
    processes: &[Process],
) -> Option<StartError>
    ensures { result ≡ start_error limits.now (map (λ p. length (P.content p)) pagers.now) processes.now }
{
    if let Some(error) = first_area_error(limits, pagers, |pager| pager.slots()) {
        return Some(error);
    }
    if processes.len() > limits.most_processes() as usize {
        return Some(StartError::Processes);
    }
    if !are_pids_sound(alloc, processes) {
        return Some(StartError::Pid);
    }
    None
}

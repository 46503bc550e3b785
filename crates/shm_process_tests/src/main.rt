//! A program for tests that need a process of their own. It runs the script on standard input.
//!
//! - `asks SWAP...` prints how often each area's pager was called.
//! - `twins SWAP...` prints the result of two worlds that make the same calls. `-with-room` reserves room in
//!   their histories, and `-without-it` leaves out the call to which memory was refused.
//! - `monitor [gauged|plain]` runs with threads, while a monitor reads the gauge.
#![tactic(auto)]

mod monitor;
mod pager_calls;
mod stop;
mod twins;

use monitor::monitor;
use pager_calls::asks;
use shm_program::{SwapWord, read_swaps, whole_script};
use shm_text::Script;
use std::alloc::Global;
use std::process::ExitCode;
use std::rt::Env;
use std::sync::Wait;
use std::thread::Threads;
use std::{env, io};
use stop::Stop;
use twins::{Way, twins};

// Runs a script over the swap areas.
fn run_mode<R: Print>(
    rt: &R,
    alloc: Global,
    mode: &str,
    script: &Script,
    swaps: &[SwapWord],
) -> Result<(), Stop> {
    let room = script.lines.len();
    match mode {
        "asks" => asks(rt, alloc, script, swaps),
        "twins" => twins(
            rt,
            alloc,
            script,
            swaps,
            Way {
                room: 0,
                again: true,
            },
        ),
        "twins-with-room" => twins(rt, alloc, script, swaps, Way { room, again: true }),
        "twins-without-it" => twins(rt, alloc, script, swaps, Way { room, again: false }),
        _ => Err(Stop::Words),
    }
}

fn run_over<R: Input + Print + AllocGlobal>(
    rt: &R,
    mode: &str,
    words: &[String],
) -> Result<(), Stop> {
    let alloc = rt.alloc();
    let swaps = read_swaps(alloc, words)?.ok_or(Stop::Words)?;
    let script = whole_script(alloc, &mut rt.reader())?;
    run_mode(rt, alloc, mode, &script, &swaps)
}

// Does what the first word says.
fn run_words<R: Input + Print + Eprint + AllocGlobal + Threads + Wait + Sync>(
    rt: &R,
    words: &[String],
) -> Result<(), Stop> {
    match words {
        [] => Err(Stop::Words),
        [mode, its @ ..] if mode.as_str() == "monitor" => monitor(rt, its),
        [mode, swaps @ ..] => run_over(rt, mode.as_str(), swaps),
    }
}

fn run<R: Env + Input + Print + Eprint + AllocGlobal + Threads + Wait + Sync>(
    rt: &R,
) -> Result<(), Stop> {
    let words: Vec<String> = env::args(rt)?.skip(1).collect(rt.alloc())?;
    run_words(rt, &words)
}

fn main(rt: HostRuntime) -> io::Result<ExitCode> {
    match run(&rt) {
        Ok(()) => Ok(ExitCode::SUCCESS),
        Err(stop) => {
            eprintln!(rt; "shm_process_tests: {stop}")?;
            Ok(ExitCode::from(stop.status()))
        }
    }
}

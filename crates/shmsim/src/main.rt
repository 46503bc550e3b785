//! The simulator: it reads a script of processes and calls from standard input, runs it, and writes each
//! reply.
#![tactic(auto)]

mod command;
mod runs;

use command::Stop;
use runs::run_words;
use std::process::ExitCode;
use std::rt::Env;
use std::sync::Wait;
use std::thread::Threads;
use std::{env, io};

// Runs the script on standard input as the command line asks.
fn run<R: Env + Input + Print + AllocGlobal + Threads + Wait + Sync>(rt: &R) -> Result<(), Stop> {
    let alloc = rt.alloc();
    let words: Vec<String> = env::args(rt)?.collect(alloc)?;
    let (mut reader, mut writer) = (rt.reader(), io::writer(rt));
    run_words(rt, alloc, &words, &mut reader, &mut writer)
}

fn main(rt: HostRuntime) -> io::Result<ExitCode> {
    match run(&rt) {
        Ok(()) => Ok(ExitCode::SUCCESS),
        Err(stop) => {
            eprintln!(rt; "shmsim: {stop}")?;
            Ok(ExitCode::from(stop.status()))
        }
    }
}

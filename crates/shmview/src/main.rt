//! The viewer: it reads a script of processes and calls from standard input and writes the record of each step.
#![tactic(auto)]

mod command;
mod lines;
mod runs;
mod steps;
mod stop;
mod view;

use runs::run_words;
use std::process::ExitCode;
use std::rt::Env;
use std::{env, io};
use stop::Stop;

// Views the script on standard input as the command line asks.
fn run<R: Env + Input + Print + AllocGlobal>(rt: &R) -> Result<(), Stop> {
    let alloc = rt.alloc();
    let words: Vec<String> = env::args(rt)?.collect(alloc)?;
    let (mut reader, mut writer) = (rt.reader(), io::writer(rt));
    run_words(alloc, &words, &mut reader, &mut writer)
}

fn main(rt: HostRuntime) -> io::Result<ExitCode> {
    match run(&rt) {
        Ok(()) => Ok(ExitCode::SUCCESS),
        Err(stop) => {
            eprintln!(rt; "shmview: {stop}")?;
            Ok(ExitCode::from(stop.status()))
        }
    }
}

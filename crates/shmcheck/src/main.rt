//! The checker: reads a script of processes and calls from standard input. It writes every outcome that the
//! script can have, or whether one meets a condition, or a verdict on a log of a system's replies, or sampled
//! runs.
#![tactic(auto)]

mod asking;
mod command;
mod judging;
mod listing;
mod machine;
mod ruling;
mod runs;
mod sampling;
mod stop;

use command::{Asked, read_words};
use runs::run_words;
use std::process::ExitCode;
use std::rt::{Env, Files};
use std::{env, fs, io};
use stop::{Stop, log_unread};

// The contents of the log that the words name, if they ask for a verdict.
fn read_log<R: Files + AllocGlobal>(rt: &R, words: &[String]) -> Result<Vec<u8>, Stop> {
    match (read_words(words), words) {
        (Some(Asked::Judge(_)), [_, _, path, ..]) => {
            fs::read(rt, path.as_str()).map_err(log_unread)
        }
        _ => Ok(Vec::new(rt.alloc())),
    }
}

fn run<R: Env + Files + Input + Print + AllocGlobal>(rt: &R) -> Result<u8, Stop> {
    let alloc = rt.alloc();
    let words: Vec<String> = env::args(rt)?.collect(alloc)?;
    let log = read_log(rt, &words)?;
    let (mut reader, mut writer) = (rt.reader(), io::writer(rt));
    run_words(alloc, &words, &log, &mut reader, &mut writer)
}

fn main(rt: HostRuntime) -> io::Result<ExitCode> {
    match run(&rt) {
        Ok(status) => Ok(ExitCode::from(status)),
        Err(stop) => {
            eprintln!(rt; "shmcheck: {stop}")?;
            Ok(ExitCode::from(stop.status()))
        }
    }
}

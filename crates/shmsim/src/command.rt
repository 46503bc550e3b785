//! The command line, and why the program stops.
ghost use Rattle.std.specs.Prelude.{◌≡◌, ◌≢◌, ◌⊎◌, [], None, Some, IfErr, IfOk, OnOk, map, string_bytes};
ghost use Rattle.std.specs.IoError.{error_kind};
ghost use Rattle.clap.specs.Words.{app_of, found_of, kind_of, rows_of};
ghost use Rattle.shm_program.specs.declared.fault.RunFault.TheVariants as faults;
ghost use Rattle.shmsim.specs.declared.command.Stop.TheVariants as stops;
ghost use Rattle.shmsim.specs.Stop.{stop_text, stop_status, io_stop, clap_stop};
ghost use Rattle.shmsim.specs.Words.{asked_of, command_line, mode_of, refusals_of, request_in, values_in};

use clap::error::ErrorKind;
use clap::{Arg, ArgAction, ArgMatches, Command, Error};
use shm_base::{HostMemory, MOST_AREAS};
use shm_program::{RunFault, SwapWord, read_swaps};
use std::alloc::{AllocError, Global};
use std::{fmt, io};

/// Why the program stops: wrong words on the command line, or a fault of the run.
#[derive(Clone, Copy, Debug, PartialEq, Eq)]
pub(crate) enum Stop {
    Usage,
    Fault(RunFault),
}

impl Stop {
    /// The exit status: 2 for usage, otherwise that of the fault.
    pub(crate) fn status(self) -> u8
        ensures { result ≡ stop_status self }
    {
        match self {
            Stop::Usage => 2,
            Stop::Fault(fault) => fault.status(),
        }
    }
}

impl fmt::Display for Stop {
    ghost output = { λ s. Some (stop_text s) };

    fn fmt<W: fmt::Write>(&self, f: &mut fmt::Formatter<W>) -> fmt::Result {
        match self {
            Stop::Usage => f.write_str("usage: shmsim serial|threads SWAP..."),
            Stop::Fault(fault) => write!(f, "{fault}"),
        }
    }
}

impl From<AllocError> for Stop {
    ghost from_gives = { λ _ r. r ≡ stops.Fault faults.HostMemory };

    fn from(_e: AllocError) -> Stop {
        Stop::Fault(RunFault::HostMemory)
    }
}

impl From<RunFault> for Stop {
    ghost from_gives = { λ f r. r ≡ stops.Fault f };

    fn from(fault: RunFault) -> Stop {
        Stop::Fault(fault)
    }
}

impl From<HostMemory> for Stop {
    ghost from_gives = { λ _ r. r ≡ stops.Fault faults.HostMemory };

    fn from(_e: HostMemory) -> Stop {
        Stop::Fault(RunFault::HostMemory)
    }
}

// A word that is not valid UTF-8 is a usage error.
impl From<io::Error> for Stop {
    ghost from_gives = { λ e r. r ≡ io_stop (error_kind e) };

    fn from(e: io::Error) -> Stop {
        match e.kind() {
            io::ErrorKind::OutOfMemory => Stop::Fault(RunFault::HostMemory),
            _ => Stop::Usage,
        }
    }
}

// Words that `clap` refuses are a usage error.
impl From<Error> for Stop {
    ghost from_gives = { λ e r. r ≡ clap_stop (kind_of e) };

    fn from(e: Error) -> Stop {
        match e.kind() {
            ErrorKind::OutOfMemory => Stop::Fault(RunFault::HostMemory),
            _ => Stop::Usage,
        }
    }
}

/// How the script is run: its lines in file order, or a thread for each process.
#[derive(Clone, Copy, Debug, PartialEq, Eq)]
pub(crate) enum Mode {
    Serial,
    Threads,
}

/// What the words ask for: how the script is run, and the swap areas.
#[derive(Drop)]
pub(crate) struct Asked {
    pub(crate) mode: Mode,
    pub(crate) swaps: Vec<SwapWord>,
}

/// What the words ask for: the program's name, a mode, and one to eight swap areas.
pub(crate) fn read_words(alloc: Global, words: &[String]) -> Result<Asked, Stop>
    ensures ok { let asked = asked_of (map string_bytes words.now) in
        IfOk result (λ a. asked ≡ Some (record { mode = a.mode; swaps = a.swaps.items })) }
    ensures err { let unknown = asked_of (map string_bytes words.now) ≡ None in
        IfErr result (λ s. (s ≡ stops.Fault faults.HostMemory) ⊎ ((s ≡ stops.Usage) × unknown)) }
{
    let matches = matched(alloc, words)?;
    read_matches(alloc, &matches)
}

// The words of each argument, if `clap` takes the words.
fn matched(alloc: Global, words: &[String]) -> Result<ArgMatches<'_>, Stop>
    ensures taken { OnOk result (refusals_of (map string_bytes words.now) ≡ []) }
    ensures values { let values = values_in (map string_bytes words.now) in
        IfOk result (λ m. rows_of (found_of m) ≡ values) }
    ensures err { let refused = refusals_of (map string_bytes words.now) ≢ [] in
        IfErr result (λ s. (s ≡ stops.Fault faults.HostMemory) ⊎ ((s ≡ stops.Usage) × refused)) }
{
    let Ok(command) = command_line(alloc) else {
        return Err(Stop::Fault(RunFault::HostMemory));
    };
    match command.try_get_matches_from(words) {
        Ok(matches) => Ok(matches),
        Err(error) => Err(Stop::from(error)),
    }
}

// A mode, and one to eight swap areas.
fn command_line<'a>(alloc: Global) -> Result<Command<'a>, AllocError>
    ensures { IfOk result (λ c. app_of c ≡ command_line) }
{
    let mode = Arg::new(alloc, "mode").required(true);
    let command = Command::new(alloc, "shmsim").arg(mode)?;
    let swap = Arg::new(alloc, "swap")
        .required(true)
        .num_args(1..=MOST_AREAS)
        .action(ArgAction::Append);
    command.arg(swap)
}

fn mode_of(word: &str) -> Option<Mode>
    ensures { result ≡ mode_of word.now }
{
    match word {
        "serial" => Some(Mode::Serial),
        "threads" => Some(Mode::Threads),
        _ => None,
    }
}

// The mode and the areas that the words of the arguments name.
fn read_matches(alloc: Global, matches: &ArgMatches<'_>) -> Result<Asked, Stop>
    ensures ok { let asked = request_in (rows_of (found_of matches.now)) in
        IfOk result (λ a. asked ≡ Some (record { mode = a.mode; swaps = a.swaps.items })) }
    ensures err { let unknown = request_in (rows_of (found_of matches.now)) ≡ None in
        IfErr result (λ s. (s ≡ stops.Fault faults.HostMemory) ⊎ ((s ≡ stops.Usage) × unknown)) }
{
    let Some(mode) = mode_of(matches.get_str("mode").unwrap_or("")) else {
        return Err(Stop::Usage);
    };
    let words = matches.get_strs("swap").unwrap_or(&[]);
    match read_swaps(alloc, words) {
        Ok(Some(swaps)) => Ok(Asked { mode, swaps }),
        Ok(None) => Err(Stop::Usage),
        Err(AllocError) => Err(Stop::Fault(RunFault::HostMemory)),
    }
}

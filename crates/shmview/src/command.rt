//! The words of the command line.
ghost use Rattle.std.specs.Prelude.{◌≡◌, ◌⊎◌, IfErr, IfOk, None, Some, map, string_bytes};
ghost use Rattle.shm_program.specs.declared.fault.RunFault.TheVariants as faults;
ghost use Rattle.shmview.specs.Words.{asked_of, request_over, words_ask};
ghost use Rattle.shmview.specs.declared.stop.Stop.TheVariants as stops;

use crate::steps::{Steps, read_steps};
use crate::stop::Stop;
use shm_program::{SwapWord, read_swaps};
use std::alloc::Global;

/// What the words ask for: the chosen steps, and the swap areas.
#[derive(Drop)]
pub(crate) struct Asked {
    pub(crate) steps: Option<Steps>,
    pub(crate) swaps: Vec<SwapWord>,
}

/// What the words ask for: the program's name, maybe `--steps FROM-TO`, and one to eight swap areas.
pub(crate) fn read_words(alloc: Global, words: &[String]) -> Result<Asked, Stop>
    ensures ok { let asked = asked_of (map string_bytes words.now) in
        IfOk result (λ a. asked ≡ Some (record { steps = a.steps; swaps = a.swaps.items })) }
    ensures err { let unknown = asked_of (map string_bytes words.now) ≡ None in
        IfErr result (λ s. (s ≡ stops.Fault faults.HostMemory) ⊎ ((s ≡ stops.Usage) × unknown)) }
{
    let [_, rest @ ..] = words else {
        return Err(Stop::Usage);
    };
    read_rest(alloc, rest)
}

// The words after the program's name.
fn read_rest(alloc: Global, words: &[String]) -> Result<Asked, Stop>
    ensures ok { let asked = words_ask (map string_bytes words.now) in
        IfOk result (λ a. asked ≡ Some (record { steps = a.steps; swaps = a.swaps.items })) }
    ensures err { let unknown = words_ask (map string_bytes words.now) ≡ None in
        IfErr result (λ s. (s ≡ stops.Fault faults.HostMemory) ⊎ ((s ≡ stops.Usage) × unknown)) }
{
    let [flag, steps, rest @ ..] = words else {
        return read_over(alloc, None, words);
    };
    if flag.as_str() != "--steps" {
        return read_over(alloc, None, words);
    }
    let Some(steps) = read_steps(steps.as_str().as_bytes()) else {
        return Err(Stop::Usage);
    };
    read_over(alloc, Some(steps), rest)
}

// The words for the swap areas.
fn read_over(alloc: Global, steps: Option<Steps>, words: &[String]) -> Result<Asked, Stop>
    ensures ok { let asked = request_over steps (map string_bytes words.now) in
        IfOk result (λ a. asked ≡ Some (record { steps = a.steps; swaps = a.swaps.items })) }
    ensures err { let unknown = request_over steps (map string_bytes words.now) ≡ None in
        IfErr result (λ s. (s ≡ stops.Fault faults.HostMemory) ⊎ ((s ≡ stops.Usage) × unknown)) }
{
    match read_swaps(alloc, words)? {
        Some(swaps) => Ok(Asked { steps, swaps }),
        None => Err(Stop::Usage),
    }
}

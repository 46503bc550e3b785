//! Sampling: runs of a script with randomly drawn schedules.
ghost use Rattle.std.specs.Prelude.{[], IfErr, IfOk};
ghost use Rattle.shmcheck.specs.Answers.{IsAnswer, IsStopIn};
ghost use Rattle.shmcheck.specs.Runs.{one_area};

use crate::command::{Asked, Draws};
use crate::machine::open_machine;
use crate::runs::Answer;
use crate::stop::Stop;
use rand_core::SeedableRng;
use rand_xoshiro::Xoshiro256PlusPlus;
use shm_judge::samples;
use shm_text::Script;
use std::alloc::Global;

/// The text of runs of a script. A generator with the seed draws which
/// process continues.
pub(crate) fn sample_runs(alloc: Global, script: &Script, draws: Draws) -> Result<Answer, Stop>
    ensures ok { let is = IsAnswer (Asked.Sample draws) [] in
        IfOk result (λ a. is a.status script.now one_area a.text.items) }
    ensures cause { IfErr result (λ s. IsStopIn s (Asked.Sample draws) [] one_area script.now) }
{
    let machine = open_machine(alloc, script)?;
    let mut rng = Xoshiro256PlusPlus::seed_from_u64(draws.seed);
    let text = samples(alloc, script, &machine, draws.runs, &mut rng)?;
    Ok(Answer { text, status: 0 })
}

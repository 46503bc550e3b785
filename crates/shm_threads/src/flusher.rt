//! The work of the flusher's thread, independent of what makes its rounds.
ghost use Rattle.std.specs.Prelude.{◌≡◌, [], ◌∷◌, List, ℕ, IfOk, true};
ghost use Rattle.shm_threads.specs.Asked.{RoundAsked, Adds, May, Round, Made};
ghost use Rattle.shm_threads.specs.Asked.{IsWithin, RunsRounds, rounds_of};

use shm_base::HostMemory;
use shm_text::Line;
use std::alloc::Global;

/// What makes the flusher's rounds.
pub(crate) trait Flusher {
    /// Whether these may be the rounds so far.
    ghost asked: { Self → List RoundAsked → Type 0 };

    /// How many rounds there are.
    ghost rounds: { Self → ℕ };

    /// Whether the n-th round may be made.
    ghost may: { Self → ℕ → Type 0 };

    /// Whether the n-th round may be made. False ends the flusher.
    fn before(&mut self, n: u64) -> bool
        requires { IsWithin n (rounds self.old) }
        ensures asked { Adds (asked self.old) (May n result ∷ []) (asked self.new) }
        ensures may { result ≡ true → may self.new n }
        ensures same { rounds self.new ≡ rounds self.old };

    /// Makes the next round, the n-th, and publishes the counts after it.
    fn round(&mut self, n: u64)
        requires { may self.old n }
        ensures asked { Adds (asked self.old) (Round ∷ []) (asked self.new) }
        ensures same { rounds self.new ≡ rounds self.old };

    /// Called after the n-th round.
    fn after(&mut self, n: u64)
        ensures asked { Adds (asked self.old) (Made n ∷ []) (asked self.new) }
        ensures same { rounds self.new ≡ rounds self.old };
}

/// Makes this many rounds in order. False if the gate ended the flusher.
pub(crate) fn flush_all<F: Flusher>(flusher: &mut F, rounds: u64) -> bool
    requires { rounds ≡ F.rounds flusher.old }
    ensures { RunsRounds (F.asked flusher.old) (F.asked flusher.new) rounds result }
{
    for made in 0..rounds {
        let n = made + 1;
        if !flusher.before(n) {
            return false;
        }
        flusher.round(n);
        flusher.after(n);
    }
    true
}

/// The pages of the flush lines, in order.
pub(crate) fn rounds(alloc: Global, lines: &[Line]) -> Result<Vec<u32>, HostMemory>
    ensures { IfOk result (λ pages. pages.items ≡ rounds_of lines.now) }
{
    let mut rounds = Vec::new(alloc);
    for line in lines {
        if let Line::Flush(round) = line {
            rounds.push(round.pages())?;
        }
    }
    Ok(rounds)
}

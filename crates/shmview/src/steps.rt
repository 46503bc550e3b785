//! The steps of a run that are shown.
ghost use Rattle.std.specs.Prelude.{◌≡◌, ◌+◌, ◌<◌, length, IfSome};
ghost use Rattle.shmview.specs.Steps.{has_step, hyphen, steps_of, steps_asked};

use shm_text::read_decimal;

/// The steps from one number to another, both included. Step 0 is the machine when it opens.
#[derive(Clone, Copy, Debug, PartialEq, Eq)]
pub(crate) struct Steps {
    pub(crate) from: u64,
    pub(crate) to: u64,
}

/// The most steps of a run that is shown as a whole.
pub(crate) const MOST_STEPS: u64 = 2000;

impl Steps {
    /// The steps to show: the chosen ones, or all steps of a run that is not too long.
    pub(crate) fn asked(steps: Option<Steps>) -> Steps
        ensures { result ≡ steps_asked steps }
    {
        steps.unwrap_or(Steps {
            from: 0,
            to: MOST_STEPS,
        })
    }

    /// Whether a step is one of these.
    pub(crate) fn is_among(self, number: u64) -> bool
        ensures { result ≡ has_step self number }
    {
        self.from <= number && number <= self.to
    }
}

fn hyphen(word: &[u8]) -> Option<usize>
    ensures value { result ≡ hyphen word.now }
    ensures within { IfSome result (λ i. i < length word.now) }
{
    word.iter().position(|b| *b == b'-')
}

/// Reads a word for steps: `FROM-TO` in decimal digits, with FROM not above TO.
pub(crate) fn read_steps(word: &[u8]) -> Option<Steps>
    ensures { result ≡ steps_of word.now }
{
    let end = hyphen(word)?;
    let from = read_decimal(&word[..end])?;
    let to = read_decimal(&word[end + 1..])?;
    if from > to {
        return None;
    }
    Some(Steps { from, to })
}

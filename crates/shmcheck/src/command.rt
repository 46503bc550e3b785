//! The words of the command line.
ghost use Rattle.std.specs.Prelude.{◌≡◌, map, string_bytes};
ghost use Rattle.shm_text.specs.Number.{decimal_of};
ghost use Rattle.shmcheck.specs.Words.{asked_of, draw_by, draws_of, judge_of, listed_of, option_by, options_of, outcomes_by, outcomes_of, plain, question_of, rules_by, sample_of, wish_by};

use crate::ruling::RuleSet;
use shm_text::read_decimal;

/// The most runs that a list of outcomes may take, unless the command line gives another number.
const MOST_LISTED: u64 = 10_000_000;

/// The most runs that a judge keeps, unless the command line gives another number.
const MOST_JUDGED: u64 = 1_000_000;

/// The most runs from which a search continues, the rules of the machine, and whether identifiers and
/// addresses are masked.
#[derive(Clone, Copy, Debug, PartialEq, Eq)]
pub(crate) struct Options {
    pub most: u64,
    pub rules: RuleSet,
    pub masked: bool,
}

/// The runs to sample: the seed, the number of runs, and the rules of the machine.
#[derive(Clone, Copy, Debug, PartialEq, Eq)]
pub(crate) struct Draws {
    pub seed: u64,
    pub runs: u64,
    pub rules: RuleSet,
}

/// What is wanted of a condition: that a schedule meets it, or that none does.
#[derive(Clone, Copy, Debug, PartialEq, Eq)]
pub(crate) enum Wish {
    Exists,
    Forbid,
}

/// What the program is to do: list every outcome, say whether a schedule meets the condition that is the fourth
/// word, judge the log in the file that the third word names, or sample runs.
#[derive(Clone, Copy, Debug, PartialEq, Eq)]
pub(crate) enum Asked {
    Outcomes(Options),
    Question(Wish, Options),
    Judge(Options),
    Sample(Draws),
}

/// What the words ask for, if they are those of the program. The first word is the program's name.
pub(crate) fn read_words(words: &[String]) -> Option<Asked>
    ensures { result ≡ asked_of (map string_bytes words.now) }
{
    let [_, command, rest @ ..] = words else {
        return None;
    };
    match command.as_str() {
        "outcomes" => read_outcomes(rest),
        "judge" => read_judge(rest),
        "sample" => read_sample(rest),
        _ => None,
    }
}

// The words after `outcomes`: a question, a condition and options, of which none masks; or options.
fn read_outcomes(words: &[String]) -> Option<Asked>
    ensures { result ≡ outcomes_of (map string_bytes words.now) }
{
    match words {
        [] => read_list(words),
        [name, rest @ ..] => read_listed(read_wish(name.as_str()), words, rest),
    }
}

// A question with the condition and the options in `rest`, or else the options of a list.
fn read_listed(wish: Option<Wish>, words: &[String], rest: &[String]) -> Option<Asked>
    ensures { result ≡ outcomes_by wish (map string_bytes words.now) (map string_bytes rest.now) }
{
    let Some(wish) = wish else {
        return read_list(words);
    };
    let [_, options @ ..] = rest else {
        return None;
    };
    read_question(wish, options)
}

fn read_list(words: &[String]) -> Option<Asked>
    ensures { result ≡ listed_of (map string_bytes words.now) }
{
    Some(Asked::Outcomes(read_options(words, MOST_LISTED)?))
}

// The words after a condition: options, of which none masks.
fn read_question(wish: Wish, words: &[String]) -> Option<Asked>
    ensures { result ≡ question_of wish (map string_bytes words.now) }
{
    let options = read_options(words, MOST_LISTED)?;
    if options.masked {
        return None;
    }
    Some(Asked::Question(wish, options))
}

fn read_wish(word: &str) -> Option<Wish>
    ensures { result ≡ wish_by word.now }
{
    match word {
        "--exists" => Some(Wish::Exists),
        "--forbid" => Some(Wish::Forbid),
        _ => None,
    }
}

// The words after `judge`: a file, and options, of which none masks.
fn read_judge(words: &[String]) -> Option<Asked>
    ensures { result ≡ judge_of (map string_bytes words.now) }
{
    let [_, rest @ ..] = words else {
        return None;
    };
    let options = read_options(rest, MOST_JUDGED)?;
    if options.masked {
        return None;
    }
    Some(Asked::Judge(options))
}

// The words after `sample`: a seed, and options.
fn read_sample(words: &[String]) -> Option<Asked>
    ensures { result ≡ sample_of (map string_bytes words.now) }
{
    let [seed, rest @ ..] = words else {
        return None;
    };
    let draws = Draws {
        seed: read_number(seed.as_str())?,
        runs: 1,
        rules: RuleSet::Own,
    };
    Some(Asked::Sample(read_draws(rest, draws)?))
}

// Reads options of runs in any order. If an option is given twice, the last one counts.
fn read_draws(words: &[String], mut draws: Draws) -> Option<Draws>
    ensures { result ≡ draws_of (map string_bytes words.now) draws }
{
    let mut left = words;
    while let [name, value, rest @ ..] = left {
        draws = with_draw(draws, name.as_str(), value.as_str())?;
        left = rest;
    }
    if left.is_empty() { Some(draws) } else { None }
}

fn with_draw(draws: Draws, name: &str, value: &str) -> Option<Draws>
    ensures { result ≡ draw_by name.now value.now draws }
{
    match name {
        "--runs" => {
            let runs = read_number(value)?;
            Some(Draws { runs, ..draws })
        }
        "--rules" => {
            let rules = read_rules(value)?;
            Some(Draws { rules, ..draws })
        }
        _ => None,
    }
}

// Reads options of a search in any order. If an option is given twice, the last one counts. Without one, it
// takes at most this many runs.
fn read_options(words: &[String], most: u64) -> Option<Options>
    ensures { result ≡ options_of (map string_bytes words.now) (plain most) }
{
    let mut options = Options {
        most,
        rules: RuleSet::Own,
        masked: false,
    };
    let mut left = words;
    while let [name, rest @ ..] = left {
        left = rest;
        if name.as_str() == "--masked" {
            options.masked = true;
            continue;
        }
        let [value, rest @ ..] = left else {
            return None;
        };
        options = with_option(options, name.as_str(), value.as_str())?;
        left = rest;
    }
    Some(options)
}

fn with_option(options: Options, name: &str, value: &str) -> Option<Options>
    ensures { result ≡ option_by name.now value.now options }
{
    match name {
        "--at-most" => {
            let most = read_number(value)?;
            Some(Options { most, ..options })
        }
        "--rules" => {
            let rules = read_rules(value)?;
            Some(Options { rules, ..options })
        }
        _ => None,
    }
}

fn read_number(word: &str) -> Option<u64>
    ensures { result ≡ decimal_of word.now }
{
    read_decimal(word.as_bytes())
}

fn read_rules(word: &str) -> Option<RuleSet>
    ensures { result ≡ rules_by word.now }
{
    match word {
        "profile" => Some(RuleSet::Profile),
        "linux" => Some(RuleSet::Linux),
        _ => None,
    }
}

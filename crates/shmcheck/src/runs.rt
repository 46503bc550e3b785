//! A whole run: reads a script, answers what was asked about it, and writes the answer.
ghost use Rattle.std.specs.Prelude.{◌≡◌, OnOk, IfErr, IfOk, map, string_bytes};
ghost use Rattle.std.specs.Io.KnownBytes.{IsAtEnd};
ghost use Rattle.shm_program.specs.Runs.{IsTextFor};
ghost use Rattle.shmcheck.specs.Answers.{IsAnswer, IsAnswered, IsAnyAnswer, IsStopIn, IsStopOf, WritesNothing, rules_asked};
ghost use Rattle.shmcheck.specs.Runs.{IsAsked, condition_in, given_for, one_area};
ghost use Rattle.shmcheck.specs.Words.{asked_of};

use crate::asking::answer_question;
use crate::command::{Asked, read_words};
use crate::judging::judge_script;
use crate::listing::list_outcomes;
use crate::ruling::{RuleSet, put_rules};
use crate::sampling::sample_runs;
use crate::stop::Stop;
use shm_program::{RunFault, whole_script, write_output};
use shm_text::Script;
use std::alloc::Global;
use std::io::{Read, Write};

/// The text that answers what was asked, and the exit status.
#[derive(Drop)]
pub(crate) struct Answer {
    pub(crate) text: Vec<u8>,
    pub(crate) status: u8,
}

/// Does what the words of the command line ask for: answers about the script that the reader gives, over one swap area
/// of 64 slots, writes the answer, and returns the exit status. A judge is given the contents of its log. Other words are
/// a usage error.
pub(crate) fn run_words<R: Read, W: Write>(
    alloc: Global,
    words: &[String],
    log: &[u8],
    reader: &mut R,
    writer: &mut W,
) -> Result<u8, Stop>
    ensures { let texts = map string_bytes words.now in
        let done = IsAsked (asked_of texts) texts log.now result in
        let run = done (R.remaining reader.old) (R.remaining reader.new) in
        run (W.contents writer.old) (W.contents writer.new) }
{
    let Some(asked) = read_words(words) else {
        return Err(Stop::Usage);
    };
    let given = given_for(asked, words, log);
    run_asked(alloc, reader, writer, asked, given)
}

// What a question or a judge is given: the condition, which is the fourth word, or the contents of the log.
fn given_for<'a>(asked: Asked, words: &'a [String], log: &'a [u8]) -> &'a [u8]
    ensures { result.now ≡ given_for asked (map string_bytes words.now) log.now }
{
    match asked {
        Asked::Outcomes(_) | Asked::Sample(_) => &[],
        Asked::Judge(_) => log,
        Asked::Question(..) => condition_in(words),
    }
}

fn condition_in(words: &[String]) -> &[u8]
    ensures { result.now ≡ condition_in (map string_bytes words.now) }
{
    match words {
        [_, _, _, condition, ..] => condition.as_bytes(),
        _ => &[],
    }
}

// Answers what was asked about the script that the reader gives, and returns the exit status. A judge is given a
// log, and a question a condition. The answer is complete before its first byte is written.
fn run_asked<R: Read, W: Write>(
    alloc: Global,
    reader: &mut R,
    writer: &mut W,
    asked: Asked,
    given: &[u8],
) -> Result<u8, Stop>
    ensures ok { let answers = IsAnswered asked given.now one_area (R.remaining reader.old) in
        IfOk result (answers (W.contents writer.old) (W.contents writer.new)) }
    ensures whole { OnOk result (IsAtEnd (R.remaining reader.new)) }
    ensures cause { IfErr result (λ s. IsStopOf s asked given.now one_area (R.remaining reader.old)) }
    ensures silent { let text = IsTextFor (IsAnyAnswer asked given.now) one_area (R.remaining reader.old) in
        IfErr result (λ s. WritesNothing text s (W.contents writer.old) (W.contents writer.new)) }
{
    let mut script = match whole_script(alloc, reader) {
        Ok(script) => script,
        Err(fault) => return Err(Stop::Fault(fault)),
    };
    put_rules(&mut script, rules_asked(asked));
    let answer = answer_of(alloc, &script, asked, given)?;
    match write_output(writer, &answer.text) {
        Ok(()) => Ok(answer.status),
        Err(_) => Err(Stop::Fault(RunFault::WriteFailed)),
    }
}

fn rules_asked(asked: Asked) -> RuleSet
    ensures { result ≡ rules_asked asked }
{
    match asked {
        Asked::Outcomes(options) | Asked::Question(_, options) | Asked::Judge(options) => {
            options.rules
        }
        Asked::Sample(draws) => draws.rules,
    }
}

// The answer about a script.
fn answer_of(alloc: Global, script: &Script, asked: Asked, given: &[u8]) -> Result<Answer, Stop>
    ensures ok { IfOk result (λ a. IsAnswer asked given.now a.status script.now one_area a.text.items) }
    ensures cause { IfErr result (λ s. IsStopIn s asked given.now one_area script.now) }
{
    match asked {
        Asked::Outcomes(options) => list_outcomes(alloc, script, options),
        Asked::Question(wish, options) => { answer_question(alloc, script, wish, options, given) }
        Asked::Judge(options) => judge_script(alloc, script, options, given),
        Asked::Sample(draws) => sample_runs(alloc, script, draws),
    }
}

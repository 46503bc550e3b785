//! The forms of lines.
ghost use Rattle.std.specs.Prelude.{◌≡◌, ◌<◌, ◌≤◌, length, true, false, Err, IfOk, OnOk, IfErr};
ghost use Rattle.shm_text.specs.Form.{is_pid};
ghost use Rattle.shm_text.specs.Reading.{tested_sizes, sizes_item, limits_item, rules_item, limits_by, process_item, child_item, declared, declaration, taker, known, known_child, declared_pid, flush_item, head_item, words_item, line_item, is_command, with_room, some_item, is_skipped, HasPlace, Takes, IsLimits, IsLine, IsSizes};

use crate::calls::call_words;
use crate::fault::FaultKind;
use crate::kept::Kept;
use crate::lines::Lines;
use crate::number::Number;
use crate::operand::{first_letter, ranged, required_number, within_64_bits};
use crate::reading::Seen;
use crate::rules::rules_word;
use crate::script::{Command, FlushLine, Item, Line, LineCall, Variable};
use crate::words::Words;
use shm_base::{
    BadLimits, Call, Cred, LAST_PID, Limits, MOST_COMMANDS, MOST_FLUSHED, Process, Rules, Sizes,
};

/// A request for the smallest machine, in which a sizes line and then the limits line replace the numbers.
const SMALLEST: Sizes = Sizes {
    shmmax: 1,
    shmmni: 1,
    shmall: 1,
    frames: 2,
    memlock: 0,
    most_pieces: 1,
    most_processes: 1,
    most_slots: 1,
    rules: Rules::PROFILE,
};

// Sizes within the ranges of any machine.
fn tested_sizes(sizes: Sizes) -> Result<Item, FaultKind>
    ensures value { result ≡ tested_sizes sizes }
    ensures item { IfOk result IsSizes }
{
    match Limits::of(&sizes) {
        Ok(_) => Ok(Item::Sizes(sizes)),
        Err(bad) => Err(FaultKind::BadLimits(bad.0)),
    }
}

#[tactic(auto, unfolding(crate::specs::Reading::sizes_item))]
fn sizes_item(words: &Words<'_>) -> Result<Item, FaultKind>
    ensures value { result ≡ sizes_item words.now }
    ensures item { IfOk result IsSizes }
{
    if words.len() != 4 {
        return Err(FaultKind::BadLine);
    }
    let pieces = required_number(words.at(1))?;
    let processes = required_number(words.at(2))?;
    let slots = required_number(words.at(3))?;
    let pieces = within_64_bits(pieces)?;
    let processes = within_64_bits(processes)?;
    let slots = within_64_bits(slots)?;
    tested_sizes(Sizes {
        most_pieces: pieces,
        most_processes: processes,
        most_slots: slots,
        ..SMALLEST
    })
}

#[tactic(auto, unfolding(crate::specs::Reading::limits_item))]
fn limits_item(sizes: Option<Sizes>, words: &Words<'_>) -> Result<Item, FaultKind>
    ensures value { result ≡ limits_item sizes words.now }
    ensures item { IfOk result IsLimits }
{
    if words.len() != 6 {
        return Err(FaultKind::BadLine);
    }
    let shmmax = required_number(words.at(1))?;
    let shmmni = required_number(words.at(2))?;
    let shmall = required_number(words.at(3))?;
    let frames = required_number(words.at(4))?;
    let memlock = required_number(words.at(5))?;
    let shmmax = within_64_bits(shmmax)?;
    let shmmni = within_64_bits(shmmni)?;
    let shmall = within_64_bits(shmall)?;
    let frames = within_64_bits(frames)?;
    let memlock = within_64_bits(memlock)?;
    limits_by(match sizes {
        None => Limits::new(shmmax, shmmni, shmall, frames, memlock),
        Some(sizes) => Limits::of(&Sizes {
            shmmax,
            shmmni,
            shmall,
            frames,
            memlock,
            ..sizes
        }),
    })
}

fn limits_by(limits: Result<Limits, BadLimits>) -> Result<Item, FaultKind>
    ensures value { result ≡ limits_by limits }
    ensures item { IfOk result IsLimits }
{
    match limits {
        Ok(limits) => Ok(Item::Limits(limits)),
        Err(bad) => Err(FaultKind::BadLimits(bad.0)),
    }
}

// The rules of Linux: the limits once more, with these rules.
#[tactic(auto, unfolding(crate::specs::Reading::rules_item))]
fn rules_item(seen: &Seen, words: &Words<'_>) -> Result<Item, FaultKind>
    ensures value { result ≡ rules_item seen.now words.now }
    ensures item { IfOk result IsLimits }
{
    if words.len() != 2 {
        return Err(FaultKind::BadLine);
    }
    let limits = seen.unruled().ok_or(FaultKind::BadLine)?;
    let rules = rules_word(words.at(1))?;
    limits_by(limits.with_rules(rules))
}

// A new process. Its pid must not be declared above.
fn declared(seen: &Seen, process: Process) -> Result<Item, FaultKind>
    ensures value { result ≡ declared seen.now process }
    ensures place { IfOk result (λ item. HasPlace seen.now item) }
{
    if seen.is_declared(process.pid) {
        return Err(FaultKind::Twice);
    }
    if seen.is_full() {
        return Err(FaultKind::TooMany);
    }
    Ok(Item::Process(process))
}

#[tactic(auto, unfolding(crate::specs::Reading::process_item))]
fn process_item(seen: &Seen, words: &Words<'_>) -> Result<Item, FaultKind>
    ensures value { result ≡ process_item seen.now words.now }
    ensures place { IfOk result (λ item. HasPlace seen.now item) }
{
    if words.len() != 4 {
        return Err(FaultKind::BadLine);
    }
    let pid = required_number(words.at(1))?;
    let uid = required_number(words.at(2))?;
    let gid = required_number(words.at(3))?;
    let pid = ranged(pid, 1, LAST_PID)?;
    let uid = ranged(uid, 0, u32::MAX)?;
    let gid = ranged(gid, 0, u32::MAX)?;
    let born = Some(Cred { uid, gid });
    declared(seen, Process { pid, born })
}

#[tactic(auto, unfolding(crate::specs::Reading::child_item))]
fn child_item(seen: &Seen, words: &Words<'_>) -> Result<Item, FaultKind>
    ensures value { result ≡ child_item seen.now words.now }
    ensures place { IfOk result (λ item. HasPlace seen.now item) }
{
    if words.len() != 2 {
        return Err(FaultKind::BadLine);
    }
    let pid = required_number(words.at(1))?;
    let pid = ranged(pid, 1, LAST_PID)?;
    declared(seen, Process { pid, born: None })
}

#[tactic(auto, unfolding(crate::specs::Reading::declaration))]
fn declaration(seen: &Seen, words: &Words<'_>) -> Result<Item, FaultKind>
    requires { 0 < length words.now }
    ensures value { result ≡ declaration seen.now words.now }
    ensures place { IfOk result (λ item. HasPlace seen.now item) }
{
    if seen.commands() != 0 {
        Err(FaultKind::BadLine)
    } else if words.is(0, b"process") {
        process_item(seen, words)
    } else {
        child_item(seen, words)
    }
}

// The variable that takes the answer.
fn taker(words: &Words<'_>) -> Option<Variable>
    ensures { result ≡ taker words.now }
{
    if words.len() > 2 && words.at(1).len() == 1 && words.is(2, b"=") {
        first_letter(words.at(1))
    } else {
        None
    }
}

fn known(seen: &Seen, pid: u32) -> Result<(), FaultKind>
    ensures { result ≡ known seen.now pid }
{
    if seen.is_declared(pid) {
        Ok(())
    } else {
        Err(FaultKind::UnknownProcess)
    }
}

// The child of a fork must be declared above too.
fn known_child(seen: &Seen, call: &LineCall) -> Result<(), FaultKind>
    ensures { result ≡ known_child seen.now call.now }
{
    match call {
        Call::Fork { child } => known(seen, *child),
        _ => Ok(()),
    }
}

// The pid of a line. It, and the child of a fork, must be declared above.
fn declared_pid(seen: &Seen, pid: Number, call: &LineCall) -> Result<u32, FaultKind>
    ensures value { result ≡ declared_pid seen.now pid call.now }
    ensures range { IfOk result (λ p. is_pid p ≡ true) }
{
    let pid = ranged(pid, 1, LAST_PID)?;
    known(seen, pid)?;
    known_child(seen, call)?;
    Ok(pid)
}

fn flush_line(pages: u32) -> FlushLine
    requires { (1 ≤ pages) × (pages ≤ 4096) }
    ensures { result ≡ pages }
{
    FlushLine::new(pages as u64).unwrap()
}

// The line of a flush round.
#[tactic(auto, unfolding(crate::specs::Reading::flush_item))]
fn flush_item(words: &Words<'_>) -> Result<Item, FaultKind>
    ensures value { result ≡ flush_item words.now }
    ensures place { IfOk result IsLine }
{
    if words.len() != 3 || !words.is(1, b"flush") {
        return Err(FaultKind::BadLine);
    }
    let pages = required_number(words.at(2))?;
    let pages = ranged(pages, 1, MOST_FLUSHED)?;
    Ok(Item::Line(Line::Flush(flush_line(pages))))
}

// A flush line, if one more command or flush line is allowed.
#[tactic(auto, unfolding(crate::specs::Reading::command_item))]
fn counted_flush(seen: &Seen, words: &Words<'_>) -> Result<Item, FaultKind>
    ensures value { result ≡ with_room seen.now (flush_item words.now) }
    ensures item { IfOk result IsLine }
{
    match flush_item(words) {
        Ok(_) if seen.commands() >= MOST_COMMANDS => Err(FaultKind::TooMany),
        answer => answer,
    }
}

// The limits line, or the sizes line above it.
#[tactic(auto, unfolding(crate::specs::Reading::head_item))]
fn head_item(seen: &Seen, words: &Words<'_>) -> Result<Item, FaultKind>
    requires { 0 < length words.now }
    ensures value { result ≡ head_item seen.now words.now }
    ensures place { IfOk result (λ item. HasPlace seen.now item) }
{
    let sizes = seen.sizes();
    if words.is(0, b"limits") {
        limits_item(sizes, words)
    } else if !words.is(0, b"sizes") {
        Err(FaultKind::NoLimits)
    } else if sizes.is_some() {
        Err(FaultKind::BadLine)
    } else {
        sizes_item(words)
    }
}

// A line that is not a command of a process: sizes, limits, rules, a process, or a flush round.
#[tactic(auto, unfolding(crate::specs::Reading::words_item, crate::specs::Reading::body_item, crate::specs::Reading::command_item))]
fn other_item(seen: &Seen, words: &Words<'_>) -> Result<Item, FaultKind>
    requires words { 0 < length words.now }
    requires other { is_command seen.now words.now ≡ false }
    ensures value { result ≡ words_item seen.now words.now }
    ensures place { IfOk result (λ item. HasPlace seen.now item) }
{
    if seen.has_limits() {
        if words.is(0, b"0") {
            counted_flush(seen, words)
        } else if words.is(0, b"rules") {
            rules_item(seen, words)
        } else {
            declaration(seen, words)
        }
    } else {
        head_item(seen, words)
    }
}

// Takes a line that is not a command of a process.
#[inline(never)]
fn take_other(seen: &mut Seen, kept: &mut Kept, words: &Words<'_>) -> Result<(), FaultKind>
    requires words { 0 < length words.now }
    requires other { is_command seen.old words.now ≡ false }
    requires commands { seen.old.commands < 4294967295 }
    ensures ok { OnOk result
        (Takes (some_item (words_item seen.old words.now)) seen.old seen.new kept.old kept.new) }
    ensures err { IfErr result (λ kind. words_item seen.old words.now ≡ Err kind) }
{
    let item = other_item(seen, words)?;
    seen.take(&item);
    kept.take(item);
    Ok(())
}

// Whether a line is a command of a process, which its first word decides.
fn is_command(seen: &Seen, words: &Words<'_>) -> bool
    requires { 0 < length words.now }
    ensures { result ≡ is_command seen.now words.now }
{
    seen.has_limits()
        && !words.is(0, b"0")
        && !words.is(0, b"process")
        && !words.is(0, b"child")
        && !words.is(0, b"rules")
}

// Takes the command of a process. Its pid is tested after the call. The command goes into the lines here,
// because a function that returned it would copy its 104 bytes once more.
#[inline(always)]
#[tactic(auto, using(crate::proofs::FirstWords::command_words))]
fn take_command(seen: &mut Seen, kept: &mut Kept, words: &Words<'_>) -> Result<(), FaultKind>
    requires words { 0 < length words.now }
    requires command { is_command seen.old words.now ≡ true }
    ensures ok { OnOk result
        (Takes (some_item (words_item seen.old words.now)) seen.old seen.new kept.old kept.new) }
    ensures err { IfErr result (λ kind. words_item seen.old words.now ≡ Err kind) }
{
    let pid = required_number(words.at(0))?;
    let var = taker(words);
    let call = call_words(words, var.is_some())?;
    let pid = declared_pid(seen, pid, &call)?;
    if seen.commands() >= MOST_COMMANDS {
        return Err(FaultKind::TooMany);
    }
    seen.count();
    kept.line(Line::Command(Command { pid, var, call }));
    Ok(())
}

/// Whether a line is blank or a comment, by its words.
pub(crate) fn is_skipped(words: &Words<'_>) -> bool
    ensures value { result ≡ is_skipped words.now }
    ensures words { result ≡ false → 0 < length words.now }
{
    words.len() == 0 || words.at(0).first() == Some(&b'#')
}

/// Takes what the line that was read last says, after the lines above it.
#[inline(always)]
#[tactic(auto, using(crate::proofs::FirstWords::same_words), unfolding(crate::specs::Reading::line_item))]
pub(crate) fn take_line(
    seen: &mut Seen,
    kept: &mut Kept,
    lines: &Lines<'_>,
) -> Result<(), FaultKind>
    requires { seen.old.commands < 4294967295 }
    ensures ok { OnOk result (Takes (line_item seen.old lines.now.line) seen.old seen.new kept.old kept.new) }
    ensures err { IfErr result (λ kind. line_item seen.old lines.now.line ≡ Err kind) }
{
    if !lines.is_allowed() {
        return Err(FaultKind::BadByte);
    }
    let words = lines.words();
    if is_skipped(words) {
        return Ok(());
    }
    if is_command(seen, words) {
        take_command(seen, kept, words)
    } else {
        take_other(seen, kept, words)
    }
}

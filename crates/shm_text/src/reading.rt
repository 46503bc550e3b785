//! Reads a script line by line.
ghost use Rattle.std.specs.Prelude.{◌≡◌, ◌<◌, ◌≤◌, ◌+◌, ◌/◌, IfOk, IfErr, Ok, length, not, false, is_some, min};
ghost use Rattle.std.specs.List.{list_all};
ghost use Rattle.shm_text.specs.Reading.{unruled, script_of_lines, script_of, without_words, is_wordless, nothing, seen_with, is_declared, is_full, IsFaultOf, HasPlace};
ghost use Rattle.shm_text.specs.Words.{lines_of};

use crate::fault::{FaultKind, ReadRefused, ScriptFault};
use crate::forms::{is_skipped, take_line};
use crate::kept::Kept;
use crate::lines::Lines;
use crate::script::{Item, Script};
use arrayvec::ArrayVec;
use bitflags::Flags;
use shm_base::{LONGEST_SCRIPT, Limits, MOST_COMMANDS, MOST_PROCESSES, Sizes};
use std::alloc::Global;
use std::marker::Model;

/// What the lines above a line said: the sizes, the limits, the declared pids, and the number of command and
/// flush lines. The pids are kept in the value itself, so that they are known after a refusal of memory.
#[derive(Drop)]
pub(crate) struct Seen {
    sizes: Option<Sizes>,
    limits: Option<Limits>,
    pids: ArrayVec<u32, MOST_PROCESSES>,
    commands: u32,
}

impl Model for Seen {
    ghost use Rattle.shm_text.specs.Reading.{SeenView};

    ghost Value = { SeenView };

    ghost view = { λ s. record {
      sizes = s.sizes;
      limits = s.limits;
      pids = s.pids.items;
      commands = s.commands;
    } };
}

impl Seen {
    fn new() -> Seen
        ensures { result ≡ nothing }
    {
        Seen {
            sizes: None,
            limits: None,
            pids: ArrayVec::new(),
            commands: 0,
        }
    }

    pub(crate) fn sizes(&self) -> Option<Sizes>
        ensures { result ≡ self.now.sizes }
    {
        self.sizes
    }

    pub(crate) fn has_limits(&self) -> bool
        ensures { result ≡ is_some self.now.limits }
    {
        self.limits.is_some()
    }

    pub(crate) fn commands(&self) -> u32
        ensures { result ≡ self.now.commands }
    {
        self.commands
    }

    pub(crate) fn is_declared(&self, pid: u32) -> bool
        ensures { result ≡ is_declared self.now pid }
    {
        self.pids.as_slice().iter().any(|declared| *declared == pid)
    }

    /// Whether no more processes can be declared.
    pub(crate) fn is_full(&self) -> bool
        ensures value { result ≡ is_full self.now }
        ensures room { result ≡ false → length self.now.pids < MOST_PROCESSES }
    {
        match &self.limits {
            Some(limits) => self.pids.len() >= limits.most_processes() as usize,
            None => true,
        }
    }

    /// The limits, while rules may follow them: no rule holds yet, and nothing else is above.
    pub(crate) fn unruled(&self) -> Option<Limits>
        ensures { result ≡ unruled self.now }
    {
        let limits = self.limits?;
        if self.pids.is_empty() && self.commands == 0 && limits.rules().is_empty() {
            Some(limits)
        } else {
            None
        }
    }

    /// Counts a command or flush line.
    pub(crate) fn count(&mut self)
        requires { self.old.commands < 4294967295 }
        ensures { self.new ≡ record self.old { commands = self.old.commands + 1 } }
    {
        self.commands += 1;
    }

    /// Takes what a line said.
    pub(crate) fn take(&mut self, item: &Item)
        requires commands { self.old.commands < 4294967295 }
        requires place { HasPlace self.old item.now }
        ensures { self.new ≡ seen_with self.old item.now }
    {
        match item {
            Item::Sizes(sizes) => self.sizes = Some(*sizes),
            Item::Limits(limits) => self.limits = Some(*limits),
            Item::Process(process) => self.pids.push(process.pid),
            Item::Line(_) => self.count(),
        }
    }
}

/// Reads a script of at most 1,048,576 bytes (docs/SCRIPT.md).
///
/// - `Fault`: the script's first fault.
/// - `HostMemory`: the host refused memory, and the script has no fault.
#[tactic(auto, unfolding(crate::specs::Reading::script_of))]
pub fn read_script(alloc: Global, bytes: &[u8]) -> Result<Script, ReadRefused>
    ensures read { IfOk result (λ script. script_of bytes.now ≡ Ok script) }
    ensures fault { IfErr result (λ e. IsFaultOf e (script_of bytes.now)) }
{
    if bytes.len() > LONGEST_SCRIPT {
        return Err(ReadRefused::Fault(ScriptFault {
            line: 0,
            kind: FaultKind::TooLong,
        }));
    }
    if !has_words(bytes) {
        return Err(ReadRefused::Fault(without_words(bytes)));
    }
    read_lines(alloc, bytes)
}

/// Whether some line has words and is not a comment.
fn has_words(bytes: &[u8]) -> bool
    ensures { result ≡ not (list_all is_wordless (lines_of bytes.now)) }
{
    let mut lines = Lines::of(bytes);
    while lines.next() {
        if !is_skipped(lines.words()) {
            return true;
        }
    }
    false
}

/// The fault of a text without words: `BadByte` if its first line has a byte that is not allowed, else
/// `NoLimits`.
fn without_words(bytes: &[u8]) -> ScriptFault
    ensures { result ≡ without_words (lines_of bytes.now) }
{
    let mut lines = Lines::of(bytes);
    let kind = if lines.next() && !lines.is_allowed() {
        FaultKind::BadByte
    } else {
        FaultKind::NoLimits
    };
    ScriptFault { line: 1, kind }
}

/// The bytes of a short line such as `1 rmid s`.
const SHORT_LINE: usize = 8;

/// If the text ends without a limits line, that is reported at line 1.
const NO_LIMITS: ScriptFault = ScriptFault {
    line: 1,
    kind: FaultKind::NoLimits,
};

// How many lines to make room for at once: as many as a text of this length has if they are short, so that
// the list rarely grows, and at most the 100,000 that a script may have.
fn room_wanted(bytes: &[u8]) -> usize
    ensures { result ≡ min (length bytes.now / 8) 100000 }
{
    (bytes.len() / SHORT_LINE).min(MOST_COMMANDS as usize)
}

/// What the lines of a text say, or their first fault. After a refusal of memory it only looks for the fault.
fn read_lines(alloc: Global, bytes: &[u8]) -> Result<Script, ReadRefused>
    requires { length bytes.now ≤ LONGEST_SCRIPT }
    ensures read { IfOk result (λ script. script_of_lines (lines_of bytes.now) ≡ Ok script) }
    ensures fault { IfErr result (λ e. IsFaultOf e (script_of_lines (lines_of bytes.now))) }
{
    let mut seen = Seen::new();
    let mut kept = Kept::new(alloc, room_wanted(bytes));
    let mut lines = Lines::of(bytes);
    let mut number = 1u32;
    while lines.next() {
        match take_line(&mut seen, &mut kept, &lines) {
            Ok(()) => number += 1,
            Err(kind) => return Err(ReadRefused::Fault(ScriptFault { line: number, kind })),
        }
    }
    let Some(limits) = seen.limits else {
        return Err(ReadRefused::Fault(NO_LIMITS));
    };
    match kept.script(limits) {
        Some(script) => Ok(script),
        None => Err(ReadRefused::HostMemory),
    }
}

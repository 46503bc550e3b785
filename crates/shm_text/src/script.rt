//! A script's values, by their types.
ghost use Rattle.std.specs.Prelude.{◌≡◌, ◌≤◌, ◌↔◌, IsSome, IfSome};

use shm_base::{Call, Limits, MOST_FLUSHED, Process, Sizes};
use std::marker::Model;

/// A variable of a process: one letter, a to z. Contracts see its byte.
#[derive(Clone, Copy, Debug, PartialEq, Eq)]
pub struct Variable {
    letter: u8,
}

impl Model for Variable {
    ghost use Rattle.std.specs.Prelude.{ℕ, ◌≤◌};

    ghost Value = { ℕ };

    ghost view = { λ v. v.letter };

    ghost inverse = { λ n. record { letter = n } };

    ghost invariant = { λ v. (97 ≤ v.letter) × (v.letter ≤ 122) };
}

impl Variable {
    /// The variable of a letter; none if the byte is not a to z.
    pub fn new(letter: u8) -> Option<Variable>
        ensures which { IsSome result ↔ (97 ≤ letter) × (letter ≤ 122) }
        ensures value { IfSome result (λ v. v ≡ letter) }
    {
        if letter < b'a' || letter > b'z' {
            return None;
        }
        Some(Variable { letter })
    }

    /// The letter's byte.
    pub fn letter(self) -> u8
        ensures value { result ≡ self }
        ensures range { (97 ≤ result) × (result ≤ 122) }
    {
        self.letter
    }
}

/// An identifier in a script: a number or a variable.
#[derive(Clone, Copy, Debug, PartialEq, Eq)]
pub enum LineId {
    Number(u32),
    Var(Variable),
}

/// An address in a script: a number (`null` is 0), a variable, or a variable and a number to add.
#[derive(Clone, Copy, Debug, PartialEq, Eq)]
pub enum LineAddr {
    Number(u64),
    Var(Variable),
    Sum(Variable, u64),
}

/// A call in a script; identifiers and addresses may be variables.
pub type LineCall = Call<LineId, LineAddr>;

/// A command line: the process, the variable that takes the answer, and the call. Its numbers are within the
/// ranges of docs/SCRIPT.md.
#[derive(Debug, PartialEq)]
pub struct Command {
    pub(crate) pid: u32,
    pub(crate) var: Option<Variable>,
    pub(crate) call: LineCall,
}

impl Drop for Command {
    fn drop(self) {
        let Command {
            pid: _,
            var: _,
            call: _,
        } = self;
    }
}

impl Model for Command {
    ghost use Rattle.std.specs.Prelude.{◌≡◌, true};
    ghost use Rattle.shm_text.specs.Form.{CommandView, has_form};

    ghost Value = { CommandView };

    ghost view = { λ c. record { pid = c.pid; var = c.var; call = c.call } };

    ghost inverse = { λ c. record { pid = c.pid; var = c.var; call = c.call } };

    ghost invariant = { λ c. has_form c.pid c.var c.call ≡ true };
}

impl Command {
    ghost use Rattle.std.specs.Prelude.{true};
    ghost use Rattle.shm_text.specs.Form.{is_call};

    /// The pid of the process that makes the call.
    pub fn pid(&self) -> u32
        ensures value { result ≡ self.now.pid }
        ensures range { (1 ≤ result) × (result ≤ 2147483647) }
    {
        self.pid
    }

    /// The variable that takes the answer, if the line has one.
    pub fn var(&self) -> Option<Variable>
        ensures { result ≡ self.now.var }
    {
        self.var
    }

    pub fn call(&self) -> &LineCall
        ensures value { result.now ≡ self.now.call }
        ensures form { is_call result.now ≡ true }
    {
        &self.call
    }
}

/// A flush line: a round that writes at most this many pages, 1 to 4096.
#[derive(Clone, Copy, Debug, PartialEq, Eq)]
pub struct FlushLine {
    pages: u32,
}

impl Model for FlushLine {
    ghost use Rattle.std.specs.Prelude.{ℕ, ◌≤◌};

    ghost Value = { ℕ };

    ghost view = { λ f. f.pages };

    ghost inverse = { λ n. record { pages = n } };

    ghost invariant = { λ f. (1 ≤ f.pages) × (f.pages ≤ 4096) };
}

impl FlushLine {
    /// A round of this many pages; none if that is not 1 to 4096.
    pub fn new(pages: u64) -> Option<FlushLine>
        ensures which { IsSome result ↔ (1 ≤ pages) × (pages ≤ 4096) }
        ensures value { IfSome result (λ f. f ≡ pages) }
    {
        if pages < 1 || pages > MOST_FLUSHED as u64 {
            return None;
        }
        Some(FlushLine {
            pages: pages as u32,
        })
    }

    /// The most pages that the round writes.
    pub fn pages(self) -> u32
        ensures value { result ≡ self }
        ensures range { (1 ≤ result) × (result ≤ 4096) }
    {
        self.pages
    }
}

/// A command line or a flush line.
#[derive(Debug, PartialEq)]
pub enum Line {
    Command(Command),
    Flush(FlushLine),
}

impl Drop for Line {
    fn drop(self) {
        match self {
            Line::Command(_) => {}
            Line::Flush(_) => {}
        }
    }
}

/// A script: the limits, the declared processes, and the other lines in file order.
#[derive(Debug)]
pub struct Script {
    pub limits: Limits,
    pub processes: Vec<Process>,
    pub lines: Vec<Line>,
}

impl Drop for Script {
    fn drop(self) {
        let Script {
            limits: _,
            processes: _,
            lines: _,
        } = self;
    }
}

impl Model for Script {
    ghost use Rattle.shm_text.specs.Script.{ScriptView};

    ghost Value = { ScriptView };

    ghost view = { λ s. record { limits = s.limits; processes = s.processes.items; lines = s.lines.items } };
}

/// What one line says, if it says something.
#[derive(Debug, Drop)]
pub(crate) enum Item {
    Sizes(Sizes),
    Limits(Limits),
    Process(Process),
    Line(Line),
}

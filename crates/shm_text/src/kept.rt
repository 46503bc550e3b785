//! What the lines of a script said, while there is memory for it.
ghost use Rattle.std.specs.Prelude.{◌≡◌, ◌↔◌, [], true, Some, IsSome, IfSome};
ghost use Rattle.shm_text.specs.Reading.{KeepsUp};

use crate::script::{Item, Line, Script};
use shm_base::{Limits, Process};
use std::alloc::Global;
use std::marker::Model;

/// The processes and lines so far, if the host had memory for all of them. After a refusal nothing more is
/// kept.
#[derive(Drop)]
pub(crate) struct Kept {
    processes: Vec<Process>,
    lines: Vec<Line>,
    is_whole: bool,
}

impl Model for Kept {
    ghost use Rattle.shm_text.specs.Reading.{KeptView};

    ghost Value = { KeptView };

    ghost view = { λ k. record {
      processes = k.processes.items;
      lines = k.lines.items;
      is_whole = k.is_whole;
    } };
}

impl Kept {
    /// Nothing yet, with room for this many lines.
    pub(crate) fn new(alloc: Global, room: usize) -> Kept
        ensures processes { result.processes ≡ [] }
        ensures lines { result.lines ≡ [] }
    {
        let mut lines = Vec::new(alloc);
        let is_whole = lines.reserve(room).is_ok();
        Kept {
            processes: Vec::new(alloc),
            lines,
            is_whole,
        }
    }

    /// Keeps a line, while there is memory.
    #[inline(always)]
    pub(crate) fn line(&mut self, line: Line)
        ensures { KeepsUp self.old self.new (Some (Item.Line line)) }
    {
        if self.is_whole && self.lines.push(line).is_err() {
            self.is_whole = false;
        }
    }

    /// Keeps what a line said, while there is memory.
    pub(crate) fn take(&mut self, item: Item)
        ensures { KeepsUp self.old self.new (Some item) }
    {
        match item {
            Item::Line(line) => self.line(line),
            Item::Process(process) => {
                if self.is_whole && self.processes.push(process).is_err() {
                    self.is_whole = false;
                }
            }
            Item::Sizes(_) | Item::Limits(_) => {}
        }
    }

    /// The script with these limits; none if the host refused memory.
    pub(crate) fn script(self, limits: Limits) -> Option<Script>
        ensures which { IsSome result ↔ self.is_whole ≡ true }
        ensures value { IfSome result (λ s. s ≡ record {
          limits = limits;
          processes = self.processes;
          lines = self.lines;
        }) }
    {
        let Kept {
            processes,
            lines,
            is_whole,
        } = self;
        if !is_whole {
            return None;
        }
        Some(Script {
            limits,
            processes,
            lines,
        })
    }
}

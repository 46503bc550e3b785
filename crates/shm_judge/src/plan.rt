//! Which line of a log to try next. The lines are tried in order, and a line that does not fit is left for later. If
//! no line near the first remaining one fits, another line is tried instead of the last one that was placed.
//!
//! A plan is a guess. The replies decide whatever it tries, so no contract says which line it picks.
use crate::log::Entry;
use shm_base::Event;
use shm_schedules::reply_count;
use shm_text::Script;
use std::alloc::{AllocError, Global};

// How far after the first remaining line a line may be tried.
const LATEST: usize = 2;

// The next line of a process; the number of lines if it has none.
#[derive(Clone, Copy)]
struct Head {
    pid: u32,
    line: usize,
}

// What to do with the runs so far.
pub(crate) enum Move {
    // Continues with this line.
    Try(usize),
    // Returns to the run before the last one.
    Back,
    // Nothing is left to try.
    End,
}

// The first line of a process from a line on; the number of lines if there is none.
fn own_line(entries: &[Entry], pid: u32, from: usize) -> usize {
    let mut line = from;
    while line < entries.len() {
        let entry = &entries[line];
        if entry.pid == pid {
            return line;
        }
        line += 1;
    }
    line
}

// The first of the next lines that is not before `from`, or `count`.
fn first_head(heads: &[Head], from: usize, count: usize) -> usize {
    let mut found = count;
    for head in heads {
        if from <= head.line && head.line < found {
            found = head.line;
        }
    }
    found
}

fn set_head(heads: &mut [Head], pid: u32, line: usize) {
    for head in heads.iter_mut() {
        if head.pid == pid {
            head.line = line;
        }
    }
}

// The line of the last of these calls; the number of lines if there is none.
pub(crate) fn last_line(entries: &[Entry], events: &[Event]) -> usize {
    if events.is_empty() {
        return entries.len();
    }
    let last = &events[events.len() - 1];
    let mut left = reply_count(events, last.pid);
    for (line, entry) in entries.iter().enumerate() {
        if entry.pid == last.pid {
            if left <= 1 {
                return line;
            }
            left -= 1;
        }
    }
    entries.len()
}

#[derive(Drop)]
pub(crate) struct Plan {
    heads: Vec<Head>,
    // the lines that were placed, in order
    placed: Vec<usize>,
    // lines before this one were tried
    from: usize,
}

impl Plan {
    pub(crate) fn of(
        alloc: Global,
        script: &Script,
        entries: &[Entry],
    ) -> Result<Plan, AllocError> {
        let mut heads = Vec::new(alloc);
        for process in &script.processes {
            let line = own_line(entries, process.pid, 0);
            heads.push(Head {
                pid: process.pid,
                line,
            })?;
        }
        Ok(Plan {
            heads,
            placed: Vec::new(alloc),
            from: 0,
        })
    }

    // The next move, in a log of this many lines.
    pub(crate) fn next(&self, count: usize) -> Move {
        let first = first_head(&self.heads, 0, count);
        if first >= count {
            return Move::End;
        }
        let line = first_head(&self.heads, self.from, count);
        if line >= count || line.saturating_sub(first) > LATEST {
            return Move::Back;
        }
        Move::Try(line)
    }

    // The line was placed.
    pub(crate) fn took(&mut self, entries: &[Entry], line: usize) -> Result<(), AllocError> {
        self.placed.push(line)?;
        self.from = 0;
        if line < entries.len() {
            let entry = &entries[line];
            set_head(
                &mut self.heads,
                entry.pid,
                own_line(entries, entry.pid, line + 1),
            );
        }
        Ok(())
    }

    // The line does not fit here.
    pub(crate) fn failed(&mut self, line: usize) {
        self.from = line.saturating_add(1);
    }

    // The last line that was placed is open again; it was tried here.
    pub(crate) fn back(&mut self, entries: &[Entry]) {
        let Some(line) = self.placed.pop() else {
            return;
        };
        if line < entries.len() {
            let entry = &entries[line];
            set_head(&mut self.heads, entry.pid, line);
        }
        self.from = line.saturating_add(1);
    }
}

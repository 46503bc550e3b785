//! The lines of a process, and its replies.
ghost use Rattle.std.specs.Prelude.{◌≡◌, ◌≤◌, ◌<◌, drop, length, slice_index_or};
ghost use Rattle.shm_base.specs.declared.call.Event.{Event as FlatEvent};
ghost use Rattle.shm_base.specs.History.{own_part};
ghost use Rattle.shm_text.specs.Variables.{no_values};
ghost use Rattle.shm_schedules.specs.Schedules.{next_call, replies_to};

use shm_base::{Call, Event};
use shm_text::{Line, Vars};

/// The call of the first line of a process that these events do not answer yet, with the process's variables.
pub(crate) fn next_call(lines: &[Line], pid: u32, events: &[Event]) -> Option<Call>
    ensures { result ≡ next_call pid no_values lines.now (replies_to pid events.now) }
{
    let mut vars = Vars::new();
    let mut place = 0;
    for line in lines {
        let Line::Command(command) = line else {
            continue;
        };
        if command.pid() != pid {
            continue;
        }
        place = next_own(events, pid, place);
        if place >= events.len() {
            return Some(vars.call(command));
        }
        vars.took(command, Some(&events[place].reply));
        place += 1;
    }
    None
}

// The index of the first event of a process, from an index on.
fn next_own(events: &[Event], pid: u32, from: usize) -> usize
    requires { from ≤ length events.now }
    ensures bound { result ≤ length events.now }
    ensures same { own_part pid (drop result events.now) ≡ own_part pid (drop from events.now) }
    ensures own { result < length events.now
        → (e : FlatEvent) → e ≡ slice_index_or events.now result e → e.pid ≡ pid }
{
    let mut next = from;
    while next < events.len() && events[next].pid != pid {
        next += 1;
    }
    next
}

/// The number of replies that a process has in these events.
pub fn reply_count(events: &[Event], pid: u32) -> usize
    ensures { result ≡ length (replies_to pid events.now) }
{
    let mut count = 0;
    for event in events {
        if event.pid == pid {
            count += 1;
        }
    }
    count
}

//! The action of a step.
ghost use Rattle.std.specs.Prelude.{◌≡◌, ◌++◌, OnOk, string_bytes};
ghost use Rattle.shm_program.specs.Record.{action_text};

use shm_base::{Event, FlushReport};
use shm_print::push_event;
use std::alloc::AllocError;

/// What a step did. `Start`: the machine opened. `Call`: a call with its reply. `Flush`: a flush round of at
/// most this many pages, with its report.
#[derive(Debug, Drop)]
pub enum Action {
    Start,
    Call(Event),
    Flush(u64, FlushReport),
}

// Appends the line of an action to a text. A call is at this place of the history.
pub(crate) fn push_action(text: &mut String, place: u64, action: &Action) -> Result<(), AllocError>
    ensures { OnOk result (string_bytes text.new ≡ string_bytes text.old ++ action_text place action.now) }
{
    match action {
        Action::Start => text.push_str("start\n"),
        Action::Call(event) => {
            text.push_str("call ")?;
            push_event(text, place, event)
        }
        Action::Flush(pages, report) => {
            let (written, failed) = (report.written, report.failed);
            write!(text, "flush {pages} written {written} failed {failed}\n")
        }
    }
}

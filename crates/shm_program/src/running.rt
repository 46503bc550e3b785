//! Runs one line of a script.
ghost use Rattle.std.specs.Prelude.{IfOk};
ghost use Rattle.shm_program.specs.Running.{HasRun};

use crate::action::Action;
use crate::values::Values;
use shm_base::{Event, HostMemory};
use shm_history::World;
use shm_pager_core::Pager;
use shm_text::Line;

/// Runs a line: a command with the variables of its process, or a flush round. HostMemory: the host refused
/// memory for the call.
pub fn run_line<P: Pager>(
    world: &mut World<P>,
    values: &mut Values,
    line: &Line,
) -> Result<Action, HostMemory>
    ensures { IfOk result
        (λ action. HasRun values.old world.old line.now
        (record { action = action; values = values.new; world = world.new })) }
{
    match line {
        Line::Command(command) => {
            let call = values.call(command);
            let pid = command.pid();
            let reply = world.call(pid, &call)?;
            values.took(command, &reply);
            Ok(Action::Call(Event { pid, call, reply }))
        }
        Line::Flush(round) => {
            let pages = u64::from(round.pages());
            let report = world.flush(pages);
            Ok(Action::Flush(pages, report))
        }
    }
}

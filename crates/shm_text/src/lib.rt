//! The script language: reads a script, and keeps the variables of its processes.
#![tactic(auto)]

mod calls;
mod fault;
mod forms;
mod kept;
mod lines;
mod number;
mod operand;
mod reading;
mod rules;
mod script;
mod variables;
mod words;

pub use fault::{FaultKind, ReadRefused, ScriptFault};
pub use number::read_decimal;
pub use reading::read_script;
pub use script::{Command, FlushLine, Line, LineAddr, LineCall, LineId, Script, Variable};
pub use variables::Vars;

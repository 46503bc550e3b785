//! Why a script is refused.
ghost use Rattle.std.specs.Prelude.{Some};
ghost use Rattle.shm_text.specs.Fault.{kind_text};

use std::{error, fmt};
use thiserror::Error;

/// What is wrong with a line, in the order of the tests:
///
/// - `TooLong`: the script has more than 1,048,576 bytes.
/// - `BadByte`: a byte that is neither a tab nor 0x20 to 0x7e.
/// - `NoLimits`: the first line with words begins neither with `sizes` nor with `limits`, or the first one
///   below the sizes not with `limits`; or there is no limits line, and this is line 1.
/// - `BadLine`: the words have no form of the language.
/// - `LengthsDiffer`: the two operands of a `cas` do not have the same number of bytes.
/// - `TooWide`: a variable before a `swap` or `cas` of more than eight bytes.
/// - `BadNumber`: a number is out of its range.
/// - `BadLimits`: the limits are refused, with the number of the first that is out of its range.
/// - `UnknownProcess`: the pid of a command, or the child of a fork, is not declared above.
/// - `Twice`: the pid is declared above.
/// - `TooMany`: one process more than the limits allow, or the 100,001st command or flush line.
#[derive(Clone, Copy, Debug, PartialEq, Eq)]
pub enum FaultKind {
    TooLong,
    BadByte,
    NoLimits,
    BadLine,
    LengthsDiffer,
    TooWide,
    BadNumber,
    BadLimits(u8),
    UnknownProcess,
    Twice,
    TooMany,
}

impl fmt::Display for FaultKind {
    ghost output = { λ k. Some (kind_text k) };

    fn fmt<W: fmt::Write>(&self, f: &mut fmt::Formatter<W>) -> fmt::Result {
        match self {
            FaultKind::TooLong => f.write_str("script too long"),
            FaultKind::BadByte => f.write_str("bad byte"),
            FaultKind::NoLimits => f.write_str("no limits line"),
            FaultKind::BadLine => f.write_str("bad line"),
            FaultKind::LengthsDiffer => f.write_str("lengths differ"),
            FaultKind::TooWide => f.write_str("too wide for a variable"),
            FaultKind::BadNumber => f.write_str("bad number"),
            FaultKind::BadLimits(number) => write!(f, "bad limits {number}"),
            FaultKind::UnknownProcess => f.write_str("unknown process"),
            FaultKind::Twice => f.write_str("process declared twice"),
            FaultKind::TooMany => f.write_str("too many lines"),
        }
    }
}

impl error::Error for FaultKind {}

/// The first fault of a script: its line, counted from 1, and what is wrong with it. Line 0 means the script
/// as a whole.
#[derive(Clone, Copy, Debug, PartialEq, Eq, Error)]
#[error("line {line}: {kind}")]
pub struct ScriptFault {
    pub line: u32,
    pub kind: FaultKind,
}

/// Why no script was read: its first fault; or the host refused memory, and the script has no fault.
#[derive(Debug, Drop, Error)]
pub enum ReadRefused {
    #[error("out of memory")]
    HostMemory,
    #[error(transparent)]
    Fault(ScriptFault),
}

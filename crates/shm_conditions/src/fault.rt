//! What is wrong with the text of a condition.

/// What is wrong: an operand is missing, which is `P:N=REPLY`, `~` or `(`; an operator or `)` is missing; `)` without
/// `(`, or `(` without `)`; a word that is not `P:N=REPLY`; a process that the script does not declare; or a line that
/// the process does not have.
#[derive(Clone, Copy, Debug, PartialEq, Eq)]
pub enum ConditionFaultKind {
    NoOperand,
    NoOperator,
    Unopened,
    Unclosed,
    BadWord,
    UnknownProcess,
    UnknownLine,
}

/// The first fault of a condition, with the number of its byte, from 1.
#[derive(Clone, Copy, Debug, PartialEq, Eq)]
pub struct ConditionFault {
    pub at: u64,
    pub kind: ConditionFaultKind,
}

// Why a text is refused.
use thiserror::Error;

/// The kind of the first fault of a text.
#[derive(Clone, Copy, Debug, Drop, PartialEq, Eq)]
pub enum AsmKind {
    /// A byte at which no token starts, or a line with no form of a statement.
    Syntax,
    /// A mnemonic, a directive, or a name after `%` or `#` that is none.
    UnknownName,
    /// Operands of which the mnemonic or the directive has no form.
    BadOperand,
    /// A value that does not fit its field, or a place outside memory.
    OutOfRange,
    /// A name that is defined twice.
    DuplicateLabel,
    /// A name that is not defined, or not by an earlier line where that is asked.
    MissingLabel,
    /// More than 65,536 lines, or more than 16,777,216 bytes.
    TooLong,
    OutOfMemory,
}

/// The first fault of a text: its line, counted from 1, and its kind. Want of memory has line 0.
#[derive(Clone, Copy, Debug, Drop, Error, PartialEq, Eq)]
#[error("line {line}: {kind:?}")]
pub struct AsmError {
    pub line: u32,
    pub kind: AsmKind,
}

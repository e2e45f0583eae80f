//! Why a text is refused.
ghost use Rattle.std.specs.Prelude.{◌≡◌};
ghost use Rattle.t1_read.specs.declared.error.LogKind.TheVariants.{OutOfMemory};

use std::alloc::AllocError;
use thiserror::Error;

/// What is at fault with a line, in the order in which faults of one line are tried.
#[derive(Clone, Copy, Debug, PartialEq, Eq, Error)]
pub enum LogKind {
    /// Line 1 is another than `t1log 1`.
    #[error("another version of the log")]
    Version,
    /// The line has no form that is allowed at its place.
    #[error("no line of a log here")]
    Syntax,
    /// The line has the form, and a value is out of its range.
    #[error("a value out of its range")]
    Range,
    /// The text ends before `end` and its line feed, or goes on after it.
    #[error("the log ends elsewhere")]
    Unended,
    /// Memory is wanting.
    #[error("out of memory")]
    OutOfMemory,
}

/// The first line at fault, counted from 1, and its kind. For a text that does not end as a log does
/// the line is its last whole one, 0 where there is none; for want of memory it is 0.
#[derive(Clone, Copy, Debug, PartialEq, Eq, Error)]
#[error("line {line}: {kind}")]
pub struct LogError {
    pub line: u32,
    pub kind: LogKind,
}

impl From<AllocError> for LogError {
    ghost from_gives = { λ _ e. e ≡ record { line = 0; kind = OutOfMemory } };

    fn from(_error: AllocError) -> LogError {
        LogError {
            line: 0,
            kind: LogKind::OutOfMemory,
        }
    }
}

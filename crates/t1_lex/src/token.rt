// Tokens of assembly text.
use thiserror::Error;

/// What a token is.
#[derive(Clone, Copy, Debug, Drop, PartialEq, Eq)]
pub enum TokenKind {
    /// A letter or one of `_ . $`, then letters, digits and these. `.` alone is of this kind, too.
    Name,
    /// A decimal or hexadecimal number, with its value.
    Number(u64),
    /// A text with its quotes.
    Text,
    /// `%` and a name.
    Percent,
    /// `#` and a name.
    Hash,
    /// One of `, : [ ] ( ) + - = |`.
    Punct(u8),
    /// A line feed.
    LineEnd,
}

/// A token: the bytes from `start` to before `end`, and its line, counted from 1.
#[derive(Clone, Copy, Debug, Drop, PartialEq, Eq)]
pub struct Token {
    pub start: u32,
    pub end: u32,
    pub line: u32,
    pub kind: TokenKind,
}

/// Why a text has no tokens.
#[derive(Clone, Copy, Debug, Drop, Error, PartialEq, Eq)]
pub enum LexError {
    /// The first byte at which no token starts, and its line, counted from 1.
    #[error("line {line}: no token starts at byte {at}")]
    BadByte { at: u32, line: u32 },
    #[error("out of memory")]
    OutOfMemory,
}

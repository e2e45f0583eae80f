//! Rows of the tests of commands: what commands are given, and what comes of them.

use crate::files::{File, linked_file};
use crate::texts::stored_log;
use std::alloc::{AllocError, Global};

/// What the devices of each command of a row do. The call of a device that fails is counted from 1; at 0
/// none does.
#[derive(Clone, Copy)]
pub struct Plan {
    pub read: u32,
    pub write: u32,
    pub tell: u32,
    /// The most bytes that one write takes.
    pub piece: usize,
    /// The most bytes that the output holds.
    pub room: usize,
}

/// Devices that do not fail.
pub const CALM: Plan = Plan {
    read: 0,
    write: 0,
    tell: 0,
    piece: 4096,
    room: 1 << 24,
};

/// What the first command of a row reads.
#[derive(Clone, Copy)]
pub enum Input<'a> {
    Text(&'a str),
    /// An ELF file of one segment.
    File(File<'a>),
    /// The stored log, with one text in place of the first place of another.
    Log { from: &'a str, to: &'a str },
    /// A file of GNU ld.
    Linked,
}

impl Input<'_> {
    /// The bytes that are read.
    pub fn bytes(self, alloc: Global) -> Result<Vec<u8>, AllocError> {
        match self {
            Input::Text(text) => Vec::from_slice(alloc, text.as_bytes()),
            Input::File(file) => file.bytes(alloc),
            Input::Log { from, to } => {
                let (front, rest) = stored_log().split_once(from).unwrap_or((stored_log(), ""));
                let mut text = Vec::from_slice(alloc, front.as_bytes())?;
                text.extend_from_slice(to.as_bytes())?;
                text.extend_from_slice(rest.as_bytes())?;
                Ok(text)
            }
            Input::Linked => linked_file(alloc),
        }
    }
}

/// What the last command of a row writes.
#[derive(Clone, Copy)]
pub enum Out<'a> {
    /// It is not looked at.
    Any,
    /// This text.
    Is(&'a str),
    /// Lines of which each of these is one.
    Lines(&'a str),
    /// A text in which this one stands.
    Shows(&'a str),
    /// A text in which this one does not stand.
    Lacks(&'a str),
    /// Lines of which so many begin with a text.
    Begin(&'a str, usize),
    /// So many first bytes of the stored log.
    LogBytes(usize),
    /// So many first lines of the stored log.
    LogLines(usize),
    /// So many bytes.
    Size(usize),
    /// An ELF file of one segment.
    File(File<'a>),
}

impl Out<'_> {
    /// Whether it was written.
    pub fn is(self, alloc: Global, written: &[u8]) -> Result<bool, AllocError> {
        let log = stored_log().as_bytes();
        let text = str::from_utf8(written).unwrap_or("");
        Ok(match self {
            Out::Any => true,
            Out::Is(wanted) => written == wanted.as_bytes(),
            Out::Lines(wanted) => wanted.lines().all(|line| has_line(text, line)),
            Out::Shows(wanted) => text.contains(wanted),
            Out::Lacks(wanted) => !written.is_empty() && !text.contains(wanted),
            Out::Begin(head, count) => {
                text.lines().filter(|line| line.starts_with(head)).count() == count
            }
            Out::LogBytes(count) => written == log.get(..count).unwrap_or(b""),
            Out::LogLines(count) => written == first_lines(log, count),
            Out::Size(count) => written.len() == count,
            Out::File(file) => file.bytes(alloc)?.as_slice() == written,
        })
    }
}

/// Whether a text has a line.
pub fn has_line(text: &str, line: &str) -> bool {
    text.lines().any(|found| found == line)
}

/// So many first lines of a text.
fn first_lines(text: &[u8], lines: usize) -> &[u8] {
    let mut seen = 0usize;
    for (at, byte) in text.iter().enumerate() {
        if seen == lines {
            return text.split_at(at).0;
        }
        if *byte == b'\n' {
            seen = seen.saturating_add(1);
        }
    }
    text
}

/// Commands, what they are given, and what comes of them.
#[derive(Clone, Copy)]
pub struct Row<'a> {
    /// The words of a command, or of several with ` | ` between: each but the first reads what the one
    /// before wrote.
    pub words: &'a str,
    pub input: Input<'a>,
    pub plan: Plan,
    /// The status of the last command.
    pub status: u8,
    pub out: Out<'a>,
    /// The line on err, behind the name of the program, or nothing.
    pub err: &'a str,
}

/// A row of calm devices whose commands read nothing, do well and tell nothing.
pub const ROW: Row<'static> = Row {
    words: "",
    input: Input::Text(""),
    plan: CALM,
    status: 0,
    out: Out::Any,
    err: "",
};

impl Row<'_> {
    /// Whether its line, and nothing else, was told on err.
    pub fn is_told(self, err: &[u8]) -> bool {
        match err.strip_prefix(b"t1sim: ") {
            Some(rest) => rest.strip_suffix(b"\n") == Some(self.err.as_bytes()),
            None => self.err.is_empty() && err.is_empty(),
        }
    }
}

//! Lines of a text: where the next one begins, and what is at fault with one.
ghost use Rattle.std.specs.Prelude.{◌≡◌, ◌≤◌, length, true, MatchOption};
ghost use Rattle.t1_read.specs.Faults.{feeds};
ghost use Rattle.t1_read.specs.Standing.{BeginsSo, IsJudged, IsKindOfFault};

use crate::error::{LogError, LogKind};
use t1_line_forms::{Line, has_form};
use t1_take::Cursor;

/// The lines of a text that were taken: where the next one begins.
#[derive(Clone, Copy)]
pub(crate) struct Lines {
    pub at: usize,
}

impl Lines {
    /// A cursor at the next line.
    pub(crate) fn next(&self) -> Cursor
        ensures { result ≡ record { at = self.now.at; good = true } }
    {
        Cursor::new(self.at)
    }

    /// A line was taken.
    pub(crate) fn went(&mut self, cursor: Cursor)
        ensures { self.new.at ≡ cursor.at }
    {
        self.at = cursor.at;
    }

    /// What is at fault with the next line, which could not be taken as a good line of this kind. It is
    /// looked at a second time: whether it has the form, whatever its numbers are.
    pub(crate) fn fault(&self, text: &[u8], kind: Line) -> LogError
        requires { length text.now ≤ 67108864 }
        ensures { IsJudged text.now self.now.at kind result }
    {
        let (before, rest) = text.split_at(self.at.min(text.len()));
        match first_line(rest) {
            Some(line) => LogError {
                line: line_feeds(before) + 1,
                kind: kind_of_fault(line, kind),
            },
            None => LogError {
                line: line_feeds(text),
                kind: LogKind::Unended,
            },
        }
    }
}

/// Whether a line that was refused has the form, so that a value is out of its range.
fn kind_of_fault(line: &[u8], kind: Line) -> LogKind
    ensures { IsKindOfFault kind line.now result }
{
    if has_form(kind, line) {
        LogKind::Range
    } else {
        LogKind::Syntax
    }
}

/// How many line feeds a text has.
pub(crate) fn line_feeds(text: &[u8]) -> u32
    requires { length text.now ≤ 67108864 }
    ensures { result ≡ feeds text.now }
{
    let mut count: u32 = 0;
    for at in 0..text.len() {
        if text[at] == b'\n' {
            count += 1;
        }
    }
    count
}

/// The first line of a text without its line feed, if it is whole.
pub(crate) fn first_line(text: &[u8]) -> Option<&[u8]>
    ensures { MatchOption result (feeds text.now ≡ 0) (λ line. BeginsSo text.now line.now) }
{
    for at in 0..text.len() {
        if text[at] == b'\n' {
            return Some(text.split_at(at).0);
        }
    }
    None
}

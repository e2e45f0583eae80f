//! How lines begin.
ghost use Rattle.std.specs.Prelude.{ℕ, ◌≡◌, ◌++◌, List, codes, decimal, MatchOption};
ghost use Rattle.t1_line_forms.specs.Forms.{counted, head_of};

use crate::field::after;
use crate::line::Line;
use itoa::Buffer;

/// What follows this number in decimal digits, if a text begins with it.
fn after_number(text: &[u8], number: u64) -> Option<&[u8]>
    ensures { MatchOption result ((rest : List ℕ) → text.now ≡ decimal number ++ rest → ⊥) (λ rest. text.now ≡ decimal number ++ rest.now) }
{
    let mut buffer = Buffer::new();
    after(text, buffer.format(number).as_bytes())
}

/// What follows this number and a space, if a text begins with them.
fn after_place(text: &[u8], number: u64) -> Option<&[u8]>
    ensures { MatchOption result ((rest : List ℕ) → text.now ≡ counted number ++ rest → ⊥) (λ rest. text.now ≡ counted number ++ rest.now) }
{
    match after_number(text, number) {
        Some(rest) => after(rest, b" "),
        None => None,
    }
}

/// What follows a word and the number of a place.
fn after_one<'a>(text: &'a [u8], word: &[u8], number: u64) -> Option<&'a [u8]>
    ensures { MatchOption result ((rest : List ℕ) → text.now ≡ (word.now ++ counted number) ++ rest → ⊥) (λ rest. text.now ≡ (word.now ++ counted number) ++ rest.now) }
{
    match after(text, word) {
        Some(rest) => after_place(rest, number),
        None => None,
    }
}

/// What follows the strand and the number of an item.
fn after_item(text: &[u8], strand: u64, number: u64) -> Option<&[u8]>
    ensures { MatchOption result ((rest : List ℕ) → text.now ≡ (codes "i " ++ (counted strand ++ counted number)) ++ rest → ⊥) (λ rest. text.now ≡ (codes "i " ++ (counted strand ++ counted number)) ++ rest.now) }
{
    match after_one(text, b"i ", strand) {
        Some(rest) => after_place(rest, number),
        None => None,
    }
}

/// What follows the head of a line of this kind.
pub(crate) fn after_head(kind: Line, line: &[u8]) -> Option<&[u8]>
    ensures { MatchOption result ((rest : List ℕ) → line.now ≡ head_of kind ++ rest → ⊥) (λ rest. line.now ≡ head_of kind ++ rest.now) }
{
    match kind {
        Line::Config => after(line, b"config cores "),
        Line::Entry => after(line, b"entry "),
        Line::Block => after(line, b"m "),
        Line::Item { strand, number } => after_item(line, strand, number),
        Line::End { strand } => after_one(line, b"e ", strand),
        Line::Commit { index } => after_one(line, b"c ", index),
        Line::Order => after(line, b"o "),
        Line::Console => after(line, b"k "),
        Line::Last => after(line, b"end"),
    }
}

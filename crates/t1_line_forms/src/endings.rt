//! How lines end.
ghost use Rattle.std.specs.Prelude.{ℕ, ◌≡◌, List, [], MatchBool};
ghost use Rattle.t1_line_forms.specs.Forms.{IsPlace, AreKills, AreByteDigits, IsTail, kill_fields};
ghost use Rattle.t1_line_forms.specs.Tables.{seen_fields};

use crate::digits::are_hex_digits;
use crate::field::{Field, Tail};
use crate::fields::{after_fields, has_fields};

/// Whether a text is where an access stands.
fn is_place(text: &[u8]) -> bool
    ensures { MatchBool result (IsPlace text.now) (IsPlace text.now → ⊥) }
{
    if has_fields(&[Field::Word(b" F "), Field::Number], text) {
        return true;
    }
    if has_fields(&[Field::Word(b" H "), Field::Number], text) {
        return true;
    }
    let commit = [
        Field::Word(b" M "),
        Field::Number,
        Field::Word(b" "),
        Field::Number,
    ];
    has_fields(&commit, text)
}

fn kill_table() -> &'static [Field]
    ensures { seen_fields result.now ≡ kill_fields }
{
    &[
        Field::Word(b" "),
        Field::Number,
        Field::Word(b"."),
        Field::Cache,
        Field::Word(b"."),
        Field::Number,
        Field::Word(b"."),
        Field::Number,
    ]
}

/// Whether a text is at most 64 killed copies.
fn are_kills(text: &[u8]) -> bool
    ensures { MatchBool result (AreKills 64 text.now) (AreKills 64 text.now → ⊥) }
{
    let mut rest = text;
    for count in 0..64usize {
        if rest.is_empty() {
            return true;
        }
        match after_fields(kill_table(), rest) {
            Some(more) => rest = more,
            None => return false,
        }
    }
    rest.is_empty()
}

/// Whether a text is 1 to 32 bytes in hexadecimal digits.
fn are_bytes(text: &[u8]) -> bool
    ensures { MatchBool result (AreByteDigits text.now) (AreByteDigits text.now → ⊥) }
{
    if text.is_empty() || text.len() > 64 {
        return false;
    }
    if text.len() % 2 == 1 {
        return false;
    }
    are_hex_digits(text)
}

/// Whether a line may end so.
pub(crate) fn is_tail(tail: Tail, text: &[u8]) -> bool
    ensures { MatchBool result (IsTail tail text.now) (IsTail tail text.now → ⊥) }
{
    match tail {
        Tail::Nothing => text.is_empty(),
        Tail::Place => is_place(text),
        Tail::Kills => are_kills(text),
        Tail::Bytes => are_bytes(text),
    }
}

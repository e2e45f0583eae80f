//! The fields of a line, each cut off the front of a text.
ghost use Rattle.std.specs.Prelude.{ℕ, ◌≡◌, ◌*◌, ◌⊎◌, ◌++◌, List, codes, IfSome, MatchOption};
ghost use Rattle.t1_line_forms.specs.Digits.{IsDecimal, EndsDecimal, number_of, IsHex};
ghost use Rattle.t1_line_forms.specs.Fields.{Begins, size_after};
ghost use Rattle.t1_line_forms.specs.Tables.{seen_field};

use crate::digits::{are_hex_digits, decimal_digits, is_decimal, number_of};

/// A field of a line.
#[derive(Clone, Copy)]
pub(crate) enum Field {
    Word(&'static [u8]),
    /// A decimal number.
    Number,
    /// So many hexadecimal digits.
    Hex(usize),
    /// How many bytes the values of this line have.
    Size,
    /// A value, two digits for each byte.
    Value,
    /// The letter of a cache.
    Cache,
}

/// How a line ends.
#[derive(Clone, Copy)]
pub(crate) enum Tail {
    Nothing,
    Place,
    Kills,
    Bytes,
}

/// Fields, and how a line ends behind them.
#[derive(Clone, Copy)]
pub(crate) struct Form {
    pub fields: &'static [Field],
    pub tail: Tail,
}

/// What follows a word, if a text begins with it.
pub(crate) fn after<'a>(text: &'a [u8], word: &[u8]) -> Option<&'a [u8]>
    ensures { MatchOption result ((rest : List ℕ) → text.now ≡ word.now ++ rest → ⊥) (λ rest. text.now ≡ word.now ++ rest.now) }
{
    text.strip_prefix(word)
}

fn cut_word<'a>(word: &'static [u8], text: &'a [u8]) -> Option<(&'a [u8], &'a [u8])>
    ensures some { IfSome result (λ cut. (text.now ≡ cut.0.now ++ cut.1.now) × (cut.0.now ≡ word.now)) }
    ensures only { (piece rest : List ℕ) → text.now ≡ piece ++ rest → piece ≡ word.now → MatchOption result ⊥ (λ cut. (cut.0.now ≡ piece) × (cut.1.now ≡ rest)) }
{
    match after(text, word) {
        Some(rest) => Some((word, rest)),
        None => None,
    }
}

fn cut_number(text: &[u8]) -> Option<(&[u8], &[u8])>
    ensures some { IfSome result (λ cut. (text.now ≡ cut.0.now ++ cut.1.now) × IsDecimal cut.0.now × EndsDecimal cut.1.now) }
    ensures only { (piece rest : List ℕ) → text.now ≡ piece ++ rest → IsDecimal piece → EndsDecimal rest → MatchOption result ⊥ (λ cut. (cut.0.now ≡ piece) × (cut.1.now ≡ rest)) }
{
    let (digits, rest) = decimal_digits(text);
    if is_decimal(digits) {
        Some((digits, rest))
    } else {
        None
    }
}

fn cut_hex(count: usize, text: &[u8]) -> Option<(&[u8], &[u8])>
    ensures some { IfSome result (λ cut. (text.now ≡ cut.0.now ++ cut.1.now) × IsHex count cut.0.now) }
    ensures only { (piece rest : List ℕ) → text.now ≡ piece ++ rest → IsHex count piece → MatchOption result ⊥ (λ cut. (cut.0.now ≡ piece) × (cut.1.now ≡ rest)) }
{
    if count == 0 || count > text.len() {
        return None;
    }
    let (digits, rest) = text.split_at(count);
    if are_hex_digits(digits) {
        Some((digits, rest))
    } else {
        None
    }
}

/// A value of a line whose size has these digits.
fn cut_value<'a>(size: &[u8], text: &'a [u8]) -> Option<(&'a [u8], &'a [u8])>
    ensures some { IfSome result (λ cut. (text.now ≡ cut.0.now ++ cut.1.now) × IsHex (2 * number_of size.now) cut.0.now) }
    ensures only { (piece rest : List ℕ) → text.now ≡ piece ++ rest → IsHex (2 * number_of size.now) piece → MatchOption result ⊥ (λ cut. (cut.0.now ≡ piece) × (cut.1.now ≡ rest)) }
{
    let bytes = number_of(size);
    if bytes > text.len() / 2 {
        return None;
    }
    cut_hex(2 * bytes, text)
}

fn cut_cache(text: &[u8]) -> Option<(&[u8], &[u8])>
    ensures some { IfSome result (λ cut. (text.now ≡ cut.0.now ++ cut.1.now) × ((cut.0.now ≡ codes "d") ⊎ (cut.0.now ≡ codes "i"))) }
    ensures only { (piece rest : List ℕ) → text.now ≡ piece ++ rest → (piece ≡ codes "d") ⊎ (piece ≡ codes "i") → MatchOption result ⊥ (λ cut. (cut.0.now ≡ piece) × (cut.1.now ≡ rest)) }
{
    match cut_word(b"d", text) {
        Some(cut) => Some(cut),
        None => cut_word(b"i", text),
    }
}

/// A field at the front of a text, and what follows it. The digits of the size are those that the line
/// has shown.
pub(crate) fn cut_field<'a>(
    field: Field,
    size: &[u8],
    text: &'a [u8],
) -> Option<(&'a [u8], &'a [u8])>
    ensures some { IfSome result (λ cut. Begins size.now (seen_field field) text.now cut.0.now cut.1.now) }
    ensures only { (piece rest : List ℕ) → Begins size.now (seen_field field) text.now piece rest → MatchOption result ⊥ (λ cut. (cut.0.now ≡ piece) × (cut.1.now ≡ rest)) }
{
    match field {
        Field::Word(word) => cut_word(word, text),
        Field::Number => cut_number(text),
        Field::Hex(count) => cut_hex(count, text),
        Field::Size => cut_number(text),
        Field::Value => cut_value(size, text),
        Field::Cache => cut_cache(text),
    }
}

/// The digits of the size, behind a field.
pub(crate) fn size_after<'a>(size: &'a [u8], field: Field, piece: &'a [u8]) -> &'a [u8]
    ensures { result.now ≡ size_after size.now (seen_field field) piece.now }
{
    match field {
        Field::Size => piece,
        Field::Word(_) | Field::Number | Field::Hex(_) | Field::Value | Field::Cache => size,
    }
}

//! Lines, and whether they have their form.
ghost use Rattle.std.specs.Prelude.{MatchBool};
ghost use Rattle.t1_line_forms.specs.Forms.{IsForm, IsOneOf, HasForm};
ghost use Rattle.t1_line_forms.specs.Tables.{seen_form, seen_forms};

use crate::endings::is_tail;
use crate::field::Form;
use crate::fields::after_fields;
use crate::heads::after_head;
use crate::tables::forms_of;

/// A kind of line of a log, with the numbers that it has to show at its place.
#[derive(Clone, Copy, Debug, PartialEq, Eq)]
pub enum Line {
    /// The machine of the run.
    Config,
    /// Where every strand starts.
    Entry,
    /// A block of the image.
    Block,
    /// An item of a strand, with its number.
    Item { strand: u64, number: u64 },
    /// How a strand ended.
    End { strand: u64 },
    /// A commit, with its index.
    Commit { index: u64 },
    /// A place of the memory order.
    Order,
    /// Bytes that reached the console.
    Console,
    /// The last line of a log.
    Last,
}

/// Whether a line, without its line feed, has a form of this kind.
pub fn has_form(kind: Line, line: &[u8]) -> bool
    ensures { MatchBool result (HasForm kind line.now) (HasForm kind line.now → ⊥) }
{
    match after_head(kind, line) {
        Some(rest) => is_one_of(forms_of(kind), rest),
        None => false,
    }
}

fn is_one_of(forms: &[Form], text: &[u8]) -> bool
    ensures { MatchBool result (IsOneOf (seen_forms forms.now) text.now) (IsOneOf (seen_forms forms.now) text.now → ⊥) }
{
    for form in forms {
        if is_form(*form, text) {
            return true;
        }
    }
    false
}

fn is_form(form: Form, text: &[u8]) -> bool
    ensures { MatchBool result (IsForm (seen_form form) text.now) (IsForm (seen_form form) text.now → ⊥) }
{
    match after_fields(form.fields, text) {
        Some(rest) => is_tail(form.tail, rest),
        None => false,
    }
}

//! Fields, one after another.
ghost use Rattle.std.specs.Prelude.{ℕ, ◌≡◌, List, [], IfSome, MatchOption, MatchBool};
ghost use Rattle.t1_line_forms.specs.Fields.{Leads, HasFields};
ghost use Rattle.t1_line_forms.specs.Tables.{seen_fields};

use crate::field::{Field, cut_field, size_after};

/// What follows some fields, if a text begins with them.
pub(crate) fn after_fields<'a>(fields: &[Field], text: &'a [u8]) -> Option<&'a [u8]>
    ensures some { IfSome result (λ rest. Leads [] (seen_fields fields.now) text.now rest.now) }
    ensures only { (end : List ℕ) → Leads [] (seen_fields fields.now) text.now end → MatchOption result ⊥ (λ rest. rest.now ≡ end) }
{
    let mut size: &[u8] = &[];
    let mut rest = text;
    for field in fields {
        match cut_field(*field, size, rest) {
            Some((piece, more)) => {
                size = size_after(size, *field, piece);
                rest = more;
            }
            None => return None,
        }
    }
    Some(rest)
}

/// Whether a text is these fields.
pub(crate) fn has_fields(fields: &[Field], text: &[u8]) -> bool
    ensures { MatchBool result (HasFields (seen_fields fields.now) text.now) (HasFields (seen_fields fields.now) text.now → ⊥) }
{
    match after_fields(fields, text) {
        Some(rest) => rest.is_empty(),
        None => false,
    }
}

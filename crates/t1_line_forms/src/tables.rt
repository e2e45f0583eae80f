//! The tables of the forms.
ghost use Rattle.std.specs.Prelude.{◌≡◌};
ghost use Rattle.t1_line_forms.specs.Forms.{config_forms, entry_forms, block_forms, item_forms, end_forms, commit_forms, order_forms, console_forms, last_forms, forms_of};
ghost use Rattle.t1_line_forms.specs.Tables.{seen_forms};

use crate::field::{Field, Form, Tail};
use crate::line::Line;

// Fields, and how the line ends behind them.
macro_rules! form {
    ($tail:ident: $($field:expr),*) => {
        Form { fields: &[$($field),*], tail: Tail::$tail }
    };
}

fn config() -> &'static [Form]
    ensures { seen_forms result.now ≡ config_forms }
{
    &[form!(Nothing:
        Field::Number, Field::Word(b" strands "), Field::Number, Field::Word(b" ram "), Field::Number,
        Field::Word(b" sets "), Field::Number, Field::Word(b" budget "), Field::Number)]
}

fn entry() -> &'static [Form]
    ensures { seen_forms result.now ≡ entry_forms }
{
    &[form!(Nothing: Field::Hex(10))]
}

fn block() -> &'static [Form]
    ensures { seen_forms result.now ≡ block_forms }
{
    &[form!(Nothing: Field::Hex(10), Field::Word(b" "), Field::Hex(64))]
}

fn item() -> &'static [Form]
    ensures { seen_forms result.now ≡ item_forms }
{
    &[
        form!(Place:
            Field::Word(b"fetch "), Field::Hex(10), Field::Word(b" "), Field::Size, Field::Word(b" "),
            Field::Value, Field::Word(b" -")),
        form!(Place:
            Field::Word(b"load "), Field::Hex(10), Field::Word(b" "), Field::Size, Field::Word(b" "),
            Field::Value, Field::Word(b" -")),
        form!(Place:
            Field::Word(b"store "), Field::Hex(10), Field::Word(b" "), Field::Size, Field::Word(b" - "),
            Field::Value),
        form!(Place:
            Field::Word(b"atomic "), Field::Hex(10), Field::Word(b" "), Field::Size, Field::Word(b" "),
            Field::Value, Field::Word(b" "), Field::Value),
        form!(Place:
            Field::Word(b"atomic "), Field::Hex(10), Field::Word(b" "), Field::Size, Field::Word(b" "),
            Field::Value, Field::Word(b" -")),
        form!(Nothing: Field::Word(b"membar "), Field::Hex(2)),
        form!(Nothing: Field::Word(b"flush")),
    ]
}

fn end() -> &'static [Form]
    ensures { seen_forms result.now ≡ end_forms }
{
    &[
        form!(Nothing: Field::Word(b"halted "), Field::Number, Field::Word(b" "), Field::Hex(16)),
        form!(Nothing: Field::Word(b"spent "), Field::Number, Field::Word(b" "), Field::Hex(16)),
        form!(Nothing:
            Field::Word(b"fault "), Field::Number, Field::Word(b" "), Field::Hex(16), Field::Word(b" "),
            Field::Hex(3)),
    ]
}

// A commit, by the way that was filled and the line that was evicted.
macro_rules! commit {
    ($($filled:expr),*) => {
        form!(Kills:
            Field::Number, Field::Word(b" "), Field::Number, Field::Word(b" "), Field::Number,
            Field::Word(b" "), $($filled),*)
    };
}

fn commit() -> &'static [Form]
    ensures { seen_forms result.now ≡ commit_forms }
{
    &[
        commit!(Field::Number, Field::Word(b" "), Field::Hex(10)),
        commit!(Field::Number, Field::Word(b" -")),
        commit!(Field::Word(b"- "), Field::Hex(10)),
        commit!(Field::Word(b"- -")),
    ]
}

fn order() -> &'static [Form]
    ensures { seen_forms result.now ≡ order_forms }
{
    &[form!(Nothing: Field::Number, Field::Word(b" "), Field::Number)]
}

fn console() -> &'static [Form]
    ensures { seen_forms result.now ≡ console_forms }
{
    &[form!(Bytes:)]
}

fn last() -> &'static [Form]
    ensures { seen_forms result.now ≡ last_forms }
{
    &[form!(Nothing:)]
}

/// How a line of this kind goes on behind its head.
pub(crate) fn forms_of(kind: Line) -> &'static [Form]
    ensures { seen_forms result.now ≡ forms_of kind }
{
    match kind {
        Line::Config => config(),
        Line::Entry => entry(),
        Line::Block => block(),
        Line::Item { .. } => item(),
        Line::End { .. } => end(),
        Line::Commit { .. } => commit(),
        Line::Order => order(),
        Line::Console => console(),
        Line::Last => last(),
    }
}

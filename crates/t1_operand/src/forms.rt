// The form that the operands of an instruction have.
ghost use Rattle.std.specs.Prelude.{◌≡◌};
ghost use Rattle.t1_lex.specs.Lexemes.{lexemes};
ghost use Rattle.t1_expr.specs.Symbols.{env_of};
ghost use Rattle.t1_expr.specs.Readings.{Gives};
ghost use Rattle.t1_operand.specs.Forms.{form_at, forms_at};

use crate::fields::Instruction;
use crate::slots::slots;
use std::alloc::Global;
use std::collections::BTreeMap;
use t1_expr::Stop;
use t1_form::form::{Form, Forms};
use t1_form::shapes::shape_slots;
use t1_lex::Token;

/// The operands of an instruction, by one form.
#[tactic(auto, unfolding(crate::specs::Forms::form_at))]
fn one_form(
    alloc: Global,
    symbols: &BTreeMap<&[u8], u64>,
    here: u64,
    form: Form,
    text: &[u8],
    tokens: &[Token],
) -> Result<Instruction, Stop>
    ensures { Gives (λ s. s) result (form_at (env_of symbols.now) here form (lexemes text.now tokens.now)) }
{
    let fields = slots(alloc, symbols, here, text, shape_slots(form.shape), tokens)?;
    Ok(Instruction {
        template: form.template,
        fields,
    })
}

/// The instruction of a mnemonic with these operands, by the first of its forms that they have.
///
/// # Errors
/// `Bad` where they have none of the forms; `Memory`.
#[tactic(auto, unfolding(crate::specs::Forms::forms_at))]
pub fn first_of(
    alloc: Global,
    symbols: &BTreeMap<&[u8], u64>,
    here: u64,
    forms: Forms,
    text: &[u8],
    tokens: &[Token],
) -> Result<Instruction, Stop>
    ensures { Gives (λ s. s) result (forms_at (env_of symbols.now) here forms (lexemes text.now tokens.now)) }
{
    match forms {
        Forms::One(form) => one_form(alloc, symbols, here, form, text, tokens),
        Forms::Two(first, second) => match one_form(alloc, symbols, here, first, text, tokens) {
            Ok(instruction) => Ok(instruction),
            Err(Stop::Memory) => Err(Stop::Memory),
            Err(Stop::Bad) => one_form(alloc, symbols, here, second, text, tokens),
        },
    }
}

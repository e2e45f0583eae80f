// Lines, and what they ask for.
ghost use Rattle.std.specs.Prelude.{ℕ, List, ◌≡◌, ◌≤◌, length, [], option_map, false, OnOk, IfOk, true, drop};
ghost use Rattle.t1_lex.specs.Lexemes.{bytes_at, lexemes};
ghost use Rattle.t1_lex.specs.Tokens.{lexemes_in, cut_of};
ghost use Rattle.t1_expr.specs.Symbols.{env_of};
ghost use Rattle.t1_expr.specs.Readings.{Gives};
ghost use Rattle.t1_stmt.specs.Faults.{Answers};
ghost use Rattle.t1_operand.specs.Slots.{whole};
ghost use Rattle.t1_operand.specs.Forms.{form_at, forms_at};
ghost use Rattle.t1_stmt.specs.Lines.{exprs_from, alone, escape_value, values_after, text_of, text_at, name_in, name_at, directive_at, is_known, all_known, instruction_at, statement_of, seen_body, behind_name, body_of, labels_of, GivesLexed};

use crate::fault::{Fault, Halt};
use crate::statement::{Body, Statement};
use std::alloc::{AllocError, Global};
use std::collections::BTreeMap;
use t1_elf::Listed;
use t1_expr::{Stop, bytes_of, expr, is_mark};
use t1_form::directive::Directive;
use t1_form::form::Forms;
use t1_form::mnemonics::forms_of;
use t1_form::names::{barrier, directive, known_percent};
use t1_lex::{LexError, Token, TokenKind, lex_into};
use t1_operand::forms::first_of;
use t1_operand::slots::mark;

#[tactic(auto, unfolding(crate::specs::Lines::instruction_at))]
fn instruction(
    alloc: Global,
    symbols: &BTreeMap<&[u8], u64>,
    here: u64,
    forms: Forms,
    text: &[u8],
    tokens: &[Token],
) -> Result<Statement, Stop>
    ensures { Gives (λ s. s) result (instruction_at (env_of symbols.now) here forms (lexemes text.now tokens.now)) }
{
    Ok(Statement::Insn(first_of(alloc, symbols, here, forms, text, tokens)?))
}

/// One or more exprs.
#[tactic(auto, using(crate::proofs::ExprLists::exprs_step), unfolding(crate::specs::Lines::exprs_after, crate::specs::Lines::more_exprs, t1_lex::specs::Lexemes::lexemes))]
fn exprs(
    alloc: Global,
    symbols: &BTreeMap<&[u8], u64>,
    here: u64,
    text: &[u8],
    tokens: &[Token],
) -> Result<Listed<Option<u64>>, Stop>
    ensures { Gives (λ v. v) result (exprs_from (length (lexemes text.now tokens.now)) [] (env_of symbols.now) here (lexemes text.now tokens.now)) }
{
    let mut values = Listed::new(alloc);
    let mut rest = tokens;
    let mut left = tokens.len();
    while left > 0 {
        left -= 1;
        let (value, after) = expr(alloc, symbols, here, text, rest)?;
        values.push(value)?;
        match after.split_first() {
            None => return Ok(values),
            Some((first, more)) => {
                if !is_mark(*first, b',') {
                    return Err(Stop::Bad);
                }
                rest = more;
            }
        }
    }
    Err(Stop::Bad)
}

#[tactic(auto, unfolding(t1_operand::specs::Slots::whole, t1_lex::specs::Lexemes::lexemes))]
fn end(found: Statement, text: &[u8], tokens: &[Token]) -> Result<Statement, Stop>
    ensures { Gives (λ i. i) result (whole found (lexemes text.now tokens.now)) }
{
    match tokens.split_first() {
        None => Ok(found),
        Some(_) => Err(Stop::Bad),
    }
}

#[tactic(auto, unfolding(t1_operand::specs::Slots::whole, t1_lex::specs::Lexemes::lexemes))]
fn end_value(value: Option<u64>, text: &[u8], tokens: &[Token]) -> Result<Option<u64>, Stop>
    ensures { Gives (λ i. i) result (whole value (lexemes text.now tokens.now)) }
{
    match tokens.split_first() {
        None => Ok(value),
        Some(_) => Err(Stop::Bad),
    }
}

/// One expr and nothing else.
#[tactic(auto, unfolding(crate::specs::Lines::alone))]
fn one_expr(
    alloc: Global,
    symbols: &BTreeMap<&[u8], u64>,
    here: u64,
    text: &[u8],
    tokens: &[Token],
) -> Result<Option<u64>, Stop>
    ensures { Gives (λ v. v) result (alone (env_of symbols.now) here (lexemes text.now tokens.now)) }
{
    let (value, rest) = expr(alloc, symbols, here, text, tokens)?;
    end_value(value, text, rest)
}

#[tactic(auto, unfolding(crate::specs::Lines::escape_value))]
fn escape(b: u8) -> u8
    ensures { result ≡ escape_value b }
{
    match b {
        b'n' => 10,
        b't' => 9,
        b'0' => 0,
        _ => b,
    }
}

/// The bytes of a text to its closing quote.
#[tactic(auto, unfolding(crate::specs::Lines::values_after))]
fn text_values(alloc: Global, quoted: &[u8]) -> Result<Listed<u8>, AllocError>
    ensures { IfOk result (λ bytes. bytes ≡ values_after [] false quoted.now) }
{
    let mut out = Listed::new(alloc);
    let mut rest = quoted;
    let mut escaped = false;
    loop {
        let Some((first, more)) = rest.split_first() else {
            return Ok(out);
        };
        if escaped {
            out.push(escape(*first))?;
            escaped = false;
        } else {
            if *first == b'"' {
                return Ok(out);
            }
            if *first == b'\\' {
                escaped = true;
            } else {
                out.push(*first)?;
            }
        }
        rest = more;
    }
}

#[tactic(auto, unfolding(crate::specs::Lines::text_of))]
fn text_bytes(alloc: Global, zero: bool, quoted: &[u8]) -> Result<Listed<u8>, AllocError>
    ensures { IfOk result (λ bytes. bytes ≡ text_of zero quoted.now) }
{
    let mut out = text_values(alloc, quoted.split_at(quoted.len().min(1)).1)?;
    if zero {
        out.push(0)?;
    }
    Ok(out)
}

#[tactic(auto, unfolding(crate::specs::Lines::text_at, crate::specs::Lines::text_in, t1_lex::specs::Lexemes::lexemes))]
fn text_operand(alloc: Global, zero: bool, text: &[u8], tokens: &[Token]) -> Result<Statement, Stop>
    ensures { Gives (λ a. a) result (text_at zero (lexemes text.now tokens.now)) }
{
    let Some((first, rest)) = tokens.split_first() else {
        return Err(Stop::Bad);
    };
    let TokenKind::Text = first.kind else {
        return Err(Stop::Bad);
    };
    let bytes = text_bytes(alloc, zero, bytes_of(text, *first))?;
    end(Statement::Text(bytes), text, rest)
}

/// A name; `.` is none.
#[tactic(auto, unfolding(crate::specs::Lines::name_in))]
fn name(text: &[u8], token: Token) -> Option<&[u8]>
    ensures { option_map (λ n. n.now) result ≡ name_in (token.kind, bytes_at text.now token) }
{
    match token.kind {
        TokenKind::Name => {
            let bytes = bytes_of(text, token);
            if bytes == b".".as_slice() {
                None
            } else {
                Some(bytes)
            }
        }
        _ => None,
    }
}

#[tactic(auto, unfolding(crate::specs::Lines::name_at, t1_lex::specs::Lexemes::lexemes))]
fn name_operand(text: &[u8], tokens: &[Token]) -> Result<Statement, Stop>
    ensures { Gives (λ a. a) result (name_at (lexemes text.now tokens.now)) }
{
    let Some((first, rest)) = tokens.split_first() else {
        return Err(Stop::Bad);
    };
    match name(text, *first) {
        None => Err(Stop::Bad),
        Some(_) => end(Statement::Nothing, text, rest),
    }
}

#[tactic(auto, unfolding(crate::specs::Lines::directive_at))]
fn directed(
    alloc: Global,
    symbols: &BTreeMap<&[u8], u64>,
    here: u64,
    directive: Directive,
    text: &[u8],
    tokens: &[Token],
) -> Result<Statement, Stop>
    ensures { Gives (λ a. a) result (directive_at (env_of symbols.now) here directive (lexemes text.now tokens.now)) }
{
    match directive {
        Directive::Org => Ok(Statement::Org(one_expr(alloc, symbols, here, text, tokens)?)),
        Directive::Skip => Ok(Statement::Skip(one_expr(alloc, symbols, here, text, tokens)?)),
        Directive::Align => Ok(Statement::Align(one_expr(alloc, symbols, here, text, tokens)?)),
        Directive::Numbers(width) => {
            let values = exprs(alloc, symbols, here, text, tokens)?;
            Ok(Statement::Numbers(width, values))
        }
        Directive::Text { zero } => text_operand(alloc, zero, text, tokens),
        Directive::Section => end(Statement::Nothing, text, tokens),
        Directive::Global => name_operand(text, tokens),
    }
}

fn known(text: &[u8], token: Token) -> bool
    ensures { result ≡ is_known (token.kind, bytes_at text.now token) }
{
    match token.kind {
        TokenKind::Percent => known_percent(bytes_of(text, token)),
        TokenKind::Hash => barrier(bytes_of(text, token)).is_some(),
        _ => true,
    }
}

#[tactic(auto, unfolding(crate::specs::Lines::all_known, t1_lex::specs::Lexemes::lexemes))]
fn known_names(text: &[u8], tokens: &[Token]) -> bool
    ensures { result ≡ all_known (lexemes text.now tokens.now) }
{
    let mut rest = tokens;
    loop {
        let Some((first, more)) = rest.split_first() else {
            return true;
        };
        if !known(text, *first) {
            return false;
        }
        rest = more;
    }
}

/// What a directive or an instruction asks for.
#[tactic(auto, unfolding(crate::specs::Lines::statement_of))]
fn read_statement(
    alloc: Global,
    symbols: &BTreeMap<&[u8], u64>,
    here: u64,
    name: &[u8],
    text: &[u8],
    tokens: &[Token],
) -> Result<Statement, Halt>
    ensures { Answers (λ a. a) result (statement_of (env_of symbols.now) here name.now (lexemes text.now tokens.now)) }
{
    if let Some(directive) = directive(name) {
        if !known_names(text, tokens) {
            return Err(Halt::Fault(Fault::UnknownName));
        }
        return match directed(alloc, symbols, here, directive, text, tokens) {
            Ok(found) => Ok(found),
            Err(Stop::Bad) => Err(Halt::Fault(Fault::BadOperand)),
            Err(Stop::Memory) => Err(Halt::Memory),
        };
    }
    let Some(forms) = forms_of(name) else {
        return Err(Halt::Fault(Fault::UnknownName));
    };
    if !known_names(text, tokens) {
        return Err(Halt::Fault(Fault::UnknownName));
    }
    match instruction(alloc, symbols, here, forms, text, tokens) {
        Ok(found) => Ok(found),
        Err(Stop::Bad) => Err(Halt::Fault(Fault::BadOperand)),
        Err(Stop::Memory) => Err(Halt::Memory),
    }
}

#[tactic(auto, unfolding(crate::specs::Lines::behind_name))]
fn after_name<'a>(
    alloc: Global,
    symbols: &BTreeMap<&[u8], u64>,
    here: u64,
    name: &'a [u8],
    text: &[u8],
    tokens: &[Token],
) -> Result<Body<'a>, Halt>
    ensures { Answers seen_body result (behind_name (env_of symbols.now) here name.now (lexemes text.now tokens.now)) }
{
    match mark(b'=', text, tokens) {
        Ok(rest) => match one_expr(alloc, symbols, here, text, rest) {
            Ok(value) => Ok(Body::Assigns(name, value)),
            Err(Stop::Bad) => Err(Halt::Fault(Fault::Syntax)),
            Err(Stop::Memory) => Err(Halt::Memory),
        },
        Err(Stop::Memory) => Err(Halt::Memory),
        Err(Stop::Bad) => Ok(Body::Holds(read_statement(
            alloc, symbols, here, name, text, tokens,
        )?)),
    }
}

/// What stands behind the labels of a line.
///
/// # Errors
/// The first of the faults Syntax, UnknownName and BadOperand; want of memory.
#[tactic(auto, unfolding(crate::specs::Lines::body_of, t1_lex::specs::Lexemes::lexemes))]
pub fn read_body<'a>(
    alloc: Global,
    symbols: &BTreeMap<&[u8], u64>,
    here: u64,
    text: &'a [u8],
    tokens: &[Token],
) -> Result<Body<'a>, Halt>
    ensures { Answers seen_body result (body_of (env_of symbols.now) here (lexemes text.now tokens.now)) }
{
    let Some((first, rest)) = tokens.split_first() else {
        return Ok(Body::Empty);
    };
    match name(text, *first) {
        None => Err(Halt::Fault(Fault::Syntax)),
        Some(name) => after_name(alloc, symbols, here, name, text, rest),
    }
}

/// What follows the labels of a line.
#[tactic(auto, unfolding(crate::specs::Lines::labels_of, t1_lex::specs::Lexemes::lexemes))]
pub fn after_labels<'a>(text: &[u8], tokens: &'a [Token]) -> &'a [Token]
    ensures { lexemes text.now result.now ≡ (labels_of (lexemes text.now tokens.now)).1 }
{
    let mut rest = tokens;
    loop {
        let Some((first, more)) = rest.split_first() else {
            return rest;
        };
        let Some((second, after)) = more.split_first() else {
            return rest;
        };
        let TokenKind::Name = first.kind else {
            return rest;
        };
        if bytes_of(text, *first) == b".".as_slice() || !is_mark(*second, b':') {
            return rest;
        }
        rest = after;
    }
}

/// Puts the tokens of a line into `tokens`.
pub fn lexed(tokens: &mut Vec<Token>, line: &[u8]) -> Result<(), Halt>
    requires { length line.now ≤ 67108864 }
    ensures { GivesLexed (λ done. tokens.new.items) line.now result (lexemes_in (cut_of line.now)) }
{
    match lex_into(tokens, line) {
        Ok(()) => Ok(()),
        Err(LexError::BadByte { at: _, line: _ }) => Err(Halt::Fault(Fault::Syntax)),
        Err(LexError::OutOfMemory) => Err(Halt::Memory),
    }
}

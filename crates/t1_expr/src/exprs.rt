// Expressions.
ghost use Rattle.std.specs.Prelude.{ℕ, List, ◌≡◌, ◌≤◌, ◌+◌, ◌-◌, ◌*◌, ◌^◌, ◌%◌, ◌/◌, [], ◌∷◌, length, IfOk, OnOk, IfSome, IfNone, Some, None, codes, MatchBool};
ghost use Rattle.std.specs.Option.{MatchOption};
ghost use Rattle.t1_lex.specs.Lexemes.{bytes_at, lexemes};
ghost use Rattle.t1_expr.specs.Symbols.{env_of};
ghost use Rattle.t1_expr.specs.Exprs.{sum_of, part_of, is_punct, atom_of, opener_of, closed, opened, step_of, ended, expr_at};
ghost use Rattle.t1_expr.specs.Readings.{Gives};

use crate::lexeme::bytes_of;
use crate::stop::Stop;
use crate::sum::{Mode, Open, Stack, Sum};
use crate::symbols::value_of;
use std::alloc::{AllocError, Global};
use std::collections::BTreeMap;
use t1_lex::{Token, TokenKind};

#[tactic(auto, unfolding(crate::specs::Exprs::sum_of))]
pub fn summed(minus: bool, a: Option<u64>, b: Option<u64>) -> Option<u64>
    ensures { result ≡ sum_of minus a b }
{
    let a = a?;
    let b = b?;
    if minus {
        Some(a.wrapping_sub(b))
    } else {
        Some(a.wrapping_add(b))
    }
}

#[tactic(auto, unfolding(crate::specs::Exprs::part_of))]
pub fn half(low: bool, value: Option<u64>) -> Option<u64>
    ensures { result ≡ part_of low value }
{
    let value = value?;
    if low {
        Some(value % (1 << 10))
    } else {
        Some((value >> 10) % (1 << 22))
    }
}

pub fn is_mark(token: Token, mark: u8) -> bool
    ensures { (bytes : List ℕ) → result ≡ is_punct mark (token.kind, bytes) }
{
    match token.kind {
        TokenKind::Punct(b) => b == mark,
        _ => false,
    }
}

/// Some(true) for `%lo`, Some(false) for `%hi`.
#[tactic(auto, unfolding(crate::specs::Exprs::opener_of))]
fn opener(text: &[u8], token: Token) -> Option<bool>
    ensures { result ≡ opener_of (token.kind, bytes_at text.now token) }
{
    match token.kind {
        TokenKind::Percent => {
            let name = bytes_of(text, token);
            if name == b"%lo".as_slice() {
                Some(true)
            } else if name == b"%hi".as_slice() {
                Some(false)
            } else {
                None
            }
        }
        _ => None,
    }
}

#[tactic(auto, unfolding(crate::specs::Exprs::atom_of))]
fn atom(symbols: &BTreeMap<&[u8], u64>, here: u64, text: &[u8], token: Token) -> Option<Option<u64>>
    ensures { result ≡ atom_of (env_of symbols.now) here (token.kind, bytes_at text.now token) }
{
    match token.kind {
        TokenKind::Number(n) => Some(Some(n)),
        TokenKind::Name => {
            let name = bytes_of(text, token);
            if name == b".".as_slice() {
                Some(Some(here))
            } else {
                Some(value_of(symbols, name))
            }
        }
        _ => None,
    }
}

#[tactic(auto, unfolding(crate::specs::Exprs::closed))]
fn close(sum: &mut Sum) -> bool
    ensures { MatchBool result (closed sum.old.outer sum.old.sum ≡ Some sum.new) ((closed sum.old.outer sum.old.sum ≡ None) × (sum.new ≡ sum.old)) }
{
    let Some(open) = sum.outer.pop() else {
        return false;
    };
    let value = half(open.low, sum.sum);
    sum.mode = Mode::More;
    sum.sum = summed(open.minus, open.sum, value);
    sum.minus = false;
    true
}

#[tactic(auto, unfolding(crate::specs::Exprs::opened, crate::specs::Exprs::atom_added))]
fn take_atom(
    sum: &mut Sum,
    opener: Option<bool>,
    atom: Option<Option<u64>>,
) -> Result<bool, AllocError>
    ensures { IfOk result (λ went. MatchBool went (opened sum.old opener atom ≡ Some sum.new) ((opened sum.old opener atom ≡ None) × (sum.new ≡ sum.old))) }
{
    if let Some(low) = opener {
        sum.outer.push(Open {
            sum: sum.sum,
            minus: sum.minus,
            low,
        })?;
        sum.mode = Mode::Paren;
        sum.sum = Some(0);
        sum.minus = false;
        return Ok(true);
    }
    let Some(value) = atom else {
        return Ok(false);
    };
    sum.mode = Mode::More;
    sum.sum = summed(sum.minus, sum.sum, value);
    sum.minus = false;
    Ok(true)
}

/// Goes on by one token, and says whether the expression has it.
#[tactic(auto, unfolding(crate::specs::Exprs::step_of))]
fn step(
    sum: &mut Sum,
    symbols: &BTreeMap<&[u8], u64>,
    here: u64,
    text: &[u8],
    token: Token,
) -> Result<bool, AllocError>
    ensures { IfOk result (λ went. MatchBool went
        (step_of (env_of symbols.now) here sum.old.mode sum.old (token.kind, bytes_at text.now token) ≡ Some sum.new)
        ((step_of (env_of symbols.now) here sum.old.mode sum.old (token.kind, bytes_at text.now token) ≡ None) × (sum.new ≡ sum.old))) }
{
    match sum.mode {
        Mode::Start => {
            if is_mark(token, b'-') {
                sum.mode = Mode::Atom;
                sum.minus = true;
                return Ok(true);
            }
            take_atom(sum, opener(text, token), atom(symbols, here, text, token))
        }
        Mode::Atom => take_atom(sum, opener(text, token), atom(symbols, here, text, token)),
        Mode::Paren => {
            if is_mark(token, b'(') {
                sum.mode = Mode::Start;
                return Ok(true);
            }
            Ok(false)
        }
        Mode::More => {
            if is_mark(token, b'+') {
                sum.mode = Mode::Atom;
                sum.minus = false;
                return Ok(true);
            }
            if is_mark(token, b'-') {
                sum.mode = Mode::Atom;
                sum.minus = true;
                return Ok(true);
            }
            if is_mark(token, b')') {
                return Ok(close(sum));
            }
            Ok(false)
        }
    }
}

#[tactic(auto, unfolding(crate::specs::Exprs::ended))]
fn end<'a>(
    sum: &mut Sum,
    text: &[u8],
    rest: &'a [Token],
) -> Result<(Option<u64>, &'a [Token]), Stop>
    ensures { Gives (λ p. (p.0, lexemes text.now p.1.now)) result (ended sum.old.mode sum.old.outer sum.old.sum (lexemes text.now rest.now)) }
{
    match (sum.mode, sum.outer.pop()) {
        (Mode::More, None) => Ok((sum.sum, rest)),
        _ => Err(Stop::Bad),
    }
}

/// The value of the longest expression at the front, and what stands behind it.
#[tactic(auto, unfolding(crate::specs::Exprs::expr_at, crate::specs::Exprs::sum_from, t1_lex::specs::Lexemes::lexemes))]
pub fn expr<'a>(
    alloc: Global,
    symbols: &BTreeMap<&[u8], u64>,
    here: u64,
    text: &[u8],
    tokens: &'a [Token],
) -> Result<(Option<u64>, &'a [Token]), Stop>
    ensures { Gives (λ p. (p.0, lexemes text.now p.1.now)) result (expr_at (env_of symbols.now) here (lexemes text.now tokens.now)) }
{
    let mut sum = Sum {
        mode: Mode::Start,
        outer: Stack::new(alloc),
        sum: Some(0),
        minus: false,
    };
    let mut at = 0;
    while at < tokens.len() {
        if !step(&mut sum, symbols, here, text, tokens[at])? {
            return end(&mut sum, text, tokens.split_at(at).1);
        }
        at += 1;
    }
    end(&mut sum, text, tokens.split_at(at).1)
}

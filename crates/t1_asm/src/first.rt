// The first pass: locations and names.
ghost use Rattle.std.specs.Prelude.{◌≡◌, ◌≤◌, ◌^◌, length, IfOk, MatchBool, Some, None};
ghost use Rattle.t1_lex.specs.Lexemes.{lexemes};
ghost use Rattle.t1_expr.specs.Symbols.{env_of};
ghost use Rattle.t1_stmt.specs.Faults.{Answers};
ghost use Rattle.t1_stmt.specs.Lines.{labels_of, seen_body, lines_of};
ghost use Rattle.t1_asm.specs.Passes.{labelled, assigned_in, entry_after, state_of, state_from, first_step, pass, Ends};

use crate::failure::Failure;
use crate::layout::{early, outside, size, start};
use std::alloc::{AllocError, Global};
use std::collections::BTreeMap;
use t1_expr::{bytes_of, define, is_mark, value_of};
use t1_lex::{Token, TokenKind, line_run};
use t1_stmt::fault::{Fault, Halt};
use t1_stmt::line::{after_labels, lexed, read_body};
use t1_stmt::statement::Body;

/// Where the next byte goes, the bytes so far, and the label `_start`.
#[derive(Clone, Copy, Drop)]
pub struct Pass {
    pub here: u64,
    pub total: u64,
    pub entry: Option<u64>,
}

/// Defines the labels at the front, and says whether each was new.
#[tactic(auto, unfolding(crate::specs::Passes::labelled, t1_stmt::specs::Lines::labels_of, t1_lex::specs::Lexemes::lexemes))]
fn define_labels<'a>(
    map: &mut BTreeMap<&'a [u8], u64>,
    here: u64,
    text: &'a [u8],
    tokens: &[Token],
) -> Result<bool, AllocError>
    ensures { IfOk result (λ fresh. MatchBool fresh
        (labelled (env_of map.old) here (labels_of (lexemes text.now tokens.now)).0 ≡ Some (env_of map.new))
        (labelled (env_of map.old) here (labels_of (lexemes text.now tokens.now)).0 ≡ None)) }
{
    let mut rest = tokens;
    loop {
        let Some((first, more)) = rest.split_first() else {
            return Ok(true);
        };
        let Some((second, after)) = more.split_first() else {
            return Ok(true);
        };
        let TokenKind::Name = first.kind else {
            return Ok(true);
        };
        let name = bytes_of(text, *first);
        if name == b".".as_slice() || !is_mark(*second, b':') {
            return Ok(true);
        }
        let earlier = value_of(map, name);
        if earlier.is_some() {
            return Ok(false);
        }
        define(map, name, here)?;
        rest = after;
    }
}

/// The entry after the labels at the front.
#[tactic(auto, unfolding(crate::specs::Passes::entry_after, t1_stmt::specs::Lines::labels_of, t1_lex::specs::Lexemes::lexemes))]
fn entry(old: Option<u64>, here: u64, text: &[u8], tokens: &[Token]) -> Option<u64>
    ensures { result ≡ entry_after old here (labels_of (lexemes text.now tokens.now)).0 }
{
    let mut found = old;
    let mut rest = tokens;
    loop {
        let Some((first, more)) = rest.split_first() else {
            return found;
        };
        let Some((second, after)) = more.split_first() else {
            return found;
        };
        let TokenKind::Name = first.kind else {
            return found;
        };
        let name = bytes_of(text, *first);
        if name == b".".as_slice() || !is_mark(*second, b':') {
            return found;
        }
        if name == b"_start".as_slice() {
            found = Some(here);
        }
        rest = after;
    }
}

/// Defines the name that a line assigns, and says whether it was new.
#[tactic(auto, unfolding(crate::specs::Passes::assigned_in))]
fn assign<'a>(map: &mut BTreeMap<&'a [u8], u64>, body: &Body<'a>) -> Result<bool, AllocError>
    ensures { IfOk result (λ fresh. MatchBool fresh
        (assigned_in (env_of map.old) (seen_body body.now) ≡ Some (env_of map.new))
        (assigned_in (env_of map.old) (seen_body body.now) ≡ None)) }
{
    match body {
        Body::Assigns(name, v) => {
            if value_of(map, name).is_some() {
                return Ok(false);
            }
            define(map, name, v.unwrap_or(0))?;
            Ok(true)
        }
        _ => Ok(true),
    }
}

/// What a line leads to.
#[tactic(auto, using(crate::proofs::Places::stays), unfolding(crate::specs::Passes::first_step, crate::specs::Passes::placed, crate::specs::Passes::named_by, t1_stmt::specs::Lines::line_of, t1_stmt::specs::Lines::read_words))]
fn first_line<'a>(
    alloc: Global,
    tokens: &mut Vec<Token>,
    number: u32,
    pass: Pass,
    map: &mut BTreeMap<&'a [u8], u64>,
    line: &'a [u8],
) -> Result<Pass, Halt>
    requires line { length line.now ≤ 67108864 }
    requires total { pass.total ≤ 16777216 }
    requires here { pass.here ≤ 2 ^ 39 }
    ensures value { Answers (λ p. state_of p map.new) result (first_step number (state_of pass map.old) line.now) }
    ensures total { IfOk result (λ p. p.total ≤ 16777216) }
    ensures here { IfOk result (λ p. p.here ≤ 2 ^ 39) }
    ensures number { IfOk result (λ p. number ≤ 65536) }
{
    if number > 65536 {
        return Err(Halt::Fault(Fault::TooLong));
    }
    lexed(tokens, line)?;
    let tokens = tokens.as_slice();
    let body = read_body(alloc, map, pass.here, line, after_labels(line, tokens))?;
    let Some(size) = size(pass.here, &body) else {
        return Err(Halt::Fault(Fault::TooLong));
    };
    if pass.total + size > 16777216 {
        return Err(Halt::Fault(Fault::TooLong));
    }
    if !define_labels(map, pass.here, line, tokens)? {
        return Err(Halt::Fault(Fault::DuplicateLabel));
    }
    if !assign(map, &body)? {
        return Err(Halt::Fault(Fault::DuplicateLabel));
    }
    if early(&body).is_none() {
        return Err(Halt::Fault(Fault::MissingLabel));
    }
    if outside(pass.here, size, &body) {
        return Err(Halt::Fault(Fault::OutOfRange));
    }
    Ok(Pass {
        here: start(pass.here, &body) + size,
        total: pass.total + size,
        entry: entry(pass.entry, pass.here, line, tokens),
    })
}

/// The locations and names of all lines, or the first line at fault.
pub fn first_pass<'a>(
    alloc: Global,
    map: &mut BTreeMap<&'a [u8], u64>,
    text: &'a [u8],
) -> Result<Pass, Failure>
    requires { length text.now ≤ 67108864 }
    ensures { Ends (λ p. state_of p map.new) result (pass first_step 1 (state_from (env_of map.old)) (lines_of text.now)) }
{
    let mut state = Pass {
        here: 0,
        total: 0,
        entry: None,
    };
    let mut tokens = Vec::new(alloc);
    let mut rest = text;
    let mut number = 1u32;
    while rest.len() > 0 {
        let (line, more) = rest.split_at(line_run(rest));
        match first_line(alloc, &mut tokens, number, state, map, line) {
            Ok(next) => state = next,
            Err(halt) => return Err(Failure { line: number, halt }),
        }
        number += 1;
        rest = more.split_at(more.len().min(1)).1;
    }
    Ok(state)
}

// The operands of forms, slot by slot.
ghost use Rattle.std.specs.Prelude.{ℕ, List, ◌≡◌, ◌<◌, IfOk, IfSome, option_map, true, codes};
ghost use Rattle.t1_lex.specs.Lexemes.{bytes_at, lexemes};
ghost use Rattle.t1_expr.specs.Symbols.{env_of};
ghost use Rattle.t1_expr.specs.Readings.{Gives};
ghost use Rattle.t1_form.specs.Names.{named};
ghost use Rattle.t1_operand.specs.Slots.{mark_at, register_in, register_at, whole, source_at, minus_at, plus_at, rest_of_address, rest_of_offset, plus_register, rest_of_pair, address_at, offset_at, pair_at, within_or, is_percent, is_name, codes_at, asi_at, flag_at, state_in, privileged_in, state_at, privileged_at, barrier_in, barriers_from, none_given, with_rd, with_rs1, with_source, with_place, with_value, with_extra, with_number, with_annul, with_taken, with_wide, annulled, not_taken, predicted, slot_at, slots_at};
ghost use Rattle.t1_form.specs.Shapes.{slots_of};

use crate::fields::{Fields, Source};
use std::alloc::Global;
use std::collections::BTreeMap;
use t1_expr::{Stop, bytes_of, expr, is_mark, summed};
use t1_form::names::{barrier, privileged, register, state};
use t1_form::slot::Slot;
use t1_lex::{Token, TokenKind};

/// Behind a mark.
#[tactic(auto, unfolding(crate::specs::Slots::mark_at, t1_lex::specs::Lexemes::lexemes))]
pub fn mark<'a>(b: u8, text: &[u8], tokens: &'a [Token]) -> Result<&'a [Token], Stop>
    ensures { Gives (λ p. lexemes text.now p.now) result (mark_at b (lexemes text.now tokens.now)) }
{
    let Some((first, rest)) = tokens.split_first() else {
        return Err(Stop::Bad);
    };
    if is_mark(*first, b) {
        Ok(rest)
    } else {
        Err(Stop::Bad)
    }
}

#[tactic(auto, unfolding(crate::specs::Slots::register_in))]
fn register_token(text: &[u8], token: Token) -> Option<u8>
    ensures value { result ≡ register_in (token.kind, bytes_at text.now token) }
{
    match token.kind {
        TokenKind::Percent => register(bytes_of(text, token)),
        _ => None,
    }
}

/// A register, and what stands behind it.
#[tactic(auto, unfolding(crate::specs::Slots::register_at, t1_lex::specs::Lexemes::lexemes))]
pub fn reg<'a>(text: &[u8], tokens: &'a [Token]) -> Result<(u8, &'a [Token]), Stop>
    ensures value { Gives (λ p. (p.0, lexemes text.now p.1.now)) result (register_at (lexemes text.now tokens.now)) }
{
    let Some((first, rest)) = tokens.split_first() else {
        return Err(Stop::Bad);
    };
    match register_token(text, *first) {
        Some(r) => Ok((r, rest)),
        None => Err(Stop::Bad),
    }
}

/// A register or an expr.
#[tactic(auto, unfolding(crate::specs::Slots::source_at, crate::specs::Slots::source_or))]
fn source<'a>(
    alloc: Global,
    symbols: &BTreeMap<&[u8], u64>,
    here: u64,
    text: &[u8],
    tokens: &'a [Token],
) -> Result<(Source, &'a [Token]), Stop>
    ensures { Gives (λ p. (p.0, lexemes text.now p.1.now)) result (source_at (env_of symbols.now) here (lexemes text.now tokens.now)) }
{
    match reg(text, tokens) {
        Ok((r, rest)) => Ok((Source::Register(r), rest)),
        Err(Stop::Memory) => Err(Stop::Memory),
        Err(Stop::Bad) => {
            let (value, rest) = expr(alloc, symbols, here, text, tokens)?;
            Ok((Source::Value(value), rest))
        }
    }
}

#[tactic(auto, unfolding(crate::specs::Slots::whole, t1_lex::specs::Lexemes::lexemes))]
fn end(fields: Fields, text: &[u8], tokens: &[Token]) -> Result<Fields, Stop>
    ensures { Gives (λ i. i) result (whole fields (lexemes text.now tokens.now)) }
{
    match tokens.split_first() {
        None => Ok(fields),
        Some(_) => Err(Stop::Bad),
    }
}

/// An offset that is subtracted.
#[tactic(auto, unfolding(crate::specs::Slots::minus_at))]
fn minus<'a>(
    alloc: Global,
    symbols: &BTreeMap<&[u8], u64>,
    here: u64,
    text: &[u8],
    tokens: &'a [Token],
) -> Result<(Source, &'a [Token]), Stop>
    ensures { Gives (λ p. (p.0, lexemes text.now p.1.now)) result (minus_at (env_of symbols.now) here (lexemes text.now tokens.now)) }
{
    let (value, rest) = expr(alloc, symbols, here, text, tokens)?;
    Ok((Source::Value(summed(true, Some(0), value)), rest))
}

/// An offset that is an expr.
#[tactic(auto, unfolding(crate::specs::Slots::plus_at))]
fn plus<'a>(
    alloc: Global,
    symbols: &BTreeMap<&[u8], u64>,
    here: u64,
    text: &[u8],
    tokens: &'a [Token],
) -> Result<(Source, &'a [Token]), Stop>
    ensures { Gives (λ p. (p.0, lexemes text.now p.1.now)) result (plus_at (env_of symbols.now) here (lexemes text.now tokens.now)) }
{
    let (value, rest) = expr(alloc, symbols, here, text, tokens)?;
    Ok((Source::Value(value), rest))
}

/// What stands behind the register of an address.
#[tactic(auto, unfolding(crate::specs::Slots::rest_of_address, t1_lex::specs::Lexemes::lexemes))]
fn rest_of_place<'a>(
    alloc: Global,
    symbols: &BTreeMap<&[u8], u64>,
    here: u64,
    text: &[u8],
    tokens: &'a [Token],
) -> Result<(Source, &'a [Token]), Stop>
    ensures { Gives (λ p. (p.0, lexemes text.now p.1.now)) result (rest_of_address (env_of symbols.now) here (lexemes text.now tokens.now)) }
{
    let Some((first, rest)) = tokens.split_first() else {
        return Ok((Source::Register(0), tokens));
    };
    if is_mark(*first, b'+') {
        return source(alloc, symbols, here, text, rest);
    }
    if is_mark(*first, b'-') {
        return minus(alloc, symbols, here, text, rest);
    }
    Ok((Source::Register(0), tokens))
}

/// What stands behind the register of an offset.
#[tactic(auto, unfolding(crate::specs::Slots::rest_of_offset, t1_lex::specs::Lexemes::lexemes))]
fn rest_of_sum<'a>(
    alloc: Global,
    symbols: &BTreeMap<&[u8], u64>,
    here: u64,
    text: &[u8],
    tokens: &'a [Token],
) -> Result<(Source, &'a [Token]), Stop>
    ensures { Gives (λ p. (p.0, lexemes text.now p.1.now)) result (rest_of_offset (env_of symbols.now) here (lexemes text.now tokens.now)) }
{
    let Some((first, rest)) = tokens.split_first() else {
        return Ok((Source::Value(Some(0)), tokens));
    };
    if is_mark(*first, b'+') {
        return plus(alloc, symbols, here, text, rest);
    }
    if is_mark(*first, b'-') {
        return minus(alloc, symbols, here, text, rest);
    }
    Ok((Source::Value(Some(0)), tokens))
}

#[tactic(auto, unfolding(crate::specs::Slots::plus_register))]
fn second<'a>(text: &[u8], tokens: &'a [Token]) -> Result<(Source, &'a [Token]), Stop>
    ensures { Gives (λ p. (p.0, lexemes text.now p.1.now)) result (plus_register (lexemes text.now tokens.now)) }
{
    let (r, rest) = reg(text, tokens)?;
    Ok((Source::Register(r), rest))
}

/// What stands behind the first of two registers.
#[tactic(auto, unfolding(crate::specs::Slots::rest_of_pair, t1_lex::specs::Lexemes::lexemes))]
fn rest_of_two<'a>(text: &[u8], tokens: &'a [Token]) -> Result<(Source, &'a [Token]), Stop>
    ensures { Gives (λ p. (p.0, lexemes text.now p.1.now)) result (rest_of_pair (lexemes text.now tokens.now)) }
{
    let Some((first, rest)) = tokens.split_first() else {
        return Ok((Source::Register(0), tokens));
    };
    if is_mark(*first, b'+') {
        return second(text, rest);
    }
    Ok((Source::Register(0), tokens))
}

#[tactic(auto, unfolding(crate::specs::Slots::address_at))]
fn address<'a>(
    alloc: Global,
    symbols: &BTreeMap<&[u8], u64>,
    here: u64,
    text: &[u8],
    tokens: &'a [Token],
) -> Result<(u8, Source, &'a [Token]), Stop>
    ensures { Gives (λ p. (p.0, p.1, lexemes text.now p.2.now)) result (address_at (env_of symbols.now) here (lexemes text.now tokens.now)) }
{
    let (r, rest) = reg(text, tokens)?;
    let (source, rest) = rest_of_place(alloc, symbols, here, text, rest)?;
    Ok((r, source, rest))
}

#[tactic(auto, unfolding(crate::specs::Slots::offset_at))]
fn offset<'a>(
    alloc: Global,
    symbols: &BTreeMap<&[u8], u64>,
    here: u64,
    text: &[u8],
    tokens: &'a [Token],
) -> Result<(u8, Source, &'a [Token]), Stop>
    ensures { Gives (λ p. (p.0, p.1, lexemes text.now p.2.now)) result (offset_at (env_of symbols.now) here (lexemes text.now tokens.now)) }
{
    let (r, rest) = reg(text, tokens)?;
    let (source, rest) = rest_of_sum(alloc, symbols, here, text, rest)?;
    Ok((r, source, rest))
}

#[tactic(auto, unfolding(crate::specs::Slots::pair_at))]
fn pair<'a>(text: &[u8], tokens: &'a [Token]) -> Result<(u8, Source, &'a [Token]), Stop>
    ensures { Gives (λ p. (p.0, p.1, lexemes text.now p.2.now)) result (pair_at (lexemes text.now tokens.now)) }
{
    let (r, rest) = reg(text, tokens)?;
    let (source, rest) = rest_of_two(text, rest)?;
    Ok((r, source, rest))
}

#[tactic(auto, unfolding(crate::specs::Slots::within_or))]
fn within<'a>(
    alloc: Global,
    symbols: &BTreeMap<&[u8], u64>,
    here: u64,
    text: &[u8],
    tokens: &'a [Token],
) -> Result<(u8, Source, &'a [Token]), Stop>
    ensures { Gives (λ p. (p.0, p.1, lexemes text.now p.2.now)) result (within_or (env_of symbols.now) here (lexemes text.now tokens.now) (register_at (lexemes text.now tokens.now))) }
{
    match reg(text, tokens) {
        Ok((r, rest)) => {
            let (source, rest) = rest_of_place(alloc, symbols, here, text, rest)?;
            Ok((r, source, rest))
        }
        Err(Stop::Memory) => Err(Stop::Memory),
        Err(Stop::Bad) => {
            let (value, rest) = expr(alloc, symbols, here, text, tokens)?;
            Ok((0, Source::Value(value), rest))
        }
    }
}

fn percent(name: &[u8], text: &[u8], token: Token) -> bool
    ensures { result ≡ is_percent name.now (token.kind, bytes_at text.now token) }
{
    match token.kind {
        TokenKind::Percent => bytes_of(text, token) == name,
        _ => false,
    }
}

fn plain_name(name: &[u8], text: &[u8], token: Token) -> bool
    ensures { result ≡ is_name name.now (token.kind, bytes_at text.now token) }
{
    match token.kind {
        TokenKind::Name => bytes_of(text, token) == name,
        _ => false,
    }
}

#[tactic(auto, unfolding(crate::specs::Slots::codes_at, t1_lex::specs::Lexemes::lexemes))]
fn condition_codes<'a>(text: &[u8], tokens: &'a [Token]) -> Result<(bool, &'a [Token]), Stop>
    ensures { Gives (λ p. (p.0, lexemes text.now p.1.now)) result (codes_at (lexemes text.now tokens.now)) }
{
    let Some((first, rest)) = tokens.split_first() else {
        return Err(Stop::Bad);
    };
    if percent(b"%icc", text, *first) {
        return Ok((false, rest));
    }
    if percent(b"%xcc", text, *first) {
        return Ok((true, rest));
    }
    Err(Stop::Bad)
}

#[tactic(auto, unfolding(crate::specs::Slots::asi_at, t1_lex::specs::Lexemes::lexemes))]
fn asi<'a>(text: &[u8], tokens: &'a [Token]) -> Result<&'a [Token], Stop>
    ensures { Gives (λ p. lexemes text.now p.now) result (asi_at (lexemes text.now tokens.now)) }
{
    let Some((first, rest)) = tokens.split_first() else {
        return Err(Stop::Bad);
    };
    if percent(b"%asi", text, *first) {
        Ok(rest)
    } else {
        Err(Stop::Bad)
    }
}

/// What stands behind a comma and this name, where they stand there.
#[tactic(auto, unfolding(crate::specs::Slots::flag_at, t1_lex::specs::Lexemes::lexemes))]
fn flag<'a>(name: &[u8], text: &[u8], tokens: &'a [Token]) -> Option<&'a [Token]>
    ensures { option_map (λ p. lexemes text.now p.now) result ≡ flag_at name.now (lexemes text.now tokens.now) }
{
    let Some((first, more)) = tokens.split_first() else {
        return None;
    };
    let Some((second, rest)) = more.split_first() else {
        return None;
    };
    if is_mark(*first, b',') && plain_name(name, text, *second) {
        Some(rest)
    } else {
        None
    }
}

#[tactic(auto, unfolding(crate::specs::Slots::state_in))]
fn state_token(text: &[u8], token: Token) -> Option<u8>
    ensures { result ≡ state_in (token.kind, bytes_at text.now token) }
{
    match token.kind {
        TokenKind::Percent => state(bytes_of(text, token)),
        _ => None,
    }
}

#[tactic(auto, unfolding(crate::specs::Slots::privileged_in))]
fn privileged_token(text: &[u8], token: Token) -> Option<u8>
    ensures { result ≡ privileged_in (token.kind, bytes_at text.now token) }
{
    match token.kind {
        TokenKind::Percent => privileged(bytes_of(text, token)),
        _ => None,
    }
}

#[tactic(auto, unfolding(crate::specs::Slots::state_at, t1_lex::specs::Lexemes::lexemes))]
fn state_register<'a>(text: &[u8], tokens: &'a [Token]) -> Result<(u8, &'a [Token]), Stop>
    ensures { Gives (λ p. (p.0, lexemes text.now p.1.now)) result (state_at (lexemes text.now tokens.now)) }
{
    let Some((first, rest)) = tokens.split_first() else {
        return Err(Stop::Bad);
    };
    match state_token(text, *first) {
        Some(r) => Ok((r, rest)),
        None => Err(Stop::Bad),
    }
}

#[tactic(auto, unfolding(crate::specs::Slots::privileged_at, t1_lex::specs::Lexemes::lexemes))]
fn privileged_register<'a>(text: &[u8], tokens: &'a [Token]) -> Result<(u8, &'a [Token]), Stop>
    ensures { Gives (λ p. (p.0, lexemes text.now p.1.now)) result (privileged_at (lexemes text.now tokens.now)) }
{
    let Some((first, rest)) = tokens.split_first() else {
        return Err(Stop::Bad);
    };
    match privileged_token(text, *first) {
        Some(r) => Ok((r, rest)),
        None => Err(Stop::Bad),
    }
}

#[tactic(auto, unfolding(crate::specs::Slots::barrier_in))]
fn barrier_token(text: &[u8], token: Token) -> Option<u8>
    ensures { result ≡ barrier_in (token.kind, bytes_at text.now token) }
{
    match token.kind {
        TokenKind::Hash => barrier(bytes_of(text, token)),
        _ => None,
    }
}

/// The mask of `#` names to the end, with `|` between them.
#[tactic(auto, unfolding(crate::specs::Slots::barriers_from, t1_lex::specs::Lexemes::lexemes))]
fn barriers(text: &[u8], tokens: &[Token]) -> Result<u64, Stop>
    ensures { Gives (λ n. n) result (barriers_from 0 true (lexemes text.now tokens.now)) }
{
    let mut mask = 0u64;
    let mut wanted = true;
    let mut rest = tokens;
    loop {
        let Some((first, more)) = rest.split_first() else {
            return if wanted { Err(Stop::Bad) } else { Ok(mask) };
        };
        if wanted {
            let Some(n) = barrier_token(text, *first) else {
                return Err(Stop::Bad);
            };
            mask |= n as u64;
            wanted = false;
        } else {
            if !is_mark(*first, b'|') {
                return Err(Stop::Bad);
            }
            wanted = true;
        }
        rest = more;
    }
}

fn annul<'a>(fields: Fields, text: &[u8], tokens: &'a [Token]) -> (Fields, &'a [Token])
    ensures { (result.0, lexemes text.now result.1.now) ≡ annulled fields (lexemes text.now tokens.now) (flag_at (codes "a") (lexemes text.now tokens.now)) }
{
    match flag(b"a", text, tokens) {
        Some(rest) => (
            Fields {
                annul: true,
                ..fields
            },
            rest,
        ),
        None => (fields, tokens),
    }
}

fn predict<'a>(fields: Fields, text: &[u8], tokens: &'a [Token]) -> (Fields, &'a [Token])
    ensures { (result.0, lexemes text.now result.1.now) ≡ predicted fields (lexemes text.now tokens.now) (flag_at (codes "pt") (lexemes text.now tokens.now)) }
{
    if let Some(rest) = flag(b"pt", text, tokens) {
        return (fields, rest);
    }
    match flag(b"pn", text, tokens) {
        Some(rest) => (
            Fields {
                taken: false,
                ..fields
            },
            rest,
        ),
        None => (fields, tokens),
    }
}

/// The fields with what a slot says, and what stands behind it.
#[tactic(auto, unfolding(crate::specs::Slots::slot_at, t1_lex::specs::Lexemes::lexemes))]
fn slot<'a>(
    alloc: Global,
    symbols: &BTreeMap<&[u8], u64>,
    here: u64,
    text: &[u8],
    slot: Slot,
    fields: Fields,
    tokens: &'a [Token],
) -> Result<(Fields, &'a [Token]), Stop>
    ensures { Gives (λ p. (p.0, lexemes text.now p.1.now)) result (slot_at (env_of symbols.now) here slot fields (lexemes text.now tokens.now)) }
{
    match slot {
        Slot::Mark(b) => Ok((fields, mark(b, text, tokens)?)),
        Slot::Rd => {
            let (r, rest) = reg(text, tokens)?;
            Ok((Fields { rd: r, ..fields }, rest))
        }
        Slot::Rs1 => {
            let (r, rest) = reg(text, tokens)?;
            Ok((Fields { rs1: r, ..fields }, rest))
        }
        Slot::Both => {
            let (r, rest) = reg(text, tokens)?;
            Ok((
                Fields {
                    rd: r,
                    rs1: r,
                    ..fields
                },
                rest,
            ))
        }
        Slot::Rs2 => {
            let (r, rest) = reg(text, tokens)?;
            Ok((
                Fields {
                    source: Source::Register(r),
                    ..fields
                },
                rest,
            ))
        }
        Slot::Rs2Rd => {
            let (r, rest) = reg(text, tokens)?;
            Ok((
                Fields {
                    rd: r,
                    source: Source::Register(r),
                    ..fields
                },
                rest,
            ))
        }
        Slot::Operand => {
            let (source, rest) = source(alloc, symbols, here, text, tokens)?;
            Ok((Fields { source, ..fields }, rest))
        }
        Slot::Number | Slot::Target | Slot::AsiNumber => {
            let (value, rest) = expr(alloc, symbols, here, text, tokens)?;
            Ok((Fields { value, ..fields }, rest))
        }
        Slot::Extra => {
            let (value, rest) = expr(alloc, symbols, here, text, tokens)?;
            Ok((
                Fields {
                    extra: value,
                    ..fields
                },
                rest,
            ))
        }
        Slot::Address => {
            let (rs1, source, rest) = address(alloc, symbols, here, text, tokens)?;
            Ok((
                Fields {
                    rs1,
                    source,
                    ..fields
                },
                rest,
            ))
        }
        Slot::Within => {
            let (rs1, source, rest) = within(alloc, symbols, here, text, tokens)?;
            Ok((
                Fields {
                    rs1,
                    source,
                    ..fields
                },
                rest,
            ))
        }
        Slot::Offset => {
            let (rs1, source, rest) = offset(alloc, symbols, here, text, tokens)?;
            Ok((
                Fields {
                    rs1,
                    source,
                    ..fields
                },
                rest,
            ))
        }
        Slot::Pair => {
            let (rs1, source, rest) = pair(text, tokens)?;
            Ok((
                Fields {
                    rs1,
                    source,
                    ..fields
                },
                rest,
            ))
        }
        Slot::Codes => {
            let (wide, rest) = condition_codes(text, tokens)?;
            Ok((Fields { wide, ..fields }, rest))
        }
        Slot::Annul => Ok(annul(fields, text, tokens)),
        Slot::Predict => Ok(predict(fields, text, tokens)),
        Slot::Asi => Ok((fields, asi(text, tokens)?)),
        Slot::State => {
            let (number, rest) = state_register(text, tokens)?;
            Ok((Fields { number, ..fields }, rest))
        }
        Slot::Privileged => {
            let (number, rest) = privileged_register(text, tokens)?;
            Ok((Fields { number, ..fields }, rest))
        }
        Slot::Barrier => {
            let mask = barriers(text, tokens)?;
            Ok((
                Fields {
                    value: Some(mask),
                    ..fields
                },
                tokens.split_at(tokens.len()).1,
            ))
        }
        Slot::One => Ok((
            Fields {
                source: Source::Value(Some(1)),
                ..fields
            },
            tokens,
        )),
        Slot::Primary => Ok((
            Fields {
                value: Some(0x80),
                ..fields
            },
            tokens,
        )),
    }
}

/// The fields with what the slots say, one after another to the end.
#[tactic(auto, unfolding(crate::specs::Slots::slots_at))]
pub fn slots(
    alloc: Global,
    symbols: &BTreeMap<&[u8], u64>,
    here: u64,
    text: &[u8],
    wanted: &[Slot],
    tokens: &[Token],
) -> Result<Fields, Stop>
    ensures { Gives (λ f. f) result (slots_at (env_of symbols.now) here wanted.now none_given (lexemes text.now tokens.now)) }
{
    let mut left = wanted;
    let mut rest = tokens;
    let mut fields = Fields {
        rd: 0,
        rs1: 0,
        source: Source::Register(0),
        value: Some(0),
        extra: Some(0),
        number: 0,
        annul: false,
        taken: true,
        wide: false,
    };
    loop {
        let Some((first, more)) = left.split_first() else {
            return end(fields, text, rest);
        };
        let (next, after) = slot(alloc, symbols, here, text, *first, fields, rest)?;
        fields = next;
        rest = after;
        left = more;
    }
}

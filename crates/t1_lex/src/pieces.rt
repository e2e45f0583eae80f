// Tokens, blanks and comments at the front of a text.
ghost use Rattle.std.specs.Prelude.{◌≡◌, ◌≤◌, ◌<◌, ◌+◌, ◌^◌, false, length, IfSome, Some, None};
ghost use Rattle.t1_lex.specs.Bytes.{is_name_byte, is_word_byte, is_in_line};
ghost use Rattle.t1_lex.specs.Pieces.{run_of, value_from, after_zero, number_of, text_from, number_piece, named_piece, text_piece, piece_of};

use crate::bytes::{blank, digit, escape, mark, name_byte, name_start, value_of_digit, word_byte};
use crate::token::TokenKind;

#[tactic(auto, unfolding(crate::specs::Pieces::run_of))]
fn name_run(bytes: &[u8]) -> usize
    ensures value { result ≡ run_of is_name_byte bytes.now }
    ensures within { result ≤ length bytes.now }
{
    let mut n = 0;
    for b in bytes {
        if !name_byte(*b) {
            return n;
        }
        n += 1;
    }
    n
}

#[tactic(auto, unfolding(crate::specs::Pieces::run_of))]
fn word_run(bytes: &[u8]) -> usize
    ensures value { result ≡ run_of is_word_byte bytes.now }
    ensures within { result ≤ length bytes.now }
{
    let mut n = 0;
    for b in bytes {
        if !word_byte(*b) {
            return n;
        }
        n += 1;
    }
    n
}

#[tactic(auto, unfolding(crate::specs::Pieces::run_of, crate::specs::Bytes::is_in_line))]
pub fn line_run(bytes: &[u8]) -> usize
    ensures value { result ≡ run_of is_in_line bytes.now }
    ensures within { result ≤ length bytes.now }
{
    let mut n = 0;
    for b in bytes {
        if *b == 10 {
            return n;
        }
        n += 1;
    }
    n
}

#[tactic(auto, unfolding(crate::specs::Pieces::value_from))]
fn value(base: u64, digits: &[u8]) -> Option<u64>
    ensures { result ≡ value_from base 0 digits.now }
{
    let mut n = 0u64;
    for d in digits {
        let digit = value_of_digit(*d);
        if digit >= base {
            return None;
        }
        n = n.checked_mul(base)?.checked_add(digit)?;
    }
    Some(n)
}

#[tactic(auto, unfolding(crate::specs::Pieces::after_zero, crate::specs::Pieces::number_of))]
fn number(word: &[u8]) -> Option<u64>
    ensures { result ≡ number_of word.now }
{
    if word.is_empty() {
        return None;
    }
    if word[0] != b'0' {
        return value(10, word);
    }
    if word.len() == 1 {
        return Some(0);
    }
    if word.len() == 2 || word[1] != b'x' {
        return None;
    }
    value(16, &word[2..])
}

#[tactic(auto, unfolding(crate::specs::Pieces::text_from))]
fn text_end(bytes: &[u8]) -> Option<usize>
    requires { length bytes.now < 2 ^ 32 }
    ensures value { result ≡ text_from 1 false bytes.now }
    ensures within { IfSome result (λ n. (0 < n) × (n ≤ length bytes.now + 1)) }
{
    let mut n = 1;
    let mut escaped = false;
    for b in bytes {
        if escaped {
            if !escape(*b) {
                return None;
            }
            escaped = false;
        } else {
            if *b == b'"' {
                return Some(n + 1);
            }
            if *b == b'\n' {
                return None;
            }
            escaped = *b == b'\\';
        }
        n += 1;
    }
    None
}

#[tactic(auto, unfolding(crate::specs::Pieces::numbered, crate::specs::Pieces::number_piece, crate::specs::Pieces::number_of))]
fn number_at(bytes: &[u8]) -> Option<(usize, Option<TokenKind>)>
    ensures value { result ≡ number_piece bytes.now }
    ensures within { IfSome result (λ p. (0 < p.0) × (p.0 ≤ length bytes.now)) }
{
    let run = word_run(bytes);
    if run == 0 {
        return None;
    }
    let n = number(&bytes[..run])?;
    Some((run, Some(TokenKind::Number(n))))
}

#[tactic(auto, unfolding(crate::specs::Pieces::named_piece))]
fn named(kind: TokenKind, bytes: &[u8]) -> Option<(usize, Option<TokenKind>)>
    requires { length bytes.now < 2 ^ 32 }
    ensures value { result ≡ named_piece kind bytes.now }
    ensures within { IfSome result (λ p. (0 < p.0) × (p.0 ≤ length bytes.now + 1)) }
{
    let (first, rest) = bytes.split_first()?;
    if !name_start(*first) {
        return None;
    }
    Some((name_run(rest) + 2, Some(kind)))
}

#[tactic(auto, unfolding(crate::specs::Pieces::text_piece))]
fn quoted(bytes: &[u8]) -> Option<(usize, Option<TokenKind>)>
    requires { length bytes.now < 2 ^ 32 }
    ensures value { result ≡ text_piece bytes.now }
    ensures within { IfSome result (λ p. (0 < p.0) × (p.0 ≤ length bytes.now + 1)) }
{
    let n = text_end(bytes)?;
    Some((n, Some(TokenKind::Text)))
}

/// What stands at the front of a text.
#[tactic(auto, unfolding(crate::specs::Pieces::piece_of))]
pub fn piece(bytes: &[u8]) -> Option<(usize, Option<TokenKind>)>
    requires { length bytes.now < 2 ^ 32 }
    ensures value { result ≡ piece_of bytes.now }
    ensures within { IfSome result (λ p. (0 < p.0) × (p.0 ≤ length bytes.now)) }
{
    let (first, rest) = bytes.split_first()?;
    let b = *first;
    if digit(b) {
        return number_at(bytes);
    }
    if name_start(b) {
        return Some((name_run(rest) + 1, Some(TokenKind::Name)));
    }
    if blank(b) {
        return Some((1, None));
    }
    if b == b'!' {
        return Some((line_run(rest) + 1, None));
    }
    if b == b'\n' {
        return Some((1, Some(TokenKind::LineEnd)));
    }
    if b == b'"' {
        return quoted(rest);
    }
    if b == b'%' {
        return named(TokenKind::Percent, rest);
    }
    if b == b'#' {
        return named(TokenKind::Hash, rest);
    }
    if mark(b) {
        return Some((1, Some(TokenKind::Punct(b))));
    }
    None
}

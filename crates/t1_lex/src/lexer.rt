// The tokens of a text.
ghost use Rattle.std.specs.Prelude.{◌≡◌, ◌≤◌, ◌<◌, ◌+◌, ◌^◌, length, OnOk, IfOk, List, ℕ, Result};
ghost use Rattle.t1_lex.specs.Tokens.{tokens_of, lexemes_in, cut_of, GivesTokens, AreInOrder, after, with_token, line_after};
ghost use Rattle.t1_lex.specs.Lexemes.{GivesLexemes};
ghost use Rattle.t1_lex.specs.declared.token.Token.{Token as TokenRecord};

use crate::pieces::piece;
use crate::token::{LexError, Token, TokenKind};
use std::alloc::{AllocError, Global};

/// Adds a token, where there is one, and gives the line of what follows.
#[tactic(auto, unfolding(crate::specs::Tokens::after, crate::specs::Tokens::with_token, crate::specs::Tokens::line_after))]
fn add(
    tokens: &mut Vec<Token>,
    kind: Option<TokenKind>,
    start: u32,
    end: u32,
    line: u32,
) -> Result<u32, AllocError>
    requires { line < 2 ^ 31 }
    ensures tokens { OnOk result ((r : Result (List TokenRecord) (ℕ × ℕ)) → after tokens.new.items r ≡ after tokens.old.items (with_token kind start end line r)) }
    ensures line { IfOk result (λ next. next ≡ line_after kind line) }
    ensures near { IfOk result (λ next. next ≤ line + 1) }
{
    let Some(kind) = kind else {
        return Ok(line);
    };
    tokens.push(Token {
        start,
        end,
        line,
        kind,
    })?;
    match kind {
        TokenKind::LineEnd => Ok(line + 1),
        _ => Ok(line),
    }
}

/// Puts the tokens of a text of at most 67,108,864 bytes into `tokens`, in place of what it held.
///
/// Their spans ascend and do not overlap, and each is as long as a token there can be. After an
/// error nothing is said of what `tokens` holds.
///
/// # Errors
/// `BadByte` at the first byte at which no token starts; `OutOfMemory`.
pub fn lex_into(tokens: &mut Vec<Token>, text: &[u8]) -> Result<(), LexError>
    requires { length text.now ≤ 67108864 }
    ensures tokens { GivesTokens (λ done. tokens.new.items) result (tokens_of text.now) }
    ensures lexemes { GivesLexemes (λ done. tokens.new.items) text.now result (lexemes_in (cut_of text.now)) }
    ensures order { OnOk result (AreInOrder 0 (length text.now) tokens.new.items) }
{
    tokens.clear();
    let mut at = 0usize;
    let mut line = 1u32;
    while at < text.len() {
        let Some((size, kind)) = piece(text.split_at(at).1) else {
            return Err(LexError::BadByte {
                at: at as u32,
                line,
            });
        };
        let end = at + size;
        match add(tokens, kind, at as u32, end as u32, line) {
            Ok(next) => line = next,
            Err(_) => return Err(LexError::OutOfMemory),
        }
        at = end;
    }
    Ok(())
}

/// The tokens of a text of at most 67,108,864 bytes.
///
/// # Errors
/// `BadByte` at the first byte at which no token starts; `OutOfMemory`.
pub fn lex(alloc: Global, text: &[u8]) -> Result<Vec<Token>, LexError>
    requires { length text.now ≤ 67108864 }
    ensures tokens { GivesTokens (λ v. v.items) result (tokens_of text.now) }
    ensures lexemes { GivesLexemes (λ v. v.items) text.now result (lexemes_in (cut_of text.now)) }
    ensures order { IfOk result (λ v. AreInOrder 0 (length text.now) v.items) }
{
    let mut tokens = Vec::new(alloc);
    match lex_into(&mut tokens, text) {
        Ok(()) => Ok(tokens),
        Err(error) => Err(error),
    }
}

//! The tokens of assembly text.
//!
//! [`lex`] cuts a text into tokens, each as long as a token can be: names, numbers, texts in
//! quotes, names after `%` and `#`, punctuation and the ends of lines. Blanks and comments stand
//! between them. Each token names its bytes and its line, or the first byte at which none starts is
//! named. [`lex_into`] does the same into a vector that is used again.
//!
//! ```text
//! let tokens = lex(alloc, b"add %g1, 1, %g2")?;   // Name Percent , Number(1) , Percent
//! ```
//!
//! What is built above tokens is defined on lexemes, which are a token's kind and its bytes
//! (`specs/Lexemes.antt`). A text that is written part by part has the lexemes of its parts
//! ([`laws`]).
#![tactic(auto)]

pub mod bytes;
pub mod laws;
pub mod lexer;
pub mod pieces;
pub mod token;

pub use lexer::{lex, lex_into};
pub use pieces::line_run;
pub use token::{LexError, Token, TokenKind};

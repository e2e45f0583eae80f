//! The word of each instruction: the word table the other way.
//!
//! `decode` of a word that `encode` gives is the instruction again. `specs/Words.antt` draws the
//! formats.
#![tactic(auto)]

mod fields;
pub mod laws;
mod numbers;
mod words;

pub use words::encode;

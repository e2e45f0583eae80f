//! Worked words and values, as tables that the tests of several crates share.
//!
//! A table is one text, a row a line, which a test splits while it runs: tables of slices in slices
//! cost a check gigabytes.
#![tactic(auto)]

mod texts;
mod values;
mod words;

pub use texts::words_and_texts;
pub use values::{operations, windows};
pub use words::more_words;

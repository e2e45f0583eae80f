//! Programs as texts and as files.
//!
//! [`assemble_file`] makes the file of an assembly text. [`print_words`] writes a program as text: a
//! line for each word, with its address and its statement.
//!
//! ```text
//! 0000000100 b5802000 wr %g0, 0, %asr26
//! ```
#![tactic(auto)]

pub mod files;
pub mod words;

pub use files::assemble_file;
pub use words::print_words;

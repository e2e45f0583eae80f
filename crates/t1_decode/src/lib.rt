//! The word table: which instruction a 32-bit word is.
//!
//! `decode` is total: a word with no instruction of the profile
//! is `Illegal`, and one of the floating-point unit is `FpOff`. The macros of `tables` hold the
//! rows by op3.
#![tactic(auto)]

mod fields;
mod forms;
pub mod tables;
mod words;

pub use words::decode;

//! The statements of assembly: what a line says, and the words of an instruction.
//!
//! [`lexed`] gives the tokens of a line, [`after_labels`] those behind its labels, and
//! [`read_body`] what they say: nothing, a name with a value, or a directive or an instruction with
//! its values; or the first of the faults Syntax, UnknownName and BadOperand. [`instruction_words`] gives
//! the one or two words of an instruction at its location, by the instruction encoder: a value that
//! the encoder has no field for is OutOfRange.
#![tactic(auto)]

pub mod fault;
pub mod line;
pub mod statement;
pub mod templates;

pub use fault::{Fault, Halt};
pub use line::{after_labels, lexed, read_body};
pub use statement::{Body, Statement};
pub use templates::instruction_words;

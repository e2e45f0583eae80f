//! The forms of the lines of a log.
//!
//! [`has_form`] says whether a line is one of its kind, whatever its numbers are: a decimal number may
//! have any length, and an access any size that its values have digits for. So it tells a line that has
//! no form from one whose numbers are out of their ranges.
//!
//! ```text
//! if has_form(Line::Order, b"o 0 99999999999999999999") { .. }
//! ```
//!
//! `specs/Forms.antt` has the forms, `specs/Fields.antt` what each field is. The lines that `t1_log`
//! prints have their forms ([`laws`]).
#![tactic(auto)]

mod digits;
mod endings;
mod field;
mod fields;
mod heads;
pub mod laws;
mod line;
mod tables;

pub use line::{Line, has_form};

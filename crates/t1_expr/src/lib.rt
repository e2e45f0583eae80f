//! The expressions of assembly, and the names that have values.
//!
//! An expression is a sum of numbers, names, `.` (the location), `%hi(..)` and `%lo(..)`, and wraps
//! at 64 bits. [`expr`] reads the longest one at the front of some tokens. Its value is `None`
//! where a name in it has none yet, so one reading of a line serves both passes of the assembler:
//! whether an expression stands there does not depend on the names.
#![tactic(auto)]

pub mod exprs;
pub mod lexeme;
pub mod stop;
pub mod sum;
pub mod symbols;

pub use exprs::{expr, is_mark, summed};
pub use lexeme::bytes_of;
pub use stop::Stop;
pub use symbols::{define, value_of};

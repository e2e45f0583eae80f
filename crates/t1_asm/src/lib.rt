//! The assembler: from the text of a program to its object.
//!
//! [`assemble`] reads a text in two passes. The first gives each name its value: lines are counted,
//! labels take the location of their line. The second gives the bytes, with the values of all
//! names. The first line at fault ends a pass, and the answer names it by number and kind. The
//! statements, and which fault of a line comes first, are described in docs/ASSEMBLY.md;
//! `specs/Passes.antt` says the same as a definition, `assembled`, which the answer is.
//!
//! ```text
//! let object = assemble(alloc, b"_start: wr %g0, 0, %asr26\n")?;
//! ```
#![tactic(auto)]

pub mod assembler;
pub mod error;
mod failure;
mod first;
mod layout;
mod second;

pub use assembler::assemble;
pub use error::{AsmError, AsmKind};

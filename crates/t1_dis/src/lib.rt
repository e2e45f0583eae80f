//! The disassembler: the text of a word at an address.
//!
//! [`disassemble`] writes a word as the assembler's statement: the mnemonic, and the operands by
//! the slots of the form that the assembler itself reads them by. A word with no instruction of the
//! profile, or that reads or writes a hyperprivileged register, is `.word` and its digits. No memory is
//! taken.
//!
//! ```text
//! disassemble(0x100, 0x84006001)    // add %g1, 1, %g2
//! ```
//!
//! Two laws tie the text to the assembler, for each form ([`laws`]): its tokens are those that the
//! form names, and at its own place it is one word, which decodes to the same instruction.
#![tactic(auto)]

pub mod disassembler;
pub mod laws;
mod names;
mod operands;
mod text;

pub use disassembler::disassemble;

//! Tests of the texts of programs: tokens, the assembler, the disassembler, and guests that are
//! generated.
#![tactic(auto)]

#[cfg(test)]
mod asm;
#[cfg(test)]
mod dis;
#[cfg(test)]
mod generated;
#[cfg(test)]
mod lex;

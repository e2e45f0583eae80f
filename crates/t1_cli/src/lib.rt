//! The commands of t1sim.
//!
//! [`t1_serial`] is all that the program does on one thread: it takes the words of the command line, a
//! source and two sinks, and answers the status. The command `run` runs a program on the machine of cores,
//! caches, banks and the I/O bridge, and writes every access of every strand in one memory order. The
//! commands `asm` and `dis` are the assembler and the disassembler, `check` judges the order of a log, and
//! `gen` writes guests.
#![tactic(auto)]

mod checks;
pub mod command;
mod ended;
pub mod input;
pub mod lines;
pub mod refusal;
pub mod report;
pub mod serial;
pub mod status;
mod texts;
pub mod verdict;
mod words;

pub use command::Command;
pub use serial::t1_serial;
pub use status::Status;
pub use words::read_words;

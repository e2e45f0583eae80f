//! Why an input is refused.

use t1_elf::ElfError;
use t1_read::LogKind;
use t1_stmt::fault::Fault;

/// Why an input is refused.
#[derive(Clone, Copy, Drop)]
pub enum Refusal {
    /// It is longer than an input may be.
    TooLong,
    /// It is no program that can be loaded.
    Misformed(ElfError),
    /// It is a text whose first line at fault has this number, counted from 1.
    Faulty { line: u32, fault: Fault },
    /// It is no log: the first line at fault, counted from 1, and its kind.
    NoLog { line: u32, kind: LogKind },
}

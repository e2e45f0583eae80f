//! What a command came to.

use crate::refusal::Refusal;

/// What a command came to, with all that its line on err tells.
#[derive(Clone, Copy, Drop)]
pub enum Verdict {
    Good,
    Usage,
    /// The input is refused.
    Refused(Refusal),
    /// The first strand that ended by a trap at trap level 6, with the trap's type and its PC.
    Fault { strand: usize, number: u16, pc: u64 },
    /// No strand ended so, and this is the first whose budget is spent.
    Spent { strand: usize },
    ReadFault,
    WriteFault,
    OutOfMemory,
    /// An axiom of total store order fails.
    NotInOrder,
}

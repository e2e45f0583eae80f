//! The trace of a strand.

use crate::item::Item;
use t1_elf::Listed;

/// How a strand ended.
#[derive(Clone, Copy, Debug, PartialEq, Eq)]
pub enum Ending {
    /// By a write of the halt register.
    Halted,
    /// By a trap of this type at trap level 6.
    Fault(u16),
    /// By its budget of units.
    Spent,
}

/// What one strand did: its items in program order, its units, its PC, and how it ended.
#[derive(Drop)]
pub struct Trace {
    pub items: Listed<Item>,
    pub units: u32,
    pub pc: u64,
    pub ending: Option<Ending>,
}

//! The chip: the serial machine with its room, run by a schedule until nothing can act.
#![tactic(auto)]

mod chip;
mod report;
mod slot_set;

pub use chip::{Chip, Step};

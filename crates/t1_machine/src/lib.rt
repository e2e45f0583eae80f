//! The serial machine: cores, destinations and the crossbar, joined by rings, one slot at a time.
#![tactic(auto)]

mod enabled;
mod machine;
pub mod ring;
mod rooms;
pub mod schedule;
pub mod slot;
mod start;
pub mod woken;

pub use machine::Machine;
pub use ring::Ring;
pub use schedule::Schedule;
pub use slot::{Slot, slot_at, slots};
pub use woken::Woken;

//! Guests that are generated: programs of plain instructions, loads, stores, swaps and barriers,
//! drawn from a seed.
//!
//! `specs/Guests.antt` says which instruction each drawn word gives.
#![tactic(auto)]

mod drawn;
mod guest;

pub use guest::{MOST_SIZE, generate};

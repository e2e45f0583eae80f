//! The shape of the chip, and the slots of a set-associative cache: definitions and laws alone.
//!
//! `specs/Shapes.antt` lists the chips that are built, `specs/Numbers.antt` gives each number of a
//! chip once, and `specs/Slots.antt` says how the lines of a cache stand in its slots: which slot a
//! line is found in, which way a fill takes, and what the pointers of the sets do. `proofs/Numbers`
//! has the few facts that proofs use of a chip's numbers, one clause a chip.
#![tactic(auto)]

mod counts;

pub use counts::{banks, destinations, l2_ways, most_l2_sets, most_strands};

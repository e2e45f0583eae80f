//! Strands without hyperprivileged mode: laws alone. Where a configuration leaves it out, no strand ever
//! comes into it, and each rule that asks for the mode is the one of a chip that has none.
#![tactic(auto)]

pub mod laws;

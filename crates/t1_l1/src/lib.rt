//! The level-1 caches of a core: one cache of so many ways, sets and bytes a line.
//!
//! [`L1`] keeps lines by set and way. A line is looked up among the ways of its set, filled at the
//! way that was asked for, emptied when a bank invalidates it, and changed in place when a store is
//! acknowledged (OpenSPARC T1 Microarchitecture Specification, instruction and data caches; the
//! victim rule is this project's profile). `specs/Cache.antt` says what each call means.
#![tactic(auto)]

pub mod cache;
pub mod laws;
pub mod line;
pub mod ways;

pub use cache::L1;

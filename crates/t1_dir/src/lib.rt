//! The shadow directory of a bank: which lines the L1 caches of the cores hold, way by way.
//!
//! A bank writes each fill that it serves into its directory and drops what it kills, so that it can
//! find the copies of a line: `way_of` says in which way of a core's cache one stands, and `may_show`
//! tells by one look that no core has one.
#![tactic(auto)]

mod directory;
mod marks;
mod tags;

pub use directory::Directory;

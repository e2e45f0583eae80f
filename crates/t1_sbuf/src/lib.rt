//! The store buffer of a strand: its stores that no destination has acknowledged, oldest first.
//!
//! A core pushes a store when the strand executes it, sends the oldest unsent one where its ring has
//! room, and takes the oldest out when its acknowledgement comes. Several may be sent at once, as long
//! as they go to one destination: that serves them in the order in which they were sent, so they are
//! acknowledged in that order too. A load of the strand looks at the buffer first: the youngest entry
//! that overlaps it decides (OpenSPARC T1 Microarchitecture Specification, store buffer; total store
//! order lets a strand alone see its own stores early).
#![tactic(auto)]

pub mod buffer;
pub mod entry;
pub mod looks;

pub use buffer::StoreBuffer;
pub use entry::{Entry, Look};

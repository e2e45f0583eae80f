//! The checker of memory orders.
//!
//! [`check`] judges the order of a report: whether it lists each access of all traces once, and obeys
//! total store order over the traces and the image. Otherwise it names the first axiom that fails and
//! where. It needs no machine, no log of commits and no places of accesses.
//!
//! ```text
//! match check(alloc, &report)? {
//!     Verdict::Holds => ..,
//!     Verdict::Broken { axiom, first, second } => ..,
//! }
//! ```
//!
//! The order is turned into a table first: the position of each item, counted from 1. Then `rules` asks
//! of positions alone what load-op, store-store and barrier ask, and `value` finds for each byte of a
//! read the greatest position of a write that it may see, over the memory order and over its own
//! strand. What a verdict says stands in `specs/Verdicts.antt`, in the words of the memory order.
#![tactic(auto)]

mod axioms;
mod crossing;
mod judging;
mod kinds;
mod latest;
mod listing;
mod own;
mod rules;
mod table;
mod value;
mod verdict;

pub use judging::check;
pub use verdict::{Axiom, Verdict};

//! What a run is made of: items, traces, commits, reports; and what a memory order is.
//!
//! A strand's trace is the list of its items in program order. A memory order is a list of places
//! that names each access of all traces once; `specs/Order.antt` says when it obeys total store
//! order over the traces and the image that the memory held at first.
//!
//! The log is the list of commits, the accesses that the banks and the I/O bridge served, in the
//! order of admission. What it makes of memory, of the banks and of the L1 caches stands in
//! `specs/`: memory by a log in `Log`, the rule of a bank in `BankRule` and `Kills`, directories and
//! L2 arrays by a log in `Shadow`, the packets to the cores and their caches in `Posts`, where each
//! access may be placed in `Places`, and the memory order of a run in `Keys`.
#![tactic(auto)]

pub mod commit;
pub mod destination;
pub mod item;
pub mod laws;
pub mod report;
pub mod trace;

pub use commit::Commit;
pub use destination::dest_of;
pub use item::{How, Item, ItemKind};
pub use report::{Config, Place, Report};
pub use trace::{Ending, Trace};

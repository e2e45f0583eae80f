//! Every command of t1sim.
//!
//! [`t1_top`] serves `live`, the threaded run, and hands all other commands to
//! [`t1_serial`](t1_cli::t1_serial).
#![tactic(auto)]

mod live;
mod top;

pub use top::t1_top;

//! The threaded run: each core, each destination and the crossbar as an agent in a thread of its own.
//!
//! An agent owns its part alone, and the parts meet only through the rings and request queues of
//! `t1_ring`. The deciding step is the crossbar agent's admission: it gives an access its index in the
//! log and posts all its packets. Each agent keeps in its type its own rule of a fitting part, over its
//! own state and what its own ends and seats sent and received. A request that a full queue hands back
//! counts as sent: the core keeps it, and pushes it before anything else. Once the threads are joined,
//! a tie on each port and each seat shows that what was received is what was sent, as far as it came;
//! so the parts fit, and their traces and log are a joint history.
#![tactic(auto)]

mod agents;
mod build;
mod core_agent;
mod crossbar_agent;
mod destination_agent;
mod hubs;
mod lane;
pub mod laws;
mod numbers;
mod report;
mod ties;

pub use agents::{Agents, run_live};
pub use t1_crew::{FreeGate, Gate};

//! A core: its strands with their store buffers, its two L1 caches, and its time.
//!
//! A strand executes one step at a time, [`Core::exec`]: it begins a unit by a fetch, and meets what
//! the instruction needs from its store buffer, from a cache, or by a request to a destination. The
//! oldest of its stores that is not sent goes out by [`Core::drain`]; several are out at once as long
//! as they go to one destination. What comes back is taken by [`Core::take`], one packet at a time,
//! which moves the core's time past the packet's index. Every access gets its place in the strand's
//! trace: Hit or Forward at the core's time, or Commit by its packet.
//!
//! `specs/` says each call as a function of the core's whole state: `Threads.antt` what happens to a
//! strand, `Steps.antt` and `Takes.antt` when it happens, `Turns.antt` who is next.
#![tactic(auto)]

pub mod answers;
pub mod asker;
mod insn_cache;
mod items;
pub mod laws;
mod next;
pub mod phase;
pub mod plan;
pub mod quick;
mod replies;
mod rings;
pub mod sparc_core;
mod steps;
pub mod thread;

pub use answers::{Did, Drained, Wait};
pub use sparc_core::Core;

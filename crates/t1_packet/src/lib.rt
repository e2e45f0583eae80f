//! Requests, served accesses and packets: what the parts of the chip hand to one another.
//!
//! A core sends a [`Request`] to the destination of its address, [`dest`]. The destination serves it:
//! a [`Served`] access has the old value and the [`Kill`]s of copies in cores' L1 caches. The crossbar
//! gives it an index and posts a [`Packet`] to each core that it concerns, [`packet_for`]: the kills
//! of that core, and to the core that asked the [`Reply`].
#![tactic(auto)]

pub mod cache;
pub mod destination;
pub mod kill;
pub mod kills;
pub mod op;
pub mod packet;
pub mod post;
pub mod request;
pub mod served;

pub use cache::Cache;
pub use destination::dest;
pub use kill::Kill;
pub use kills::Kills;
pub use op::Op;
pub use packet::{Packet, Reply};
pub use post::packet_for;
pub use request::Request;
pub use served::Served;

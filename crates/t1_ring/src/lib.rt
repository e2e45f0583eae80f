//! Rings and queues between threads: what one end sends, the other end receives, in order.
//!
//! A [`port`] has two ends, each owned by one thread. An end knows of the other only what it has seen:
//! contracts speak of what was `sent`, of what was `received`, and of the items that are `known` to the
//! receiving end and not yet popped. Where the threads are joined, [`tie`] brings both ends together.
//! Ends that stand in a row, one for each thread at the other side, are in [`row`].
//!
//! A [`request_queue`] is shared by its cores and its destination. Each has a seat: a core's says what
//! it `pushed`, and the destination's what was `taken`. Where the threads are joined, each core gives
//! its seat back, and what was taken of it is then known to be the first of what it pushed.
#![tactic(auto)]

pub mod ends;
mod queue;
pub mod row;
mod rule;

pub use ends::{Rx, Tx, port, tie};
pub use queue::{CoreSeat, DestSeat, RequestQueue, request_queue};

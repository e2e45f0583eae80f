//! What a core owes to the progress of a machine, for every history of its calls. Definitions and
//! laws alone.
//!
//! `specs/Laws.antt` has the laws: a request goes to a destination that there is, whose ring has
//! room; where all rings have room and nothing is done, a strand that awaits no reply has ended and
//! a buffer of which nothing is sent is empty; and a core is finished exactly where its strands have
//! ended. `proofs/Queues.antt` shows that each strand stays in the queue of its core.
#![tactic(auto)]

pub mod laws;

//! The bound on the steps of the serial machine, and the room of its log. Definitions and laws alone.
//!
//! `specs/Weights.antt` says what each thing that has steps to make counts for: a strand by its phase and
//! by the units that its budget leaves it, a store in a buffer, a request, an access or a packet in a
//! ring, a record of the log. One weighing counts steps, another counts commits. Each step of the machine
//! takes weight away, whatever packet comes, so the weights bound what can still happen.
//! `specs/Laws.antt` has the laws, each for every list of slots from a start.
//!
//! `proofs/Reach.antt` has what crates above need of a machine that a list of slots leads to: its log has
//! room, its weight falls at each step, and a run by a schedule is short.
#![tactic(auto)]

pub mod laws;

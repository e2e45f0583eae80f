//! Program order of one strand and its store buffer, whatever core runs it: definitions and laws alone.
//!
//! `specs/Tracks.antt` has what program order sees of a strand, its items, which of its stores the
//! buffer holds, when these and its read were sent, and its core's time, and what each event makes
//! of it: a read that is answered at once, a barrier, a store that comes into the buffer, a request
//! that goes out, the packet that answers it, and time that goes on. `specs/Allowed.antt` says which
//! events a strand allows, `specs/Kept.antt` what each of them keeps, and `specs/Places.antt` when
//! the places of its accesses are right.
#![tactic(auto)]

pub mod laws;

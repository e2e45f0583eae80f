//! Definitions of whole runs: the replay of a strand from the values that it read, the parts of a
//! machine and when they fit, and joint histories.
//!
//! `specs/Replay.antt` says what a trace is when it follows the instruction table: the replay of
//! its own reads, one unit at a time. It knows no memory. `specs/Follows.antt` says when a trace is
//! that replay, and where a strand stands whose replay goes on; `proofs/` has the laws by which it
//! goes on, for every engine and core that makes traces, and the shape of its items.
//!
//! `specs/JointHistory.antt` says when traces and a log are a joint history: each access has its
//! place, and each commit is what its destination serves. `specs/Parts.antt` to `specs/Fit.antt` say
//! what each core, each destination and the crossbar keep of their own part of a run.
#![tactic(auto)]

pub mod laws;

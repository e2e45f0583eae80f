//! The rule of a core: what every history of a core's calls keeps. Definitions and laws alone.
//!
//! `specs/Histories.antt` has a core with the packets that came and the requests that it sent, and
//! each call: exec, drain, and take of any packet. `specs/Steady.antt` says what each call keeps
//! whatever packets came, `specs/Fitting.antt` what it keeps where they are proper, and
//! `specs/Parts.antt` which part of a run a history is. `specs/Laws.antt` has the laws, of which the
//! last but two is the rule that parts of a run fit by.
//!
//! `proofs/Moves.antt` says what any step of a strand has to show, `proofs/Execs.antt`,
//! `proofs/Needs.antt` and `proofs/Drains.antt` that the steps do; only `proofs/Nexts.antt` knows
//! which store may be sent next.
#![tactic(auto)]

pub mod laws;

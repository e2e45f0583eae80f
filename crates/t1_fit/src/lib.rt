//! The law of parts that fit: what each core, each destination and the crossbar keep of their own part
//! of a run, with rings between them, makes the run a joint history.
//!
//! The law knows no schedule and no state of a machine. It serves a machine that steps its parts in
//! turn and agents that run side by side alike. Its premises are the rules of `specs/CoreRule.antt`
//! and `specs/Fit.antt` of `t1_joint`.
#![tactic(auto)]

pub mod laws;

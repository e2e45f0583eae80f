//! Laws of joint histories: the memory order that they have obeys total store order, and the L1 caches
//! of their logs are covered by the banks' directories.
//!
//! Each law is the one clause of a function with nothing to do, over the definitions of `t1_event` and
//! `t1_joint`; `specs/Laws.antt` states them.
#![tactic(auto)]

pub mod laws;

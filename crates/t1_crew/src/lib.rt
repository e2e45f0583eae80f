//! Agents in threads of their own.
//!
//! An [`Agent`] owns its part of a run with its ends and seats, and goes on by turns. [`run_crew`]
//! moves each agent of a [`Crew`] into a thread and turns it there until it has ended; then the thread
//! hands it back, under a promise that it is the same agent with the same ends. An agent for which
//! there is no thread is turned by the caller, one turn at a time. Agents tell one another by [`Flags`]
//! that they are done, and no clause rests on what a flag says.
#![tactic(auto)]

mod agent;
mod flags;
mod run;

pub use agent::{Agent, Crew, FreeGate, Gate, Turned};
pub use flags::Flags;
pub use run::run_crew;

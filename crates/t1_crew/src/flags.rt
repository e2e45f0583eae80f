//! What agents tell one another.

use std::sync::atomic::{AtomicBool, AtomicU32, Ordering};

/// What agents tell one another: who is done, who has ended, for whom there is no thread, and whether
/// the run is given up. Agents are numbered below 32.
#[derive(Drop)]
pub struct Flags {
    done: AtomicU32,
    ended: AtomicU32,
    refused: AtomicU32,
    given_up: AtomicBool,
}

fn bit(agent: u8) -> u32 {
    1u32 << (agent % 32)
}

impl Flags {
    pub fn new() -> Flags {
        Flags {
            done: AtomicU32::new(0),
            ended: AtomicU32::new(0),
            refused: AtomicU32::new(0),
            given_up: AtomicBool::new(false),
        }
    }

    pub fn say_done(&self, agent: u8) {
        self.done.fetch_or(bit(agent), Ordering::SeqCst);
    }

    /// Whether each agent of a set has said that it is done.
    pub fn are_done(&self, agents: u32) -> bool {
        self.done.load(Ordering::SeqCst) & agents == agents
    }

    pub fn say_ended(&self, agent: u8) {
        self.ended.fetch_or(bit(agent), Ordering::SeqCst);
    }

    /// Whether each agent of a set has said that it has ended.
    pub fn have_ended(&self, agents: u32) -> bool {
        self.ended.load(Ordering::SeqCst) & agents == agents
    }

    pub fn give_up(&self) {
        self.given_up.store(true, Ordering::SeqCst);
    }

    pub fn is_given_up(&self) -> bool {
        self.given_up.load(Ordering::SeqCst)
    }

    pub(crate) fn refuse(&self, agent: u8) {
        self.refused.fetch_or(bit(agent), Ordering::SeqCst);
    }

    pub(crate) fn is_refused(&self, agent: u8) -> bool {
        self.refused.load(Ordering::SeqCst) & bit(agent) != 0
    }
}

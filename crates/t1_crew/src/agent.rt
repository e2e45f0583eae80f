//! Agents, and where they are.
ghost use Rattle.std.specs.Prelude.{◌≡◌, Bool, true};
ghost use Rattle.t1_crew.specs.Id.{Id};

use crate::flags::Flags;
use std::snapshot::Snapshot;
use std::sync::Wait;
use std::thread::{Promise, PromisedHandle};

/// Who may hold an agent up before each of its turns.
pub trait Gate {
    fn pass(&self, agent: u8);
}

/// A gate that stands open.
pub struct FreeGate;

impl Gate for FreeGate {
    fn pass(&self, _agent: u8) {}
}

/// What a turn came to.
#[derive(Clone, Copy, Drop)]
pub enum Turned {
    /// The agent did something.
    Worked,
    /// There was nothing to do.
    Idle,
    /// The agent has no further turn.
    Ended,
}

/// One part of a run, with its ends and seats. Its identity stays the same at each turn, and once
/// it has ended, it is over.
pub trait Agent {
    ghost id: { Self → Id };

    ghost over: { Self → Bool };

    fn number(&self) -> u8;

    fn turn<R: Wait>(&mut self, rt: &R, flags: &Flags) -> Turned
        ensures same { id self.new ≡ id self.old }
        ensures over { result ≡ Turned.Ended → over self.new ≡ true };
}

/// An agent, and whether it has ended.
#[derive(Drop)]
pub(crate) struct Kept<A: Agent> {
    pub(crate) agent: A,
    pub(crate) ended: bool,
    ghost over: { ended ≡ true → A.over agent ≡ true },
}

impl<A: Agent> Kept<A> {
    pub(crate) fn of(agent: A) -> Kept<A>
        ensures { result.agent ≡ agent }
    {
        Kept {
            agent,
            ended: false,
        }
    }

    /// One turn, unless it has ended: whether it did anything.
    pub(crate) fn turn<R: Wait, G: Gate>(&mut self, rt: &R, gate: &G, flags: &Flags) -> bool
        ensures { A.id self.new.agent ≡ A.id self.old.agent }
    {
        if self.ended {
            return false;
        }
        gate.pass(self.agent.number());
        match self.agent.turn(rt, flags) {
            Turned::Worked => {
                self.ended = false;
                true
            }
            Turned::Idle => {
                self.ended = false;
                false
            }
            Turned::Ended => {
                self.ended = true;
                true
            }
        }
    }
}

/// The agent that comes back is the one that went in: it has its identity.
#[derive(Drop)]
pub(crate) struct SameAgent<A: Agent>(pub(crate) Snapshot<Kept<A>>);

impl<A: Agent> Promise<Kept<A>> for SameAgent<A> {
    ghost kept_by = { λ p r. A.id r.agent ≡ A.id p.0.value.agent };
}

/// An agent that is in a thread, or one that waits for its turns here.
#[derive(Drop)]
pub(crate) enum Slot<A: Agent + Drop> {
    Away(PromisedHandle<Kept<A>, SameAgent<A>>),
    Here(Kept<A>),
}

/// The agents of a run, of three kinds.
#[derive(Drop)]
pub struct Crew<A: Drop, B: Drop, C: Drop> {
    pub first: Vec<A>,
    pub second: Vec<B>,
    pub last: C,
}

/// Room for the slots of the first two kinds, and for the agents that come back.
#[derive(Drop)]
pub(crate) struct Room<A: Agent + Drop, B: Agent + Drop> {
    pub(crate) first: Vec<Slot<A>>,
    pub(crate) second: Vec<Slot<B>>,
    pub(crate) first_back: Vec<A>,
    pub(crate) second_back: Vec<B>,
}

//! Agents in threads, or turned here.
ghost use Rattle.std.specs.Prelude.{◌≡◌, ◌≤◌, [], true, vec_len, vec_capacity, IfSome, IfOk};
ghost use Rattle.t1_crew.specs.Slots.{slot_id, slot_ids, ids, AreOver};

use crate::agent::{Agent, Crew, Gate, Kept, Room, SameAgent, Slot};
use crate::flags::Flags;
use std::alloc::{AllocError, Global};
use std::snapshot::Snapshot;
use std::sync::Wait;
use std::thread;
use std::thread::{Scope, Threads};

/// Turns an agent until it has ended or the run is given up. One that was refused a thread does no turn.
fn work<A: Agent, R: Wait, G: Gate>(rt: &R, kept: Kept<A>, gate: &G, flags: &Flags) -> Kept<A>
    ensures { A.id result.agent ≡ A.id kept.agent }
{
    let mut kept = kept;
    if flags.is_refused(kept.agent.number()) {
        return kept;
    }
    for _ in rt.forever() {
        if kept.ended || flags.is_given_up() {
            break;
        }
        if !kept.turn(rt, gate, flags) {
            thread::yield_now();
        }
    }
    kept
}

/// Starts a thread for an agent. One for which there is no thread waits here.
fn started<'s, E: 's, A: Agent + Drop + Send + 's, R: Threads + Wait + Sync, G: Gate + Sync>(
    scope: &Scope<'s, E>,
    rt: &'s R,
    agent: A,
    gate: &'s G,
    flags: &'s Flags,
) -> Slot<A>
    ensures { slot_id result ≡ A.id agent }
{
    let number = agent.number();
    let kept = Kept::of(agent);
    let promise = SameAgent(Snapshot::of(&kept));
    let job = move || -> Kept<A>
        ensures { A.id result.agent ≡ A.id kept.agent }
    { work(rt, kept, gate, flags) };
    match scope.spawn_with(promise, job) {
        Ok(handle) => Slot::Away(handle),
        Err(refused) => {
            flags.refuse(number);
            Slot::Here((refused.value)())
        }
    }
}

/// Starts a thread for each agent.
fn start<'s, E: 's, A: Agent + Drop + Send + 's, R: Threads + Wait + Sync, G: Gate + Sync>(
    scope: &Scope<'s, E>,
    rt: &'s R,
    agents: Vec<A>,
    slots: &mut Vec<Slot<A>>,
    gate: &'s G,
    flags: &'s Flags,
)
    requires empty { slots.old.items ≡ [] }
    requires room { vec_len agents ≤ vec_capacity slots.old }
    ensures same { slot_ids slots.new.items ≡ ids A.id agents.items }
    ensures len { vec_len slots.new ≡ vec_len agents }
{
    for agent in agents {
        slots.push_reserved(started(scope, rt, agent, gate, flags));
    }
}

impl<A: Agent + Drop> Slot<A> {
    /// One turn of an agent that waits here. Says whether it goes on.
    fn turn<R: Wait, G: Gate>(&mut self, rt: &R, gate: &G, flags: &Flags) -> bool
        ensures { slot_id self.new ≡ slot_id self.old }
    {
        match self {
            Slot::Away(_) => false,
            Slot::Here(kept) => {
                kept.turn(rt, gate, flags);
                !kept.ended
            }
        }
    }

    /// The agent again, once it has ended or the run is given up.
    fn join<R: Threads>(self, rt: &R) -> Kept<A>
        ensures { A.id result.agent ≡ slot_id self }
    {
        match self {
            Slot::Away(handle) => handle.join(rt),
            Slot::Here(kept) => kept,
        }
    }
}

/// One turn of each agent that waits here. Says whether one of them goes on.
#[tactic(auto, using(crate::proofs::Rows::slot_ids_set))]
fn turn_here<A: Agent + Drop, R: Wait, G: Gate>(
    rt: &R,
    slots: &mut Vec<Slot<A>>,
    gate: &G,
    flags: &Flags,
) -> bool
    ensures same { slot_ids slots.new.items ≡ slot_ids slots.old.items }
    ensures len { vec_len slots.new ≡ vec_len slots.old }
{
    let mut goes_on = false;
    for i in 0..slots.len() {
        if slots[i].turn(rt, gate, flags) {
            goes_on = true;
        }
    }
    goes_on
}

/// The agents again, once each has ended or the run is given up, and whether each has ended.
fn finish<A: Agent + Drop, R: Threads>(rt: &R, slots: Vec<Slot<A>>, agents: &mut Vec<A>) -> bool
    requires empty { agents.old.items ≡ [] }
    requires room { vec_len slots ≤ vec_capacity agents.old }
    ensures same { ids A.id agents.new.items ≡ slot_ids slots.items }
    ensures over { result ≡ true → AreOver A.over agents.new.items }
{
    let mut all = true;
    for slot in slots {
        let kept = slot.join(rt);
        if !kept.ended {
            all = false;
        }
        agents.push_reserved(kept.agent);
    }
    all
}

/// The agents of three kinds, each in a thread of its own, until each has ended. None where the run was given up.
fn run_in<
    's,
    E: 's,
    A: Agent + Drop + Send + 's,
    B: Agent + Drop + Send + 's,
    C: Agent + Drop + Send + 's,
    R: Threads + Wait + Sync,
    G: Gate + Sync,
>(
    scope: &Scope<'s, E>,
    rt: &'s R,
    crew: Crew<A, B, C>,
    room: Room<A, B>,
    gate: &'s G,
    flags: &'s Flags,
) -> Option<Crew<A, B, C>>
    requires first { (room.first.items ≡ []) × (room.first_back.items ≡ []) × (vec_len crew.first ≤ vec_capacity room.first) × (vec_len crew.first ≤ vec_capacity room.first_back) }
    requires second { (room.second.items ≡ []) × (room.second_back.items ≡ []) × (vec_len crew.second ≤ vec_capacity room.second) × (vec_len crew.second ≤ vec_capacity room.second_back) }
    ensures first { IfSome result (λ r. (ids A.id r.first.items ≡ ids A.id crew.first.items) × AreOver A.over r.first.items) }
    ensures second { IfSome result (λ r. (ids B.id r.second.items ≡ ids B.id crew.second.items) × AreOver B.over r.second.items) }
    ensures last { IfSome result (λ r. (C.id r.last ≡ C.id crew.last) × (C.over r.last ≡ true)) }
{
    let Crew {
        first,
        second,
        last,
    } = crew;
    let Room {
        first: mut first_slots,
        second: mut second_slots,
        mut first_back,
        mut second_back,
    } = room;
    start(scope, rt, first, &mut first_slots, gate, flags);
    start(scope, rt, second, &mut second_slots, gate, flags);
    let mut slot = started(scope, rt, last, gate, flags);
    for _ in rt.forever() {
        let first_goes = turn_here(rt, &mut first_slots, gate, flags);
        let second_goes = turn_here(rt, &mut second_slots, gate, flags);
        let last_goes = slot.turn(rt, gate, flags);
        if flags.is_given_up() || !(first_goes || second_goes || last_goes) {
            break;
        }
        thread::yield_now();
    }
    let first_ended = finish(rt, first_slots, &mut first_back);
    let second_ended = finish(rt, second_slots, &mut second_back);
    let kept = slot.join(rt);
    if first_ended && second_ended && kept.ended {
        Some(Crew {
            first: first_back,
            second: second_back,
            last: kept.agent,
        })
    } else {
        None
    }
}

/// As `run_in`, with the room that it needs.
fn run_with_room<
    's,
    E: 's,
    A: Agent + Drop + Send + 's,
    B: Agent + Drop + Send + 's,
    C: Agent + Drop + Send + 's,
    R: Threads + Wait + Sync,
    G: Gate + Sync,
>(
    scope: &Scope<'s, E>,
    rt: &'s R,
    alloc: Global,
    crew: Crew<A, B, C>,
    gate: &'s G,
    flags: &'s Flags,
) -> Result<Crew<A, B, C>, AllocError>
    ensures first { IfOk result (λ r. (ids A.id r.first.items ≡ ids A.id crew.first.items) × AreOver A.over r.first.items) }
    ensures second { IfOk result (λ r. (ids B.id r.second.items ≡ ids B.id crew.second.items) × AreOver B.over r.second.items) }
    ensures last { IfOk result (λ r. (C.id r.last ≡ C.id crew.last) × (C.over r.last ≡ true)) }
{
    let room = Room {
        first: Vec::with_capacity(alloc, crew.first.len())?,
        second: Vec::with_capacity(alloc, crew.second.len())?,
        first_back: Vec::with_capacity(alloc, crew.first.len())?,
        second_back: Vec::with_capacity(alloc, crew.second.len())?,
    };
    match run_in(scope, rt, crew, room, gate, flags) {
        Some(crew) => Ok(crew),
        None => Err(AllocError),
    }
}

/// Runs agents of three kinds, each in a thread of its own, until each has ended. The agents that come back are the same.
pub fn run_crew<
    A: Agent + Drop + Send,
    B: Agent + Drop + Send,
    C: Agent + Drop + Send,
    R: Threads + Wait + Sync,
    G: Gate + Sync,
>(
    rt: &R,
    alloc: Global,
    crew: Crew<A, B, C>,
    gate: &G,
    flags: &Flags,
) -> Result<Crew<A, B, C>, AllocError>
    ensures first { IfOk result (λ r. (ids A.id r.first.items ≡ ids A.id crew.first.items) × AreOver A.over r.first.items) }
    ensures second { IfOk result (λ r. (ids B.id r.second.items ≡ ids B.id crew.second.items) × AreOver B.over r.second.items) }
    ensures last { IfOk result (λ r. (C.id r.last ≡ C.id crew.last) × (C.over r.last ≡ true)) }
{
    thread::scope(
        thread::scope_env(),
        rt,
        move |scope| -> Result<Crew<A, B, C>, AllocError>
            ensures first { IfOk result (λ r. (ids A.id r.first.items ≡ ids A.id crew.first.items) × AreOver A.over r.first.items) }
            ensures second { IfOk result (λ r. (ids B.id r.second.items ≡ ids B.id crew.second.items) × AreOver B.over r.second.items) }
            ensures last { IfOk result (λ r. (C.id r.last ≡ C.id crew.last) × (C.over r.last ≡ true)) }
        { run_with_room(scope, rt, alloc, crew, gate, flags) },
    )
}

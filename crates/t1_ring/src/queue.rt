//! A request queue: many cores push, and one destination takes.
ghost use Rattle.std.specs.Prelude.{◌≡◌, ◌+◌, ◌*◌, ◌<◌, ◌≤◌, ◌++◌, ◌∷◌, [], IfOk, OnOk, IfErr, IfSome, IfNone};
ghost use mathlib.Core.List.{IsPrefix};
ghost use Rattle.t1_ring.specs.Queue.{of_core, seats_from, AreFirst, WasFull, WasEmpty};
ghost use Rattle.t1_ring.specs.QueueRule.{returned};

use crate::rule::{Account, Again, First, Line, Pushed, Seats, Spare, Taken};
use crossbeam_queue::Pass;
use std::alloc::{AllocError, Global};
use std::marker::Model;
use std::mem;
use std::sync::Wait;
use t1_packet::Request;

/// A queue of requests from cores to one destination.
#[derive(Drop)]
pub struct RequestQueue {
    line: Line,
}

impl Model for RequestQueue {
    ghost use Rattle.crossbeam_queue.specs.Passes.{ruled_capacity};
    ghost use Rattle.t1_ring.specs.Queue.{QueueState};

    ghost Value = { QueueState };

    ghost view = { λ q. record { name = q.line.table.shared.table_id; capacity = ruled_capacity q.line } };
}

/// The right of one core to push, with what it pushed.
#[derive(Drop)]
pub struct CoreSeat {
    pass: Pass<Request, Account>,
}

impl Model for CoreSeat {
    ghost use Rattle.std.specs.Prelude.{◌≡◌, []};
    ghost use Rattle.t1_ring.specs.Queue.{CoreSeatState};
    ghost use Rattle.t1_ring.specs.QueueRule.{known, pushing};

    ghost Value = { CoreSeatState };

    ghost view = { λ s. record { queue = s.pass.table_id; core = (known s.pass).core; pushed = (known s.pass).pushed } };

    ghost invariant = { λ s. (s.pass.me.1 ≡ []) × (known s.pass ≡ pushing (known s.pass).core (known s.pass).pushed) };
}

/// The right of the destination to take, with what it took, and with what each seat pushed that was
/// given back.
#[derive(Drop)]
pub struct DestSeat {
    pass: Pass<Request, Account>,
}

impl Model for DestSeat {
    ghost use Rattle.std.specs.Prelude.{◌≡◌, []};
    ghost use Rattle.t1_ring.specs.Queue.{DestSeatState};
    ghost use Rattle.t1_ring.specs.QueueRule.{known, taking};

    ghost Value = { DestSeatState };

    ghost view = { λ s. record { queue = s.pass.table_id; cores = (known s.pass).cores; taken = (known s.pass).taken; back = (known s.pass).back } };

    ghost invariant = { λ s. (s.pass.me.1 ≡ []) × (known s.pass ≡ taking (known s.pass).taken (known s.pass).cores (known s.pass).back) };
}

/// A queue with room for two requests of each core, a seat for each core, in order, and the seat of
/// the destination.
pub fn request_queue(
    alloc: Global,
    cores: u8,
) -> Result<(RequestQueue, Vec<CoreSeat>, DestSeat), AllocError>
    requires some { 0 < cores }
    requires few { cores ≤ 8 }
    ensures capacity { IfOk result (λ r. r.0.capacity ≡ 2 * cores) }
    ensures seats { IfOk result (λ r. r.1.items ≡ seats_from r.0.name 0 cores) }
    ensures dest { IfOk result (λ r. r.2 ≡ record { queue = r.0.name; cores = cores; taken = []; back = [] }) }
{
    let (line, mut pass) = Line::ruled(alloc, 2 * cores as usize)?;
    let mut seats = Vec::with_capacity(alloc, cores as usize)?;
    for _ in 0..cores {
        let core = line.another::<Seats>(&mut pass);
        seats.push_reserved(CoreSeat { pass: core });
    }
    Ok((RequestQueue { line }, seats, DestSeat { pass }))
}

impl RequestQueue {
    /// Pushes a request of the seat's core. It is handed back only where the queue was full at a moment
    /// of the call. Takes no memory. May wait for another thread that is inside the queue.
    pub fn push<R: Wait>(
        &self,
        rt: &R,
        seat: &mut CoreSeat,
        request: Request,
    ) -> Result<(), Request>
        requires queue { seat.old.queue ≡ self.now.name }
        requires core { request.core ≡ seat.old.core }
        ensures seat { (seat.new.queue ≡ seat.old.queue) × (seat.new.core ≡ seat.old.core) }
        ensures ok { OnOk result (seat.new.pushed ≡ seat.old.pushed ++ request ∷ []) }
        ensures full { IfErr result (λ back. (back ≡ request) × (seat.new.pushed ≡ seat.old.pushed) × WasFull self.now) }
    {
        self.line.push_as::<Pushed, R>(rt, &mut seat.pass, request)
    }

    /// Takes the request that is there longest, which is of a core that has a seat. None only where the
    /// queue was empty at a moment of the call. Takes no memory. May wait for another thread that is
    /// inside the queue.
    pub fn pop<R: Wait>(&self, rt: &R, seat: &mut DestSeat) -> Option<Request>
        requires queue { seat.old.queue ≡ self.now.name }
        ensures seat { (seat.new.queue ≡ seat.old.queue) × (seat.new.cores ≡ seat.old.cores) × (seat.new.back ≡ seat.old.back) }
        ensures some { IfSome result (λ request. (seat.new.taken ≡ seat.old.taken ++ request ∷ []) × (request.core < seat.old.cores)) }
        ensures none { IfNone result ((seat.new.taken ≡ seat.old.taken) × WasEmpty) }
    {
        self.line.pop_as::<Taken, R>(rt, &mut seat.pass)
    }

    /// A core gives its seat back: its requests among those that were taken are then known to be the
    /// first of what it pushed. Takes no memory, and does not wait.
    pub fn give_back(&self, core: CoreSeat, dest: &mut DestSeat)
        requires core { core.queue ≡ self.now.name }
        requires dest { dest.old.queue ≡ self.now.name }
        ensures dest { (dest.new.queue ≡ dest.old.queue) × (dest.new.cores ≡ dest.old.cores) × (dest.new.taken ≡ dest.old.taken) }
        ensures back { dest.new.back ≡ returned core.core core.pushed ∷ dest.old.back }
        ensures first { IsPrefix (of_core core.core dest.new.taken) core.pushed }
        ensures all { AreFirst dest.new.taken dest.new.back }
    {
        self.line.absorb::<Seats>(&mut dest.pass, core.pass);
        self.line.learn_as::<First>(&mut dest.pass);
    }

    /// A core gives its seat back and gets it again: its requests among those that were taken are then
    /// known to be the first of what it pushed. Takes no memory, and does not wait.
    pub fn tie(&self, core: &mut CoreSeat, dest: &mut DestSeat)
        requires core { core.old.queue ≡ self.now.name }
        requires dest { dest.old.queue ≡ self.now.name }
        ensures same { (core.new ≡ core.old) × (dest.new ≡ dest.old) }
        ensures first { IsPrefix (of_core core.old.core dest.old.taken) core.old.pushed }
    {
        let spare = self.line.another::<Spare>(&mut dest.pass);
        let pass = mem::replace(&mut core.pass, spare);
        self.line.absorb::<Seats>(&mut dest.pass, pass);
        self.line.learn_as::<First>(&mut dest.pass);
        core.pass = self.line.another::<Again>(&mut dest.pass);
    }
}

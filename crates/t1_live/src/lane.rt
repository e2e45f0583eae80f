//! The ways of a core to the destinations.
ghost use Rattle.std.specs.Prelude.{ℕ, ◌≡◌, ◌<◌, ◌≤◌, ◌++◌, ◌∷◌, [], true, Some, get_or, slice_get, vec_len};
ghost use Rattle.std.specs.Arc.{arc_value};
ghost use mathlib.Core.List.{IsPrefix};
ghost use Rattle.t1_ring.specs.Ends.{Seat};
ghost use Rattle.t1_ring.specs.Queue.{of_core};
ghost use Rattle.t1_ring.specs.Row.{sent_by, rooms_of, tx_marks, has_bit, with_more};
ghost use Rattle.t1_live.specs.Lanes.{core_of, AreOf};

use std::alloc::Global;
use std::marker::Model;
use std::sync::{Arc, Wait};
use t1_packet::Request;
use t1_ring::{CoreSeat, DestSeat, RequestQueue};

/// A core's way to one destination: its seat at the request queue, and the request, if any, that the
/// queue handed back. What is sent is what the seat pushed, and then what is kept. There is room
/// exactly where nothing is kept.
#[derive(Drop)]
pub(crate) struct Lane {
    queue: Arc<RequestQueue, Global>,
    seat: CoreSeat,
    kept: Option<Request>,
}

impl Model for Lane {
    ghost use Rattle.std.specs.Prelude.{◌≡◌, ◌++◌};
    ghost use Rattle.std.specs.Arc.{arc_value};
    ghost use Rattle.t1_packet.specs.Data.{RequestData};
    ghost use Rattle.t1_ring.specs.Ends.{TxState, Seat};
    ghost use Rattle.t1_live.specs.Lanes.{kept_of, room_for_one, IsOfCore};

    ghost Value = { TxState RequestData };

    ghost view = { λ l. record { mark = Seat l.seat.queue l.seat.core; sent = l.seat.pushed ++ kept_of l.kept; room = room_for_one l.kept } };

    ghost invariant = { λ l. (l.seat.queue ≡ (arc_value l.queue).name) × IsOfCore l.seat.core l.kept };
}

impl Lane {
    /// By a seat that pushed nothing yet.
    pub(crate) fn new(queue: Arc<RequestQueue, Global>, seat: CoreSeat) -> Lane
        requires queue { seat.queue ≡ (arc_value queue).name }
        requires unused { seat.pushed ≡ [] }
        ensures mark { result.mark ≡ Seat seat.queue seat.core }
        ensures unused { result.sent ≡ [] }
    {
        Lane {
            queue,
            seat,
            kept: None,
        }
    }

    /// Sends a request, where none is kept. If the queue is full, it is kept.
    fn send<R: Wait>(&mut self, rt: &R, request: Request)
        requires room { 0 < self.old.room }
        requires core { request.core ≡ core_of self.old.mark }
        ensures mark { self.new.mark ≡ self.old.mark }
        ensures sent { self.new.sent ≡ self.old.sent ++ request ∷ [] }
    {
        match self.queue.push(rt, &mut self.seat, request) {
            Ok(()) => {}
            Err(back) => self.kept = Some(back),
        }
    }

    /// Pushes the request that is kept, if there is one and the queue has room: whether it did.
    fn retry<R: Wait>(&mut self, rt: &R) -> bool
        ensures mark { self.new.mark ≡ self.old.mark }
        ensures sent { self.new.sent ≡ self.old.sent }
    {
        let Some(request) = self.kept else {
            return false;
        };
        match self.queue.push(rt, &mut self.seat, request) {
            Ok(()) => {
                self.kept = None;
                true
            }
            Err(_) => false,
        }
    }

    /// 1 where nothing is kept, else 0.
    fn room(&self) -> u16
        ensures { (result ≡ self.now.room) × (result < 2) }
    {
        match self.kept {
            None => 1,
            Some(_) => 0,
        }
    }

    /// What the destination took of the core is the first of what was sent.
    fn tie(&mut self, core: usize, dest: &mut DestSeat)
        requires { self.old.mark ≡ Seat dest.old.queue core }
        ensures same { (self.new ≡ self.old) × (dest.new ≡ dest.old) }
        ensures first { IsPrefix (of_core core dest.old.taken) self.old.sent }
    {
        let _ = core;
        self.queue.tie(&mut self.seat, dest);
    }
}

/// Sends a request of the core by one of its lanes, by which none is kept.
pub(crate) fn send_at<R: Wait>(rt: &R, lanes: &mut Vec<Lane>, at: usize, request: Request)
    requires within { at < vec_len lanes.old }
    requires room { 0 < get_or (rooms_of lanes.old.items) at 0 }
    requires core { AreOf request.core (tx_marks lanes.old.items) }
    ensures marks { tx_marks lanes.new.items ≡ tx_marks lanes.old.items }
    ensures sent { sent_by lanes.new.items ≡ with_more (sent_by lanes.old.items) at request }
{
    lanes[at].send(rt, request);
}

/// Pushes each request that is kept and for which there is room: whether there was one.
pub(crate) fn retry_all<R: Wait>(rt: &R, lanes: &mut Vec<Lane>) -> bool
    ensures marks { tx_marks lanes.new.items ≡ tx_marks lanes.old.items }
    ensures sent { sent_by lanes.new.items ≡ sent_by lanes.old.items }
{
    let mut pushed = false;
    for at in 0..lanes.len() {
        if lanes[at].retry(rt) {
            pushed = true;
        }
    }
    pushed
}

/// A bit for each lane, set exactly where nothing is kept.
pub(crate) fn rooms(lanes: &Vec<Lane>) -> u16
    requires { vec_len lanes.now ≤ 16 }
    ensures room { (j : ℕ) → has_bit result j ≡ true → 0 < get_or (rooms_of lanes.now.items) j 0 }
    ensures free { (j : ℕ) → 0 < get_or (rooms_of lanes.now.items) j 0 → has_bit result j ≡ true }
{
    let count = lanes.len();
    let mut bits = 0u16;
    for k in 0..count {
        bits = 2 * bits + lanes[count - 1 - k].room();
    }
    bits
}

/// What a destination took of the core is the first of what the core sent by one of its lanes.
pub(crate) fn tie_at(lanes: &mut Vec<Lane>, at: usize, core: usize, dest: &mut DestSeat)
    requires within { at < vec_len lanes.old }
    requires seat { slice_get (tx_marks lanes.old.items) at ≡ Some (Seat dest.old.queue core) }
    ensures same { (lanes.new.items ≡ lanes.old.items) × (dest.new ≡ dest.old) }
    ensures first { IsPrefix (of_core core dest.old.taken) (get_or (sent_by lanes.old.items) at []) }
{
    lanes[at].tie(core, dest);
}

//! The two ends of a port.
ghost use Rattle.std.specs.Prelude.{◌≡◌, ◌<◌, ◌≤◌, ◌++◌, ◌∷◌, [], IfOk, OnOk, IsOk, IfErr, IsSome, IfSome, IfNone, length};
ghost use mathlib.Core.List.{IsPrefix};

use rtrb::{Consumer, Producer, PushError, RingBuffer};
use std::alloc::{AllocError, Global};
use std::marker::Model;

/// The sending end of a port.
#[derive(Drop)]
pub struct Tx<T: Drop> {
    end: Producer<T>,
}

impl<T: Drop> Model for Tx<T> {
    ghost use Rattle.rtrb.specs.Ring.{sent, known_free};
    ghost use Rattle.t1_ring.specs.Ends.{TxState, Port};

    ghost Value = { TxState T };

    ghost view = { λ t. record { mark = Port t.end.end.words t.end.end.slots t.end.end.names; sent = sent t.end; room = known_free t.end } };
}

/// The receiving end of a port.
#[derive(Drop)]
pub struct Rx<T: Drop> {
    end: Consumer<T>,
}

impl<T: Drop> Model for Rx<T> {
    ghost use Rattle.rtrb.specs.Ring.{received, known_items};
    ghost use Rattle.t1_ring.specs.Ends.{RxState, Port};

    ghost Value = { RxState T };

    ghost view = { λ r. record { mark = Port r.end.end.words r.end.end.slots r.end.end.names; received = received r.end; known = known_items r.end } };
}

/// A port of so many slots, as its sending and its receiving end.
pub fn port<T: Drop>(alloc: Global, capacity: usize) -> Result<(Tx<T>, Rx<T>), AllocError>
    ensures one { IfOk result (λ ends. ends.0.mark ≡ ends.1.mark) }
    ensures sent { IfOk result (λ ends. (ends.0.sent ≡ []) × (ends.0.room ≡ capacity)) }
    ensures received { IfOk result (λ ends. (ends.1.received ≡ []) × (ends.1.known ≡ [])) }
{
    let (producer, consumer) = RingBuffer::new(alloc, capacity)?;
    Ok((Tx { end: producer }, Rx { end: consumer }))
}

impl<T: Drop> Tx<T> {
    /// Sends a value. Where no free slot is known, the value comes back, and nothing was sent. Takes no
    /// memory.
    pub fn push(&mut self, value: T) -> Result<(), T>
        ensures mark { self.new.mark ≡ self.old.mark }
        ensures ok { OnOk result (self.new.sent ≡ self.old.sent ++ value ∷ []) }
        ensures full { IfErr result (λ back. (back ≡ value) × (self.new.sent ≡ self.old.sent) × (self.new.room ≡ 0)) }
        ensures succeeds { 0 < self.old.room → IsOk result }
    {
        match self.end.push(value) {
            Ok(()) => Ok(()),
            Err(PushError::Full(back)) => Err(back),
        }
    }

    /// The free slots that are then known. Takes no memory.
    pub fn room(&mut self) -> usize
        ensures mark { self.new.mark ≡ self.old.mark }
        ensures sent { self.new.sent ≡ self.old.sent }
        ensures more { self.old.room ≤ self.new.room }
        ensures value { result ≡ self.new.room }
    {
        self.end.slots()
    }
}

impl<T: Drop> Rx<T> {
    /// Takes the next item: the first that was known, if one was. None only where none is known. Takes
    /// no memory.
    pub fn pop(&mut self) -> Option<T>
        ensures mark { self.new.mark ≡ self.old.mark }
        ensures some { IfSome result (λ item. (self.new.received ≡ self.old.received ++ item ∷ []) × IsPrefix self.old.known (item ∷ self.new.known)) }
        ensures none { IfNone result ((self.new.received ≡ self.old.received) × (self.new.known ≡ [])) }
        ensures succeeds { 0 < length self.old.known → IsSome result }
    {
        match self.end.pop() {
            Ok(item) => Some(item),
            Err(_) => None,
        }
    }
}

/// Brings the two ends of one port together: what was sent is what was received, and then what is known.
/// Takes no memory.
pub fn tie<T: Drop>(tx: &mut Tx<T>, rx: &mut Rx<T>)
    requires { tx.old.mark ≡ rx.old.mark }
    ensures tied { tx.new.sent ≡ rx.new.received ++ rx.new.known }
    ensures tx { (tx.new.mark ≡ tx.old.mark) × (tx.new.sent ≡ tx.old.sent) }
    ensures rx { (rx.new.mark ≡ rx.old.mark) × (rx.new.received ≡ rx.old.received) × IsPrefix rx.old.known rx.new.known }
{
    let _ = rx.end.slots_beside(&mut tx.end);
}

//! The queue of the strands of a core.
ghost use Rattle.std.specs.Prelude.{ℕ, ◌≡◌, ◌+◌, ◌<◌, ◌≤◌, length, slice_index, slice_get, IfSome, IfNone, Some, None};
ghost use Rattle.t1_select.specs.Queue.{counted, first_ready, moved_last, turns_after, picked_of, is_ready};

use arrayvec::ArrayVec;
use std::marker::Model;

/// The strands of a core, the least recently picked first, seen as the list of their numbers.
#[derive(Drop)]
pub struct Select {
    turns: ArrayVec<u8, 8>,
}

impl Model for Select {
    ghost use Rattle.std.specs.Prelude.{ℕ, List};
    ghost use Rattle.t1_select.specs.Queue.{IsQueue};

    ghost Value = { List ℕ };

    ghost view = { λ s. s.turns.items };

    ghost invariant = { λ s. IsQueue s.turns.items };
}

impl Select {
    ghost use Rattle.t1_select.specs.Queue.{IsQueue};

    /// The queue of so many strands, in the order of their numbers.
    #[tactic(auto, using(crate::proofs::Counts::counted_more))]
    pub fn new(strands: u8) -> Select
        requires some { 1 ≤ strands }
        requires few { strands ≤ 8 }
        ensures { result ≡ counted 0 strands }
    {
        let mut turns = ArrayVec::new();
        for strand in 0..strands {
            turns.push(strand);
        }
        Select { turns }
    }

    /// How many strands there are.
    pub fn len(&self) -> usize
        ensures value { result ≡ length self.now }
        ensures few { result ≤ 8 }
        ensures queue { IsQueue self.now }
    {
        self.turns.len()
    }

    /// The strand at a place of the queue.
    pub fn at(&self, place: usize) -> u8
        requires { place < length self.now }
        ensures value { slice_get self.now place ≡ Some result }
        ensures strand { result < length self.now }
    {
        self.turns.as_slice()[place]
    }

    /// Moves the strand at a place to the end of the queue.
    #[tactic(auto, using(crate::proofs::Moves::queue_moved, crate::proofs::Moves::last_stays))]
    pub fn move_last(&mut self, place: usize)
        requires { place < length self.old }
        ensures { self.new ≡ moved_last self.old place }
    {
        let last = self.turns.len() - 1;
        if place < last {
            let strand = self.turns.remove(place);
            self.turns.push(strand);
        }
    }

    /// The place of the first strand whose bit is set.
    #[tactic(auto, using(crate::proofs::Places::first_ready_is, crate::proofs::Places::first_ready_none))]
    fn first_ready(&self, ready: u8) -> Option<usize>
        ensures place { result ≡ first_ready (is_ready ready) self.now }
        ensures within { IfSome result (λ p. p < length self.now) }
    {
        for (place, strand) in self.turns.as_slice().iter().enumerate() {
            if (ready >> *strand) % 2 == 1 {
                return Some(place);
            }
        }
        None
    }

    /// Picks the least recently picked strand whose bit in `ready` is set; none exactly where no
    /// bit of a strand is set, and then nothing changes.
    #[tactic(auto, unfolding(crate::specs::Queue::turns_after, crate::specs::Queue::picked_of))]
    pub fn pick(&mut self, ready: u8) -> Option<u8>
        ensures turns { self.new ≡ turns_after self.old ready }
        ensures picked { result ≡ picked_of self.old ready }
        ensures strand { IfSome result (λ s. s < length self.old) }
        ensures none { IfNone result (self.new ≡ self.old) }
    {
        let place = self.first_ready(ready)?;
        let strand = self.at(place);
        self.move_last(place);
        Some(strand)
    }
}

//! The rings of the serial machine.
ghost use Rattle.std.specs.Prelude.{◌≡◌, ◌<◌, ◌≤◌, ◌++◌, ◌∷◌, [], length, nat_lt, IfOk, IfSome, IfNone, drop};
ghost use Rattle.t1_machine.specs.Rings.{is_empty};

use circular_buffer::HeapCircularBuffer;
use std::alloc::{AllocError, Global};
use std::marker::Model;

/// A ring of at most `MOST` things, seen as a list from the oldest to the youngest.
#[derive(Drop)]
pub struct Ring<T, const MOST: usize> {
    items: HeapCircularBuffer<T>,
}

impl<T, const MOST: usize> Model for Ring<T, MOST> {
    ghost use Rattle.std.specs.Prelude.{◌≡◌, List};
    ghost use Rattle.std.specs.Coded.{coded_list};

    ghost Value = { List T };

    ghost coded = { coded_list T.code };

    ghost view = { λ r. r.items.items };

    ghost invariant = { λ r. r.items.capacity ≡ MOST };
}

impl<T, const MOST: usize> Ring<T, MOST> {
    /// An empty ring, with all its memory.
    pub fn new(alloc: Global) -> Result<Ring<T, MOST>, AllocError>
    where
        T: Drop,
        ensures { IfOk result (λ r. r ≡ []) }
    {
        Ok(Ring {
            items: HeapCircularBuffer::with_capacity(alloc, MOST)?,
        })
    }

    pub fn has_room(&self) -> bool
        ensures { result ≡ nat_lt (length self.now) MOST }
    {
        self.items.len() < MOST
    }

    pub fn is_empty(&self) -> bool
        ensures { result ≡ is_empty self.now }
    {
        self.items.is_empty()
    }

    /// Appends the youngest.
    #[tactic(auto, using(crate::proofs::Ends::keep_all))]
    pub fn push(&mut self, item: T)
    where
        T: Drop,
        requires { length self.old < MOST }
        ensures { self.new ≡ self.old ++ item ∷ [] }
    {
        let _ = self.items.push_back(item);
    }

    /// The oldest.
    #[tactic(auto, using(crate::proofs::Ends::first_rest, crate::proofs::Ends::first_none))]
    pub fn front(&self) -> Option<&T>
        ensures some { IfSome result (λ item. self.now ≡ item.now ∷ drop 1 self.now) }
        ensures none { IfNone result (self.now ≡ []) }
    {
        self.items.front()
    }

    /// Takes out the oldest.
    #[tactic(auto, using(crate::proofs::Ends::first_rest, crate::proofs::Ends::first_none))]
    pub fn pop(&mut self) -> Option<T>
        ensures some { IfSome result (λ item. self.old ≡ item ∷ self.new) }
        ensures none { IfNone result ((self.old ≡ []) × (self.new ≡ [])) }
    {
        self.items.pop_front()
    }
}

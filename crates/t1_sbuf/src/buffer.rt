//! The store buffer.
ghost use Rattle.std.specs.Prelude.{◌≡◌, ◌+◌, ◌*◌, ◌<◌, ◌≤◌, ◌^◌, ◌++◌, ◌∷◌, [], length, slice_get, IsSome, IsTrue, ◌↔◌, false};
ghost use Rattle.t1_num.specs.Memory.{IsSize};
ghost use Rattle.t1_sbuf.specs.Access.{IsAligned};

use crate::entry::{Entry, Look};
use crate::looks::look_at;
use arrayvec::ArrayVec;
use std::marker::Model;

/// At most eight stores, seen as the list of their entries from the oldest. The cursor stands at the
/// oldest one that is not sent.
#[derive(Drop)]
pub struct StoreBuffer {
    entries: ArrayVec<Entry, 8>,
    cursor: u8,
}

impl Model for StoreBuffer {
    ghost use Rattle.std.specs.Prelude.{List, ◌≡◌};
    ghost use Rattle.t1_sbuf.specs.declared.entry.Entry.{Entry};
    ghost use Rattle.t1_sbuf.specs.Entries.{AreEntries, next_place};

    ghost Value = { List Entry };

    ghost view = { λ b. b.entries.items };

    ghost invariant = { λ b. AreEntries b.entries.items × (b.cursor ≡ next_place b.entries.items) };
}

impl StoreBuffer {
    ghost use Rattle.t1_sbuf.specs.Entries.{AreEntries, IsStore, IsOldestSent, next_to_send_of, sent_next};
    ghost use Rattle.t1_sbuf.specs.Looks.{look_of};

    /// An empty buffer.
    pub fn new() -> StoreBuffer
        ensures { result ≡ [] }
    {
        StoreBuffer {
            entries: ArrayVec::new(),
            cursor: 0,
        }
    }

    /// How many stores it holds.
    #[inline]
    pub fn len(&self) -> usize
        ensures value { result ≡ length self.now }
        ensures entries { AreEntries self.now }
    {
        self.entries.len()
    }

    /// Whether it holds none.
    #[inline]
    pub fn is_empty(&self) -> bool
        ensures { IsTrue result ↔ (self.now ≡ []) }
    {
        self.entries.is_empty()
    }

    /// The oldest store.
    #[inline]
    pub fn oldest(&self) -> Option<Entry>
        ensures { result ≡ slice_get self.now 0 }
    {
        self.entries.as_slice().first().copied()
    }

    /// Appends a store, which is the youngest then.
    #[tactic(auto, using(crate::proofs::Sent::entries_push))]
    pub fn push(&mut self, entry: Entry)
        requires room { length self.old < 8 }
        requires store { IsStore entry }
        requires unsent { entry.sent ≡ false }
        ensures { self.new ≡ self.old ++ entry ∷ [] }
    {
        self.entries.push(entry);
    }

    /// What the buffer says of an access of `size` bytes at `addr`, by the youngest entry that
    /// overlaps it.
    #[inline]
    #[tactic(auto, using(crate::proofs::Sent::look_of_none))]
    pub fn look(&self, addr: u64, size: u8) -> Look
        requires size { IsSize size }
        requires aligned { IsAligned addr size }
        ensures { result ≡ look_of self.now addr size }
    {
        if self.is_empty() {
            Look::Clear
        } else {
            look_at(self.entries.as_slice(), addr, size)
        }
    }

    /// The store that may be sent next: the oldest that is not sent. None exactly where every store
    /// is sent, or one that is sent goes to another destination.
    #[inline]
    pub fn next_to_send(&self) -> Option<Entry>
        ensures { result ≡ next_to_send_of self.now }
    {
        let entries = self.entries.as_slice();
        let next = entries.get(self.cursor as usize)?;
        if self.cursor > 0 && entries[0].dest != next.dest {
            None
        } else {
            Some(*next)
        }
    }

    /// Marks the store that may be sent next as sent.
    pub fn sent(&mut self)
        requires { IsSome (next_to_send_of self.old) }
        ensures marked { self.new ≡ sent_next self.old }
        ensures oldest { IsOldestSent self.new }
        ensures few { length self.new ≤ 8 }
    {
        let Some(next) = self.entries.get_mut(self.cursor as usize) else {
            return;
        };
        next.sent = true;
        self.cursor += 1;
    }

    /// Takes out the oldest store, which is acknowledged.
    pub fn ack(&mut self) -> Entry
        requires { IsOldestSent self.old }
        ensures { self.old ≡ result ∷ self.new }
    {
        self.cursor -= 1;
        self.entries.remove(0)
    }
}

//! A list of a fixed room.
ghost use Rattle.std.specs.Prelude.{◌≡◌, IfOk};
ghost use Rattle.t1_io.specs.Held.{Grew};
ghost use Rattle.t1_io.specs.Store.{empty_store, kept_after, told};

use crate::faults::OutOfMemory;
use std::alloc::Global;
use std::marker::Model;

/// The first bytes that were given, as many as fit the room, and the number of all of them.
#[derive(Drop)]
pub(crate) struct Store {
    first: Vec<u8>,
    count: u64,
    room: usize,
}

impl Model for Store {
    ghost use Rattle.std.specs.Prelude.{◌≡◌, ◌≤◌, min, length, vec_capacity};
    ghost use Rattle.t1_io.specs.Store.{Kept};

    ghost Value = { Kept };

    ghost view = { λ s. record { first = s.first.items; count = s.count; room = s.room } };

    ghost invariant = { λ s. (length s.first.items ≡ min s.count s.room) × (s.room ≤ vec_capacity s.first) };
}

impl Store {
    /// Takes the memory for the whole room.
    pub(crate) fn new(alloc: Global, room: usize) -> Result<Store, OutOfMemory>
        ensures { IfOk result (λ s. s ≡ empty_store room) }
    {
        let first = Vec::with_capacity(alloc, room)?;
        Ok(Store {
            first,
            count: 0,
            room,
        })
    }

    /// The first bytes: all of them, while they fit the room.
    pub(crate) fn as_slice(&self) -> &[u8]
        ensures { result.now ≡ self.now.first }
    {
        self.first.as_slice()
    }

    /// Keeps what fits of more bytes, and counts them.
    pub(crate) fn put(&mut self, bytes: &[u8])
        ensures after { self.new ≡ kept_after self.old bytes.now }
        ensures grew { Grew (told self.old) (told self.new) bytes.now }
    {
        let spare = self.room - self.first.len();
        let fitting = bytes.split_at(bytes.len().min(spare)).0;
        self.first.extend_from_slice(fitting).unwrap();
        self.count = self.count.saturating_add(bytes.len() as u64);
    }
}

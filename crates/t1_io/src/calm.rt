//! A source and a sink over lists that never fail: their count of faults is always 0.
ghost use Rattle.std.specs.Prelude.{◌≡◌, ◌<◌, ◌^◌, min, length, drop, IsOk, IfOk, OnErr};
ghost use Rattle.std.specs.Io.{ReadsAtMost, WritesAtMost};
ghost use Rattle.std.specs.Io.KnownBytes.{ReadConsumes};
ghost use Rattle.t1_io.specs.Causes.{HasCause};
ghost use Rattle.t1_io.specs.Held.{WriteGrew};
ghost use Rattle.t1_io.specs.Store.{empty_store, kept_after, told};

use crate::faults::{Failed, OutOfMemory};
use crate::sinks::Sink;
use crate::sources::Source;
use crate::store::Store;
use crate::unread::Unread;
use std::alloc::Global;
use std::marker::Model;

/// Bytes in memory. A contract sees those that are left.
#[derive(Drop)]
pub struct CalmSource {
    unread: Unread,
}

impl Model for CalmSource {
    ghost use Rattle.std.specs.Prelude.{ℕ, List};

    ghost Value = { List ℕ };

    ghost view = { λ s. s.unread };
}

impl CalmSource {
    /// A source of these bytes.
    pub fn new(bytes: Vec<u8>) -> CalmSource
        ensures { result ≡ bytes.items }
    {
        CalmSource {
            unread: Unread::new(bytes),
        }
    }
}

impl Source for CalmSource {
    ghost use Rattle.std.specs.Prelude.{Some};

    ghost left = { λ s. Some s };

    ghost faults = { λ _. 0 };

    fn read(&mut self, piece: &mut [u8]) -> Result<usize, Failed>
        ensures bound { ReadsAtMost result piece.new }
        ensures bytes { ReadConsumes (Some self.old) (Some self.new) result piece.new }
        ensures lent { OnErr result (piece.new ≡ piece.old) }
        ensures cause { HasCause 0 0 result }
        ensures fits { 0 < 2 ^ 64 }

        // It never fails, and gives all that fits the piece.
        ensures calm { IsOk result }
        ensures count { IfOk result (λ n. n ≡ min (length self.old) (length piece.old)) }
    {
        Ok(self.unread.give(piece.len(), piece))
    }
}

/// A list in memory. It keeps the first bytes that fit its room and the number of all of them, and
/// tells what it holds while that number is at most the room.
#[derive(Drop)]
pub struct CalmSink {
    store: Store,
}

impl Model for CalmSink {
    ghost use Rattle.t1_io.specs.Store.{Kept};

    ghost Value = { Kept };

    ghost view = { λ s. s.store };
}

impl CalmSink {
    /// An empty sink. All the memory for the room is taken here.
    pub fn new(alloc: Global, room: usize) -> Result<CalmSink, OutOfMemory>
        ensures { IfOk result (λ s. s ≡ empty_store room) }
    {
        Ok(CalmSink {
            store: Store::new(alloc, room)?,
        })
    }

    /// The bytes that were written, or as many of the first of them as fit the room.
    pub fn as_slice(&self) -> &[u8]
        ensures { result.now ≡ self.now.first }
    {
        self.store.as_slice()
    }
}

impl Sink for CalmSink {
    ghost held = { told };

    ghost faults = { λ _. 0 };

    fn write(&mut self, piece: &[u8]) -> Result<usize, Failed>
        ensures bound { WritesAtMost result piece.now }
        ensures bytes { WriteGrew (told self.old) (told self.new) result piece.now }
        ensures moves { 0 < length piece.now → IfOk result (λ n. 0 < n) }
        ensures cause { HasCause 0 0 result }
        ensures fits { 0 < 2 ^ 64 }

        // It never fails, and takes the whole piece.
        ensures count { result ≡ Ok (length piece.now) }
        ensures taken { self.new ≡ kept_after self.old piece.now }
    {
        self.store.put(piece);
        Ok(piece.len())
    }
}

//! A source and a sink over lists, for tests: of each a call takes no more bytes than a piece, and
//! the calls that are named fail.
ghost use Rattle.std.specs.Prelude.{◌≡◌, ◌↔◌, ◌≤◌, ◌<◌, ◌-◌, ◌^◌, min, length, take, drop, Contains, IsErr, IsOk, IfOk, OnErr};
ghost use Rattle.std.specs.Io.{ReadsAtMost, WritesAtMost};
ghost use Rattle.std.specs.Io.KnownBytes.{ReadConsumes};
ghost use Rattle.t1_io.specs.Causes.{HasCause};
ghost use Rattle.t1_io.specs.Held.{WriteGrew};
ghost use Rattle.t1_io.specs.Plan.{fresh_plan, next_call, plan_after_ok, plan_after_failed};
ghost use Rattle.t1_io.specs.Store.{empty_store, kept_after, told};

use crate::faults::{Failed, OutOfMemory};
use crate::plan::Plan;
use crate::sinks::Sink;
use crate::sources::Source;
use crate::store::Store;
use crate::unread::Unread;
use std::alloc::Global;
use std::marker::Model;

/// Bytes in memory that are read in pieces, with calls that fail.
///
/// A contract sees the bytes that are left, the most bytes of one call, and the calls that fail.
#[derive(Drop)]
pub struct MemSource {
    unread: Unread,
    piece: usize,
    plan: Plan,
}

impl Model for MemSource {
    ghost use Rattle.std.specs.Prelude.{◌≤◌};
    ghost use Rattle.t1_io.specs.Memory.{SourceState};

    ghost Value = { SourceState };

    ghost view = { λ s. record { left = s.unread; piece = s.piece; plan = s.plan } };

    ghost invariant = { λ s. 1 ≤ s.piece };
}

impl MemSource {
    /// A source of these bytes. A call gives at most `piece` of them, and answers [`Failed`] where
    /// its number, counted from 1, is in `fails`.
    pub fn new(bytes: Vec<u8>, piece: usize, fails: Vec<u32>) -> MemSource
        requires { 1 ≤ piece }
        ensures { result ≡ record { left = bytes.items; piece = piece; plan = fresh_plan fails.items } }
    {
        MemSource {
            unread: Unread::new(bytes),
            piece,
            plan: Plan::new(fails),
        }
    }
}

impl Source for MemSource {
    ghost use Rattle.std.specs.Prelude.{Some};

    ghost left = { λ s. Some s.left };

    ghost faults = { λ s. s.plan.faults };

    fn read(&mut self, piece: &mut [u8]) -> Result<usize, Failed>
        ensures bound { ReadsAtMost result piece.new }
        ensures bytes { ReadConsumes (Some self.old.left) (Some self.new.left) result piece.new }
        ensures lent { OnErr result (piece.new ≡ piece.old) }
        ensures cause { HasCause self.old.plan.faults self.new.plan.faults result }
        ensures fits { self.new.plan.faults < 2 ^ 64 }

        // When it fails, how much it gives, and what it counts.
        ensures named { IsErr result ↔ Contains self.old.plan.fails (next_call self.old.plan.calls) }
        ensures past { 2 ^ 32 - 1 ≤ self.old.plan.calls → IsOk result }
        ensures count { IfOk result (λ n.
            n ≡ min (min (length self.old.left) self.old.piece) (length piece.old)) }
        ensures given { IfOk result (λ n. self.new ≡ record self.old {
          left = drop n self.old.left;
          plan = plan_after_ok self.old.plan;
        }) }
        ensures failed { OnErr result
            (self.new ≡ record self.old { plan = plan_after_failed self.old.plan }) }
    {
        if self.plan.next_fails() {
            return Err(Failed);
        }
        Ok(self.unread.give(self.piece, piece))
    }
}

/// A list in memory that is written in pieces, with calls that fail.
///
/// It keeps the first bytes that fit its room and the number of all of them, and tells what it
/// holds while that number is at most the room.
#[derive(Drop)]
pub struct MemSink {
    store: Store,
    piece: usize,
    plan: Plan,
}

impl Model for MemSink {
    ghost use Rattle.std.specs.Prelude.{◌≤◌};
    ghost use Rattle.t1_io.specs.Memory.{SinkState};

    ghost Value = { SinkState };

    ghost view = { λ s. record { kept = s.store; piece = s.piece; plan = s.plan } };

    ghost invariant = { λ s. 1 ≤ s.piece };
}

impl MemSink {
    /// An empty sink. A call takes at most `piece` bytes, and answers [`Failed`] where its number,
    /// counted from 1, is in `fails`. All the memory for the room is taken here.
    pub fn new(
        alloc: Global,
        room: usize,
        piece: usize,
        fails: Vec<u32>,
    ) -> Result<MemSink, OutOfMemory>
        requires { 1 ≤ piece }
        ensures { IfOk result (λ s. s ≡ record { kept = empty_store room; piece = piece; plan = fresh_plan fails.items }) }
    {
        Ok(MemSink {
            store: Store::new(alloc, room)?,
            piece,
            plan: Plan::new(fails),
        })
    }

    /// The bytes that were written, or as many of the first of them as fit the room.
    pub fn as_slice(&self) -> &[u8]
        ensures { result.now ≡ self.now.kept.first }
    {
        self.store.as_slice()
    }
}

impl Sink for MemSink {
    ghost held = { λ s. told s.kept };

    ghost faults = { λ s. s.plan.faults };

    fn write(&mut self, piece: &[u8]) -> Result<usize, Failed>
        ensures bound { WritesAtMost result piece.now }
        ensures bytes { WriteGrew (told self.old.kept) (told self.new.kept) result piece.now }
        ensures moves { 0 < length piece.now → IfOk result (λ n. 0 < n) }
        ensures cause { HasCause self.old.plan.faults self.new.plan.faults result }
        ensures fits { self.new.plan.faults < 2 ^ 64 }

        // When it fails, how much it takes, and what it counts.
        ensures named { IsErr result ↔ Contains self.old.plan.fails (next_call self.old.plan.calls) }
        ensures past { 2 ^ 32 - 1 ≤ self.old.plan.calls → IsOk result }
        ensures count { IfOk result (λ n. n ≡ min (length piece.now) self.old.piece) }
        ensures taken { IfOk result (λ n. self.new ≡ record self.old {
          kept = kept_after self.old.kept (take n piece.now);
          plan = plan_after_ok self.old.plan;
        }) }
        ensures failed { OnErr result
            (self.new ≡ record self.old { plan = plan_after_failed self.old.plan }) }
    {
        if self.plan.next_fails() {
            return Err(Failed);
        }
        let count = piece.len().min(self.piece);
        self.store.put(piece.split_at(count).0);
        Ok(count)
    }
}

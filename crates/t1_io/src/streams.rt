//! Sources and sinks over the readers and writers of std.
//!
//! Real streams promise nothing of their bytes, so these tell no content. What the reader or
//! writer beneath tells of its own bytes is in the clauses of `read` and `write`.
ghost use Rattle.std.specs.Prelude.{◌≡◌, ◌<◌, ◌^◌, length, take, None, IfOk, OnErr};
ghost use Rattle.std.specs.Io.{ReadsAtMost, WritesAtMost};
ghost use Rattle.std.specs.Io.KnownBytes.{Appends, ReadConsumes};
ghost use Rattle.t1_io.specs.Causes.{HasCause, risen};
ghost use Rattle.t1_io.specs.Held.{WriteGrew};

use crate::faults::Failed;
use crate::sinks::Sink;
use crate::sources::Source;
use std::io::{Read, Write};
use std::marker::Model;

/// The most bytes of one read.
const BLOCK: usize = 65_536;

/// A reader of std, with a count of its faults: each `Err` is one.
#[derive(Drop)]
pub struct StdSource<R: Read> {
    reader: R,
    faults: u64,
}

impl<R: Read> Model for StdSource<R> {
    ghost use Rattle.std.specs.Prelude.{◌<◌, ◌^◌};
    ghost use Rattle.t1_io.specs.Streams.{ReaderState};

    ghost Value = { ReaderState };

    ghost view = { λ s. record { remaining = R.remaining s.reader; faults = s.faults } };

    ghost invariant = { λ s. s.faults < 2 ^ 64 };
}

impl<R: Read> StdSource<R> {
    /// A source of what the reader gives.
    pub fn new(reader: R) -> StdSource<R>
        ensures { result ≡ record { remaining = R.remaining reader; faults = 0 } }
    {
        StdSource { reader, faults: 0 }
    }
}

impl<R: Read> Source for StdSource<R> {
    ghost left = { λ _. None };

    ghost faults = { λ s. s.faults };

    // A reader that fails may have written into what it was lent, so it is lent a block of ours.
    fn read(&mut self, piece: &mut [u8]) -> Result<usize, Failed>
        ensures bound { ReadsAtMost result piece.new }
        ensures bytes { ReadConsumes None None result piece.new }
        ensures lent { OnErr result (piece.new ≡ piece.old) }
        ensures cause { HasCause self.old.faults self.new.faults result }
        ensures fits { self.new.faults < 2 ^ 64 }

        // What the reader tells, and what is counted.
        ensures told { ReadConsumes self.old.remaining self.new.remaining result piece.new }
        ensures failed { OnErr result (self.new.faults ≡ risen self.old.faults) }
    {
        let mut block = [0; BLOCK];
        let most = piece.len().min(BLOCK);
        match self.reader.read(&mut block[..most]) {
            Ok(count) => {
                piece[..count].copy_from_slice(&block[..count]);
                Ok(count)
            }
            Err(_) => {
                self.faults = self.faults.saturating_add(1);
                Err(Failed)
            }
        }
    }
}

/// A writer of std, with a count of its faults: each `Err` is one, and each write of 0 bytes of a
/// piece that is not empty. It is flushed at each write, before the answer.
#[derive(Drop)]
pub struct StdSink<W: Write> {
    writer: W,
    faults: u64,
}

impl<W: Write> Model for StdSink<W> {
    ghost use Rattle.std.specs.Prelude.{◌<◌, ◌^◌};
    ghost use Rattle.t1_io.specs.Streams.{WriterState};

    ghost Value = { WriterState };

    ghost view = { λ s. record { contents = W.contents s.writer; faults = s.faults } };

    ghost invariant = { λ s. s.faults < 2 ^ 64 };
}

impl<W: Write> StdSink<W> {
    /// A sink that hands on to the writer.
    pub fn new(writer: W) -> StdSink<W>
        ensures { result ≡ record { contents = W.contents writer; faults = 0 } }
    {
        StdSink { writer, faults: 0 }
    }

    /// Counts a fault.
    fn fail(&mut self) -> Failed
        ensures { self.new ≡ record self.old { faults = risen self.old.faults } }
    {
        self.faults = self.faults.saturating_add(1);
        Failed
    }
}

impl<W: Write> Sink for StdSink<W> {
    ghost held = { λ _. None };

    ghost faults = { λ s. s.faults };

    fn write(&mut self, piece: &[u8]) -> Result<usize, Failed>
        ensures bound { WritesAtMost result piece.now }
        ensures bytes { WriteGrew None None result piece.now }
        ensures moves { 0 < length piece.now → IfOk result (λ n. 0 < n) }
        ensures cause { HasCause self.old.faults self.new.faults result }
        ensures fits { self.new.faults < 2 ^ 64 }

        // What the writer tells, and what is counted.
        ensures told { IfOk result (λ n.
            Appends self.old.contents self.new.contents (take n piece.now)) }
        ensures failed { OnErr result (self.new.faults ≡ risen self.old.faults) }
    {
        let Ok(count) = self.writer.write(piece) else {
            return Err(self.fail());
        };
        if count == 0 && !piece.is_empty() {
            return Err(self.fail());
        }
        if self.writer.flush().is_err() {
            return Err(self.fail());
        }
        Ok(count)
    }
}

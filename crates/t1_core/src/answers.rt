//! What a core answers of a step.

use t1_packet::Request;

/// Why a strand waits.
#[derive(Clone, Copy, Debug, PartialEq, Eq)]
pub enum Wait {
    /// Its buffer holds eight stores.
    Full,
    /// Its buffer holds a store, which a barrier, an atomic or a load from I/O waits for.
    NotEmpty,
    /// The store at this place of its buffer, from the oldest, holds some bytes of its load, not all.
    Overlap(u8),
    /// The request ring to this destination is full.
    NoRoom(u8),
    /// A fetch, load or atomic of it is out.
    Reply,
    /// It has ended.
    Ended,
}

/// What an exec did.
#[derive(Clone, Copy, Debug, PartialEq, Eq)]
pub enum Did {
    /// The strand went on, and nothing was sent.
    Moved,
    /// This request goes to this destination.
    Sent { dest: u8, request: Request },
    Waits(Wait),
}

/// What a drain did.
#[derive(Clone, Copy, Debug, PartialEq, Eq)]
pub enum Drained {
    /// This store goes to this destination.
    Sent { dest: u8, request: Request },
    /// The buffer is empty.
    Empty,
    /// Every store is out, or one is to another destination than that of the oldest that is not.
    Out,
    /// The request ring to this destination is full.
    NoRoom(u8),
}

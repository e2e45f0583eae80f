//! What a need comes to, and what a strand does next.

use crate::answers::Wait;
use crate::phase::Phase;
use t1_packet::Op;

/// What a strand would do for its instruction, as far as its own buffer tells.
#[derive(Clone, Copy)]
pub enum Plan {
    Waits(Wait),
    Trap(u16),
    /// The instruction applies.
    Act,
    Halt,
    Membar(u8),
    Flush,
    Store { addr: u64, size: u8, value: u64 },
    /// A load that the buffer answers.
    Forward { addr: u64, size: u8, value: u64 },
    /// A load that the cache may answer.
    Look { addr: u64, size: u8 },
    /// A load from I/O, or an atomic.
    Send { addr: u64 },
}

/// What a strand would do next.
#[derive(Clone, Copy)]
pub enum Next {
    /// It goes on, and needs no ring.
    Moves,
    Waits(Wait),
    /// It asks for this where the ring has room, and is in this phase then.
    Asks { op: Op, phase: Phase },
}

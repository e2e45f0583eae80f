//! The items of a trace.

/// What an item is.
#[derive(Clone, Copy, Debug, PartialEq, Eq)]
pub enum ItemKind {
    /// The read of an instruction word.
    Fetch,
    Load,
    Store,
    /// One access that reads and may write: a compare that fails does not.
    Atomic { wrote: bool },
    Membar,
    Flush,
}

/// Where an access stands among the accesses of all strands.
#[derive(Clone, Copy, Debug, PartialEq, Eq)]
pub enum How {
    /// Nothing is said of where: a membar, a flush, or an access that no machine has placed.
    Unplaced,
    /// A load that its own store buffer answered, at this time of its core.
    Forward { time: u32 },
    /// A read that an L1 cache answered, at this time of its core.
    Hit { time: u32 },
    /// An access that a destination served: the index of its commit, and its core's time when it
    /// was sent.
    Commit { index: u32, seen: u32 },
}

/// One item of a strand's trace: an access, or a barrier.
///
/// `got` is the value read and `put` the value written, as the bytes in address order in a
/// big-endian number; a field with no meaning for the kind is 0. A membar keeps its mask in
/// `size`.
#[derive(Clone, Copy, Debug, PartialEq, Eq)]
pub struct Item {
    pub kind: ItemKind,
    pub addr: u64,
    pub size: u8,
    pub got: u64,
    pub put: u64,
    pub how: How,
}

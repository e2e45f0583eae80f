//! The entries of a store buffer, and what a look at it answers.

/// A store: the number of its item in the strand's trace, its address, its size (1, 2, 4 or 8
/// bytes), its value as a big-endian number, whether it was sent, and the number of its destination,
/// which the buffer only compares.
#[derive(Clone, Copy, Debug, PartialEq, Eq, Default)]
pub struct Entry {
    pub item: u32,
    pub addr: u64,
    pub size: u8,
    pub value: u64,
    pub sent: bool,
    pub dest: u8,
}

/// What a buffer says of a load.
#[derive(Clone, Copy, Debug, PartialEq, Eq)]
pub enum Look {
    /// No entry overlaps it.
    Clear,
    /// The youngest entry that overlaps it holds all its bytes, which are this number.
    Covers(u64),
    /// The youngest entry that overlaps it, at this place from the oldest, does not hold all its
    /// bytes.
    Overlaps(u8),
}

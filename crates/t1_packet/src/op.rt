//! What a request asks.

/// What a request asks of a destination. Values are the bytes in address order as a big-endian
/// number; a way is the one that the line is to take in the cache that it fills.
#[derive(Clone, Copy, Debug, PartialEq, Eq)]
pub enum Op {
    /// A word of four bytes, and its line of the instruction cache.
    Fetch {
        addr: u64,
        way: u8,
    },
    /// So many bytes, and, where they are of RAM, their line of the data cache.
    Load {
        addr: u64,
        size: u8,
        way: u8,
    },
    Store {
        addr: u64,
        size: u8,
        value: u64,
    },
    /// Reads the old value and writes the new one.
    Swap {
        addr: u64,
        size: u8,
        new: u64,
    },
    /// Reads the old value, and writes the new one where the old is the expected.
    Cas {
        addr: u64,
        size: u8,
        expect: u64,
        new: u64,
    },
}

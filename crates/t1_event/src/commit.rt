//! The records of the log.

use t1_packet::{Kills, Op};

/// A commit: an access that a destination served and the crossbar admitted. Its index is its place
/// in the log.
///
/// The strand is counted over all cores, and `seen` is its core's time when it was sent. The op is
/// kept in a plain form: a fetch or load has the way that was filled, 0 where none was; an atomic
/// that wrote is a swap of its new value, and one that did not is a compare of zeros. `old` is the
/// value before the access, 0 for a store; `evicted` the address of the line that the L2 evicted.
#[derive(Drop)]
pub struct Commit {
    pub dest: u8,
    pub strand: u8,
    pub item: u32,
    pub op: Op,
    pub seen: u32,
    pub old: u64,
    pub way: Option<u8>,
    pub evicted: Option<u64>,
    pub kills: Kills<64>,
}

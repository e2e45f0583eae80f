//! Where a strand stands in its unit.

use t1_event::Ending;

/// Where a strand stands.
#[derive(Clone, Copy)]
pub enum Phase {
    /// Between two units.
    Fetch,
    /// The word of its unit came.
    Have(u32),
    /// The fetch of its unit is out, for this way of the instruction cache, since this time.
    OutFetch { way: u8, seen: u32 },
    /// The load or atomic of its unit is out, for this way of the data cache, since this time.
    OutData { word: u32, way: u8, seen: u32 },
    /// It has ended.
    Ended(Ending),
}

//! Who asks, and when.

use t1_num::ChipKind;

/// A strand of a core that executes or drains: which rings have room (a bit for each destination),
/// the core's time, and the bytes of RAM.
#[derive(Clone, Copy)]
pub struct Asker {
    pub chip: ChipKind,
    pub number: u8,
    pub strand: u8,
    pub room: u16,
    pub time: u32,
    pub ram: u64,
}

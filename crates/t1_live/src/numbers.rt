//! The numbers of agents: cores are 0 to 7, destinations those from 8 on, and the crossbar is the one behind
//! them: 13 on OpenSPARC T1, 17 on OpenSPARC T2.

ghost use Rattle.std.specs.Prelude.{◌<◌};

use t1_num::ChipKind;
use t1_shape::destinations;

/// The agent of destination 0.
pub(crate) const FIRST_DESTINATION: u8 = 8;

/// The agent of the crossbar.
pub(crate) fn crossbar_of(chip: ChipKind) -> u8
    ensures { result < 32 }
{
    FIRST_DESTINATION + destinations(chip)
}

/// The set of the agents of the destinations.
pub(crate) fn destinations_of(chip: ChipKind) -> u32 {
    let mut set = 0u32;
    for dest in 0..destinations(chip) {
        set |= 1u32 << (FIRST_DESTINATION + dest);
    }
    set
}

/// The set of the agent of the crossbar.
pub(crate) fn crossbars_of(chip: ChipKind) -> u32 {
    1u32 << crossbar_of(chip)
}

/// The set of the agents of so many cores, of at most eight.
pub(crate) fn cores_of(count: u8) -> u32 {
    let mut set = 0u32;
    for core in 0..count.min(8) {
        set |= 1u32 << core;
    }
    set
}

//! The L1 caches of a core.
ghost use Rattle.std.specs.Prelude.{◌≡◌, ◌<◌, ◌≤◌};
ghost use Rattle.t1_packet.specs.Caches.{layout};

use t1_num::ChipKind;

/// One of the two L1 caches of a core.
#[derive(Clone, Copy, Debug, PartialEq, Eq)]
pub enum Cache {
    /// The data cache, of lines of 16 bytes.
    Dcache,
    /// The instruction cache, of lines of 32 bytes.
    Icache,
}

impl Cache {
    /// The ways of a set.
    #[inline]
    pub fn ways(self, chip: ChipKind) -> u8
        ensures value { result ≡ (layout chip self).ways }
        ensures few { (0 < result) × (result ≤ 8) }
    {
        match (chip, self) {
            (ChipKind::T2, Cache::Icache) => 8,
            _ => 4,
        }
    }

    /// The sets.
    #[inline]
    pub fn sets(self, chip: ChipKind) -> u8
        ensures value { result ≡ (layout chip self).sets }
        ensures few { (0 < result) × (result ≤ 128) }
    {
        match (chip, self) {
            (ChipKind::T2, Cache::Icache) => 64,
            _ => 128,
        }
    }
}

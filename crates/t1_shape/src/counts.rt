//! The numbers of a chip, for code.
ghost use Rattle.std.specs.Prelude.{◌≡◌, ◌<◌, ◌≤◌};
ghost use Rattle.t1_shape.specs.Numbers.{banks, destinations, l2_ways, most_l2_sets, most_strands};

use t1_num::ChipKind;

/// The banks of the L2 cache.
#[inline]
pub fn banks(chip: ChipKind) -> u8
    ensures value { result ≡ banks chip }
    ensures few { (0 < result) × (result ≤ 8) }
{
    match chip {
        ChipKind::T1 => 4,
        ChipKind::T2 => 8,
    }
}

/// The destinations: the banks, and after them the I/O bridge.
#[inline]
pub fn destinations(chip: ChipKind) -> u8
    ensures value { result ≡ destinations chip }
    ensures few { (0 < result) × (result ≤ 9) }
{
    banks(chip) + 1
}

/// The most strands of a core.
#[inline]
pub fn most_strands(chip: ChipKind) -> u8
    ensures value { result ≡ most_strands chip }
    ensures few { (0 < result) × (result ≤ 8) }
{
    match chip {
        ChipKind::T1 => 4,
        ChipKind::T2 => 8,
    }
}

/// The ways of a set of the L2 cache.
#[inline]
pub fn l2_ways(chip: ChipKind) -> u8
    ensures value { result ≡ l2_ways chip }
    ensures few { (0 < result) × (result ≤ 16) }
{
    match chip {
        ChipKind::T1 => 12,
        ChipKind::T2 => 16,
    }
}

/// The most sets of an L2 bank.
#[inline]
pub fn most_l2_sets(chip: ChipKind) -> u32
    ensures value { result ≡ most_l2_sets chip }
    ensures few { result ≤ 1024 }
{
    match chip {
        ChipKind::T1 => 1024,
        ChipKind::T2 => 512,
    }
}

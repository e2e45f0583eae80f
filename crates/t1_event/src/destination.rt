//! The destination of an address.
ghost use Rattle.std.specs.Prelude.{◌≡◌, ◌<◌};
ghost use Rattle.t1_shape.specs.Numbers.{destinations};
ghost use Rattle.t1_packet.specs.Ops.{dest_of};

use t1_num::ChipKind;
use t1_shape::banks;

/// The destination of an address on a chip: the I/O bridge, which is numbered after the banks, for an
/// address of I/O space (bit 39 is set and bits 63:40 are clear), and for every other the bank of its
/// line.
#[inline]
pub fn dest_of(chip: ChipKind, addr: u64) -> u8
    ensures value { result ≡ dest_of chip addr }
    ensures few { result < destinations chip }
    ensures small { result < 9 }
{
    let banks = banks(chip);
    if addr >> 39 == 1 {
        return banks;
    }
    (addr / 64 % banks as u64) as u8
}

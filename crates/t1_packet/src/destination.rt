//! The destination of an address.
ghost use Rattle.std.specs.Prelude.{◌≡◌, ◌<◌};
ghost use Rattle.t1_num.specs.declared.chip.ChipKind.TheVariants.{T1, T2};
ghost use Rattle.t1_packet.specs.Ops.{dest_of};

/// The number of the I/O bridge among the destinations; those below it are the banks of the L2 cache.
pub const IO_BRIDGE: u8 = 4;

/// The destination of an address: 4, the I/O bridge, for an address of I/O space (bit 39 is set and
/// bits 63:40 are clear), and for every other the bank that its bits 7:6 name.
#[inline]
pub fn dest(addr: u64) -> u8
    ensures value { result ≡ dest_of T1 addr }
    ensures few { result < 5 }
{
    if addr >> 39 == 1 {
        return IO_BRIDGE;
    }
    (addr / 64 % 4) as u8
}

use t1_space::Place::{Io, Ram, Scratch, Trap};
use t1_space::Touch::{Atomic, Load, Store};
use t1_space::{classify, little};

/// RAM of 64 KiB.
const RAM: u64 = 0x1_0000;

#[test]
fn first_test_that_applies(rt: HostRuntime) {
    for (asi, addr, touch, privileged, want) in [
        (0x80, 0xfff8, Load, true, Ram),
        (0x80, 0x1_0000, Load, true, Trap(0x032)),
        (0x18, 0, Load, false, Trap(0x037)),
        (0x82, 0, Store, false, Trap(0x030)),
        (0x20, 0x38, Store, true, Scratch(7)),
        (0x20, 0x40, Load, true, Trap(0x030)),
        (0x80, 0x80_0000_0000, Load, true, Io),
        (0x80, 0x80_0000_0000, Atomic, true, Trap(0x030)),
        (0x80, 0x100_0000_0000, Load, true, Trap(0x032)),
    ] {
        let place = classify(asi, false, addr, touch, 8, asi == 0x20, privileged, RAM);
        assert_eq!(rt; place, want, "ASI {asi:x} at {addr:x}");
    }
    let misaligned = classify(0x18, false, 2, Load, 4, false, false, RAM);
    assert_eq!(rt; misaligned, Trap(0x034));
}

#[test]
fn little_endian_spaces_have_bit_3(rt: HostRuntime) {
    assert!(rt; !little(0x04) && little(0x0c));
    assert!(rt; !little(0x82) && little(0x8a));
}

use t1_num::{field, flip, get_be, put_be, sext};

/// `save %sp, -176, %sp`.
const SAVE: u32 = 0x9de3_bf50;

#[test]
fn fields_of_an_instruction_word(rt: HostRuntime) {
    for (high, low, want) in [
        (31, 30, 2),
        (29, 25, 14),
        (24, 19, 0x3c),
        (18, 14, 14),
        (13, 13, 1),
        (12, 0, 0x1f50),
        (31, 0, SAVE),
    ] {
        assert_eq!(rt; field(SAVE, high, low), want, "at {high}:{low}");
    }
}

#[test]
fn numbers_of_a_width(rt: HostRuntime) {
    for (value, bits, want) in [
        (0x1f50, 13, 0xffff_ffff_ffff_ff50),
        (0x0fff, 13, 0xfff),
        (0xff7f, 8, 0x7f),
        (0x0080, 8, 0xffff_ffff_ffff_ff80),
        (1, 1, u64::MAX),
        (1 << 63, 64, 1 << 63),
    ] {
        assert_eq!(rt; sext(value, bits), want, "{value:x} of {bits} bits");
    }
    for (size, want) in [
        (1, 0x88),
        (2, 0x8877),
        (4, 0x8877_6655),
        (8, 0x8877_6655_4433_2211),
    ] {
        assert_eq!(rt; flip(0x1122_3344_5566_7788, size), want, "{size} bytes");
    }
}

#[test]
fn numbers_stand_with_the_high_byte_first(rt: HostRuntime) {
    let mut bytes = [0u8; 16];
    put_be(&mut bytes, 1, 1, 0xff01);
    put_be(&mut bytes, 2, 2, 0xff_0203);
    put_be(&mut bytes, 4, 4, 0xff_0405_0607);
    put_be(&mut bytes, 8, 8, 0x0809_0a0b_0c0d_0e0f);
    for (i, byte) in bytes.iter().enumerate() {
        assert_eq!(rt; *byte as usize, i, "byte {i}");
    }
    for (at, size, want) in [
        (3, 1, 3),
        (3, 2, 0x0304),
        (3, 4, 0x0304_0506),
        (3, 8, 0x0304_0506_0708_090a),
    ] {
        assert_eq!(rt; get_be(&bytes, at, size), want, "{size} bytes");
    }
}

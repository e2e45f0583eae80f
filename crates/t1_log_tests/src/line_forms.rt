//! Lines with a form, and lines without.
use t1_line_forms::{Line, has_form};

/// A kind of line, a line, and whether it has the form.
type Row = (Line, &'static [u8], bool);

const ITEM: Line = Line::Item {
    strand: 3,
    number: 17,
};

const HEADS: &[Row] = &[
    (
        Line::Config,
        b"config cores 1 strands 1 ram 65536 sets 1024 budget 10",
        true,
    ),
    (
        Line::Config,
        b"config cores 0 strands 99 ram 0 sets 5 budget 123456789012345678901234567890",
        true,
    ),
    (
        Line::Config,
        b"config cores 01 strands 1 ram 65536 sets 1024 budget 10",
        false,
    ),
    (
        Line::Config,
        b"config cores 1 strands 1 ram 65536 sets 1024 budget ",
        false,
    ),
    (
        Line::Config,
        b"config cores 1 strands 1 ram 65536 sets 1024",
        false,
    ),
    (
        Line::Config,
        b"config cores 1  strands 1 ram 65536 sets 1024 budget 10",
        false,
    ),
    (
        Line::Config,
        b"config cores 1 strands 1 ram 65536 sets 1024 budget 10 ",
        false,
    ),
    (
        Line::Config,
        b"config cores 1 strands 1 ram 1x sets 1024 budget 10",
        false,
    ),
    (
        Line::Config,
        b"config cores -1 strands 1 ram 65536 sets 1024 budget 10",
        false,
    ),
    (Line::Config, b"", false),
    (Line::Entry, b"entry 00000000ff", true),
    (Line::Entry, b"entry ffffffffff", true),
    (Line::Entry, b"entry 00000000FF", false),
    (Line::Entry, b"entry 0000000ff", false),
    (Line::Entry, b"entry 000000000ff", false),
    (Line::Entry, b"entry 00000000fg", false),
    (
        Line::Block,
        b"m 0000000121 82102005c2702200c4582200b580200000000000000000000000000000000000",
        true,
    ),
    (
        Line::Block,
        b"m 0000000100 0000000000000000000000000000000000000000000000000000000000000000",
        true,
    ),
    (
        Line::Block,
        b"m 0000000100 82102005c2702200c4582200b58020000000000000000000000000000000000",
        false,
    ),
    (
        Line::Block,
        b"m 0000000100 82102005c2702200c4582200b5802000000000000000000000000000000000000",
        false,
    ),
    (
        Line::Block,
        b"m 0000000100  82102005c2702200c4582200b580200000000000000000000000000000000000",
        false,
    ),
    (Line::Last, b"end", true),
    (Line::Last, b"end ", false),
    (Line::Last, b"en", false),
    (Line::Last, b"", false),
];

const ITEMS: &[Row] = &[
    (ITEM, b"i 3 17 fetch 0000000100 4 82102005 - M 0 0", true),
    (ITEM, b"i 3 17 load 0000000101 3 0a0b0c - H 1", true),
    (ITEM, b"i 3 17 load 0000000101 3 0a0b0 - H 1", false),
    (ITEM, b"i 3 17 load 0000000101 3 0a0b0c0 - H 1", false),
    (ITEM, b"i 3 17 load 0000000101 0  - H 1", false),
    (ITEM, b"i 3 17 load 0000000101 03 0a0b0c - H 1", false),
    (
        ITEM,
        b"i 3 17 load 0000000101 12 00112233445566778899aabb - H 1",
        true,
    ),
    (
        ITEM,
        b"i 3 17 load 0000000101 100000000000000000000000000001 00 - H 1",
        false,
    ),
    (
        ITEM,
        b"i 3 17 load 0000000101 18446744073709551617 00 - H 1",
        false,
    ),
    (ITEM, b"i 3 17 load 0000000101 1 0A - H 1", false),
    (ITEM, b"i 3 17 load 0000000101 1 0a 0a H 1", false),
    (
        ITEM,
        b"i 3 17 load 0000000101 1 0a - F 123456789012345678901234567890",
        true,
    ),
    (ITEM, b"i 3 17 load 0000000101 1 0a - F 00", false),
    (ITEM, b"i 3 17 load 0000000101 1 0a - F 0 0", false),
    (ITEM, b"i 3 17 load 0000000101 1 0a - M 0", false),
    (ITEM, b"i 3 17 load 0000000101 1 0a -", false),
    (ITEM, b"i 3 17 load 0000000101 1 0a -  H 1", false),
    (
        ITEM,
        b"i 3 17 store 0000000200 8 - 0000000000000005 M 1 1",
        true,
    ),
    (
        ITEM,
        b"i 3 17 store 0000000200 8 0000000000000005 - M 1 1",
        false,
    ),
    (ITEM, b"i 3 17 store 0000000200 16 -  H 1", false),
    (ITEM, b"i 3 17 atomic 0000000140 4 ff000000 - M 0 1", true),
    (
        ITEM,
        b"i 3 17 atomic 0000000140 4 ff000000 00000001 M 0 1",
        true,
    ),
    (ITEM, b"i 3 17 atomic 0000000140 4 - 00000001 M 0 1", false),
    (
        ITEM,
        b"i 3 17 atomic 0000000140 4 ff000000 000001 M 0 1",
        false,
    ),
    (ITEM, b"i 3 17 membar ff", true),
    (ITEM, b"i 3 17 membar 7", false),
    (ITEM, b"i 3 17 membar 0ff", false),
    (ITEM, b"i 3 17 flush", true),
    (ITEM, b"i 3 17 flush ", false),
    (ITEM, b"i 3 17 flushes", false),
    (ITEM, b"i 3 17 ", false),
    (ITEM, b"i 4 17 flush", false),
    (ITEM, b"i 3 18 flush", false),
    (ITEM, b"i 3 170 flush", false),
    (ITEM, b"i 3 017 flush", false),
    (ITEM, b"i 03 17 flush", false),
    (
        Line::Item {
            strand: 18_446_744_073_709_551_615,
            number: 0,
        },
        b"i 18446744073709551615 0 flush",
        true,
    ),
];

const ENDS: &[Row] = &[
    (
        Line::End { strand: 1 },
        b"e 1 halted 4 0000000000000110",
        true,
    ),
    (
        Line::End { strand: 1 },
        b"e 1 spent 99999999999999999999999 fedcba9876543210",
        true,
    ),
    (
        Line::End { strand: 1 },
        b"e 1 fault 7 fedcba9876543210 fff",
        true,
    ),
    (
        Line::End { strand: 1 },
        b"e 1 fault 7 fedcba9876543210",
        false,
    ),
    (
        Line::End { strand: 1 },
        b"e 1 halted 7 fedcba9876543210 1ff",
        false,
    ),
    (
        Line::End { strand: 1 },
        b"e 0 halted 4 0000000000000110",
        false,
    ),
    (
        Line::End { strand: 1 },
        b"e 1 halted 4 000000000000110",
        false,
    ),
    (
        Line::End { strand: 1 },
        b"e 1 halted -4 0000000000000110",
        false,
    ),
];

const OTHERS: &[Row] = &[
    (Line::Commit { index: 5 }, b"c 5 99 0 0 7 -", true),
    (Line::Commit { index: 5 }, b"c 5 0 0 0 - -", true),
    (
        Line::Commit { index: 5 },
        b"c 5 1 0 2 - 0000012340 0.d.127.3 9.i.999999999999999999999.0",
        true,
    ),
    (Line::Commit { index: 5 }, b"c 5 1 0 2 3 0000012340", true),
    (Line::Commit { index: 5 }, b"c 6 0 0 0 - -", false),
    (Line::Commit { index: 5 }, b"c 5 0 0 0 -", false),
    (Line::Commit { index: 5 }, b"c 5 0 0 0 - - ", false),
    (Line::Commit { index: 5 }, b"c 5 0 0 0 - 000001234", false),
    (Line::Commit { index: 5 }, b"c 5 0 0 0 - - 0.x.0.0", false),
    (Line::Commit { index: 5 }, b"c 5 0 0 0 - - 0.d.0", false),
    (Line::Commit { index: 5 }, b"c 5 0 0 0 - - 0.d.00.0", false),
    (Line::Commit { index: 5 }, b"c 5 0 0 0 - -  0.d.0.0", false),
    (Line::Order, b"o 0 0", true),
    (Line::Order, b"o 256 123456789012345678901234567890", true),
    (Line::Order, b"o 0 00", false),
    (Line::Order, b"o 0", false),
    (Line::Order, b"o 0 1 ", false),
    (Line::Order, b"o  0 1", false),
    (Line::Console, b"k ff", true),
    (
        Line::Console,
        b"k 000102030405060708090a0b0c0d0e0f101112131415161718191a1b1c1d1e1f",
        true,
    ),
    (
        Line::Console,
        b"k 000102030405060708090a0b0c0d0e0f101112131415161718191a1b1c1d1e1f20",
        false,
    ),
    (Line::Console, b"k ", false),
    (Line::Console, b"k f", false),
    (Line::Console, b"k 0ff", false),
    (Line::Console, b"k FF", false),
    (Line::Console, b"k ff ", false),
];

#[test]
fn lines_of_each_kind(rt: HostRuntime) {
    for rows in [HEADS, ITEMS, ENDS, OTHERS] {
        for (kind, line, has) in rows {
            assert_eq!(rt; has_form(*kind, line), *has, "{line:?}");
        }
    }
}

const SIXTY_FOUR_KILLS: &[u8] = b"c 0 0 0 0 - - \
    0.d.0.1 0.d.0.1 0.d.0.1 0.d.0.1 0.d.0.1 0.d.0.1 0.d.0.1 0.d.0.1 \
    0.d.0.1 0.d.0.1 0.d.0.1 0.d.0.1 0.d.0.1 0.d.0.1 0.d.0.1 0.d.0.1 \
    0.d.0.1 0.d.0.1 0.d.0.1 0.d.0.1 0.d.0.1 0.d.0.1 0.d.0.1 0.d.0.1 \
    0.d.0.1 0.d.0.1 0.d.0.1 0.d.0.1 0.d.0.1 0.d.0.1 0.d.0.1 0.d.0.1 \
    0.d.0.1 0.d.0.1 0.d.0.1 0.d.0.1 0.d.0.1 0.d.0.1 0.d.0.1 0.d.0.1 \
    0.d.0.1 0.d.0.1 0.d.0.1 0.d.0.1 0.d.0.1 0.d.0.1 0.d.0.1 0.d.0.1 \
    0.d.0.1 0.d.0.1 0.d.0.1 0.d.0.1 0.d.0.1 0.d.0.1 0.d.0.1 0.d.0.1 \
    0.d.0.1 0.d.0.1 0.d.0.1 0.d.0.1 0.d.0.1 0.d.0.1 0.d.0.1 0.d.0.1";

const SIXTY_FIVE_KILLS: &[u8] = b"c 0 0 0 0 - - \
    0.d.0.1 0.d.0.1 0.d.0.1 0.d.0.1 0.d.0.1 0.d.0.1 0.d.0.1 0.d.0.1 \
    0.d.0.1 0.d.0.1 0.d.0.1 0.d.0.1 0.d.0.1 0.d.0.1 0.d.0.1 0.d.0.1 \
    0.d.0.1 0.d.0.1 0.d.0.1 0.d.0.1 0.d.0.1 0.d.0.1 0.d.0.1 0.d.0.1 \
    0.d.0.1 0.d.0.1 0.d.0.1 0.d.0.1 0.d.0.1 0.d.0.1 0.d.0.1 0.d.0.1 \
    0.d.0.1 0.d.0.1 0.d.0.1 0.d.0.1 0.d.0.1 0.d.0.1 0.d.0.1 0.d.0.1 \
    0.d.0.1 0.d.0.1 0.d.0.1 0.d.0.1 0.d.0.1 0.d.0.1 0.d.0.1 0.d.0.1 \
    0.d.0.1 0.d.0.1 0.d.0.1 0.d.0.1 0.d.0.1 0.d.0.1 0.d.0.1 0.d.0.1 \
    0.d.0.1 0.d.0.1 0.d.0.1 0.d.0.1 0.d.0.1 0.d.0.1 0.d.0.1 0.d.0.1 1.i.0.2";

#[test]
fn sixty_four_kills_and_no_more(rt: HostRuntime) {
    let line = Line::Commit { index: 0 };
    assert!(rt; has_form(line, SIXTY_FOUR_KILLS));
    assert!(rt; !has_form(line, SIXTY_FIVE_KILLS));
}

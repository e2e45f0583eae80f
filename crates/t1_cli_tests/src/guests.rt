//! Runs of small guests.

use crate::serve::assert_rows;
use std::test::Fail;
use t1_guests::{CALM, Change, File, Input, Out, Plan, ROW, Row, STORE_AND_LOAD};

const RUN: &str = "run --cores 1 --strands 1 --ram 65536 --budget 10";

/// A row of a run that ends well.
const HALTED: Row<'static> = Row { words: RUN, ..ROW };

/// A halt at 100 hex.
const HALT: File<'static> = File {
    words: "b5802000",
    ..STORE_AND_LOAD
};

const SWAPPED: File<'static> = File {
    words: "82102200 84102000 86102007 c7f05002 c7f05002 b5802000",
    ..HALT
};

/// Loads of thirteen lines of one set of an L2 bank, and of the first of them again.
const THIRTEEN_LINES: Row<'static> = Row {
    words: "run --cores 1 --strands 1 --ram 65536 --sets 1 --budget 20",
    input: Input::File(File {
        words: "03000004 c4586000 c4586100 c4586200 c4586300 c4586400 c4586500 c4586600 c4586700 c4586800 c4586900 c4586a00 c4586b00 c4586c00 c4586000 b5802000",
        at: 0x140,
        entry: 0x140,
        ..HALT
    }),
    ..ROW
};

const GUESTS: &[Row<'static>] = &[
    Row {
        input: Input::File(HALT),
        out: Out::Lines("i 0 0 fetch 0000000100 4 b5802000 - M 0 0"),
        ..HALTED
    },
    Row {
        words: "run --cores 1 --strands 1 --ram 65536 --budget 10 --brief",
        input: Input::File(HALT),
        out: Out::Lines("n units 1 items 1 commits 1 kills 0 evicted 0"),
        ..HALTED
    },
    Row {
        input: Input::File(File {
            words: "00000000",
            ..HALT
        }),
        status: 3,
        out: Out::Lines("e 0 fault 6 0000000000004200 010"),
        err: "strand 0 fault 010 at 0000000000004200",
        ..HALTED
    },
    Row {
        words: "run --cores 1 --strands 1 --ram 65536 --budget 1",
        input: Input::File(File {
            words: "10800000",
            ..HALT
        }),
        status: 4,
        out: Out::Lines("e 0 spent 1 0000000000000104"),
        err: "strand 0 spent",
        ..HALTED
    },
    Row {
        input: Input::File(File {
            words: "82102005 c2282203 c4002200 b5802000",
            ..HALT
        }),
        out: Out::Lines("i 0 4 load 0000000200 4 00000005 - M 2 2"),
        ..HALTED
    },
    Row {
        input: Input::File(SWAPPED),
        out: Out::Lines(
            "i 0 4 atomic 0000000200 8 0000000000000000 0000000000000007 M 1 1\ni 0 6 atomic 0000000200 8 0000000000000007 - M 2 2",
        ),
        ..HALTED
    },
    Row {
        input: Input::File(File {
            words: "10680000 80100000",
            ..HALT
        }),
        status: 4,
        out: Out::Lines("e 0 spent 10 0000000000000100"),
        err: "strand 0 spent",
        ..HALTED
    },
    Row {
        input: Input::File(File {
            words: "82102001 83287027 c4586000 b5802000",
            ..HALT
        }),
        out: Out::Lines("i 0 3 load 8000000000 8 0000000000000000 - M 1 1"),
        ..HALTED
    },
    Row {
        input: Input::File(File {
            words: "82102001 83287027 84102048 c4286000 b5802000",
            ..HALT
        }),
        out: Out::Lines("k 48"),
        ..HALTED
    },
    Row {
        input: Input::File(File {
            at: 0xfffc,
            entry: 0xfffc,
            ..HALT
        }),
        out: Out::Lines("e 0 halted 1 0000000000010000"),
        ..HALTED
    },
    Row {
        input: Input::File(File {
            at: 0xfffd,
            entry: 0xfffc,
            ..HALT
        }),
        status: 2,
        out: Out::Is(""),
        err: "elf SegmentOutside",
        ..HALTED
    },
    Row {
        out: Out::Lines("c 14 0 0 26 1 0000001000 0.d.0.0\nc 15 0 0 28 0 0000001100 0.d.16.0"),
        ..THIRTEEN_LINES
    },
    // A guest of two instructions that is generated, for which nothing is read, and the summary of its run.
    Row {
        words: "gen --seed 0 --size 2",
        plan: Plan { read: 1, ..CALM },
        out: Out::File(File {
            words: "21000020 8143e002 c60c21f0 b5802000",
            at: 0x1000,
            entry: 0x1000,
            ..HALT
        }),
        ..ROW
    },
    Row {
        words: "gen --seed 0 --size 2 | run --cores 1 --strands 1 --ram 65536 --budget 10 --brief",
        out: Out::Is(BRIEF),
        ..ROW
    },
    // A file of GNU ld.
    Row {
        words: "run --cores 1 --strands 1",
        input: Input::Linked,
        out: Out::Lines(LINKED_RUN),
        ..ROW
    },
    Row {
        words: "dis",
        input: Input::Linked,
        out: Out::Lines(LINKED_WORDS),
        ..ROW
    },
];

const BRIEF: &str = "t1brief 1
config cores 1 strands 1 ram 65536 sets 1024 budget 10
e 0 halted 4 0000000000001010
n units 4 items 6 commits 2 kills 0 evicted 0
end
";

const LINKED_RUN: &str = "\
entry 0000100000
m 0000102000 0000000000000002000000000000000000000000000000000000000000000000
i 0 3 load 0000102000 8 0000000000000002 - M 1 1
i 0 6 store 0000102000 8 - 0000000000000005 M 2 2
e 0 halted 6 0000000000100018
";

const LINKED_WORDS: &str = "\
0000100000 21000408 sethi 1032, %l0
0000100008 c25c0000 ldx [%l0+%g0], %g1
0000100014 b5802000 wr %g0, 0, %asr26
0000102004 00000002 .word 0x00000002
";

#[test]
fn guests_end_with_their_status_and_lines(rt: HostRuntime) -> Result<(), Fail> {
    assert_rows(&rt, rt.alloc(), GUESTS)?;
    Ok(())
}

/// A row of a file that is refused.
const REFUSED: Row<'static> = Row {
    words: RUN,
    status: 2,
    out: Out::Is(""),
    ..ROW
};

#[test]
fn each_broken_field_of_the_file_is_refused(rt: HostRuntime) -> Result<(), Fail> {
    // The place of a byte, a value that breaks its field, the size, and the line on err.
    let table = [
        (3, 71, 136, "elf NotElf"),
        (4, 1, 136, "elf WrongClass"),
        (5, 1, 136, "elf WrongOrder"),
        (19, 2, 136, "elf WrongMachine"),
        (17, 3, 136, "elf WrongType"),
        (55, 55, 136, "elf BadHeader"),
        (67, 3, 136, "elf Dynamic"),
        (57, 0, 136, "elf NoSegment"),
        (85, 1, 136, "elf SegmentOutside"),
        (29, 1, 136, "elf EntryOutside"),
        (31, 2, 136, "elf EntryMisaligned"),
        (0, 0x7f, 63, "elf TooShort"),
    ];
    let mut rows = Vec::new(rt.alloc());
    for (place, value, size, err) in table {
        rows.push(Row {
            input: Input::File(File {
                change: Change {
                    place,
                    count: 1,
                    value,
                },
                size,
                ..STORE_AND_LOAD
            }),
            err,
            ..REFUSED
        })?;
    }
    assert_rows(&rt, rt.alloc(), rows.as_slice())?;
    Ok(())
}

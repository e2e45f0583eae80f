//! The statuses of `live`, and the other commands.

use crate::serve::assert_row;
use std::test::Fail;
use t1_guests::{CALM, File, Input, Out, Plan, ROW, Row, STORE_AND_LOAD};

/// The log of a halt.
const LOG: &str = "t1log 1
config cores 1 strands 1 ram 65536 sets 1024 budget 10
entry 0000000100
m 0000000100 b580200000000000000000000000000000000000000000000000000000000000
i 0 0 fetch 0000000100 4 b5802000 - M 0 0
e 0 halted 1 0000000000000104
c 0 0 0 0 0 -
o 0 0
end
";

/// A row of the threaded run of a halt.
const HALTED: Row<'static> = Row {
    words: "live --cores 1 --strands 1 --ram 65536 --budget 10",
    input: Input::File(File {
        words: "b5802000",
        ..STORE_AND_LOAD
    }),
    out: Out::Is(LOG),
    ..ROW
};

#[test]
fn a_halt_has_one_log(rt: HostRuntime) -> Result<(), Fail> {
    for _ in 0..20u32 {
        assert_row(&rt, rt.alloc(), &HALTED)?;
    }
    Ok(())
}

/// A row of a guest that runs into a trap at trap level 6.
const FAULT: Row<'static> = Row {
    words: "asm | live --cores 1 --strands 1 --ram 65536 --budget 10",
    input: Input::Text(".org 0x100\n.word 0\n"),
    status: 3,
    out: Out::Lines("e 0 fault 6 0000000000004200 010"),
    err: "strand 0 fault 010 at 0000000000004200",
    ..ROW
};

/// A row of a branch to itself.
const LOOP: Row<'static> = Row {
    words: "asm | live --cores 1 --strands 1 --ram 65536 --budget 10",
    input: Input::Text(".org 0x100\nba .\nnop\n"),
    status: 4,
    out: Out::Begin("e 0 spent 10 ", 1),
    err: "strand 0 spent",
    ..ROW
};

/// A row of words that ask for nothing.
const USAGE: Row<'static> = Row {
    status: 1,
    out: Out::Is(""),
    err: "usage",
    ..LOOP
};

const COMMANDS: &[Row<'static>] = &[
    FAULT,
    LOOP,
    Row {
        words: "asm | live --brief",
        ..USAGE
    },
    Row {
        words: "asm | live --cores 9",
        ..USAGE
    },
    Row {
        words: "asm | frob",
        ..USAGE
    },
    Row {
        words: "asm | live --ram 65536",
        input: Input::Text(".org 0x10000\nnop\n"),
        status: 2,
        out: Out::Is(""),
        err: "elf SegmentOutside",
        ..ROW
    },
    Row {
        words: "asm | check",
        status: 2,
        out: Out::Is(""),
        err: "log line 0: Unended",
        ..LOOP
    },
    Row {
        words: "asm | run --cores 1 --strands 1 --budget 1",
        out: Out::Begin("e 0 spent 1 ", 1),
        ..LOOP
    },
    Row {
        words: "asm | dis",
        input: Input::Text(".org 0x100\nba .\nnop\n"),
        out: Out::Is(
            "0000000100 10800000 ba 0x0000000000000100\n0000000104 01000000 sethi 0, %g0\n",
        ),
        ..ROW
    },
    Row {
        words: "gen --seed 1 --size 1",
        out: Out::Size(132),
        ..ROW
    },
    // Devices that fail.
    Row {
        plan: Plan { read: 1, ..CALM },
        status: 5,
        out: Out::Is(""),
        err: "read fault",
        ..HALTED
    },
    Row {
        plan: Plan { read: 2, ..CALM },
        status: 5,
        out: Out::Is(""),
        err: "read fault",
        ..HALTED
    },
    Row {
        plan: Plan { write: 1, ..CALM },
        status: 6,
        out: Out::Is(""),
        err: "write fault",
        ..HALTED
    },
    Row {
        plan: Plan { write: 2, ..CALM },
        status: 6,
        out: Out::Is("t1log 1\n"),
        err: "write fault",
        ..HALTED
    },
    Row {
        plan: Plan { tell: 1, ..CALM },
        ..HALTED
    },
];

#[test]
fn commands_have_these_statuses(rt: HostRuntime) -> Result<(), Fail> {
    for row in COMMANDS {
        assert_row(&rt, rt.alloc(), row)?;
    }
    Ok(())
}

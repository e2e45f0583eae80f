//! Devices that fail, cut and altered files, and guests that go wrong.

use crate::serve::assert_row;
use std::alloc::{AllocError, Global};
use std::fmt::Write;
use std::process::Abort;
use std::sync::Wait;
use std::test::Fail;
use std::thread::Threads;
use t1_guests::{CALM, Change, File, Input, Out, Plan, ROW, Row, STORE_AND_LOAD, stored_log};

/// An output of few bytes.
const SMALL: Plan = Plan { room: 4096, ..CALM };

/// A row of a run whose log is written whole.
const WHOLE: Row<'static> = Row {
    words: "run --cores 1 --strands 1 --ram 65536 --budget 10",
    input: Input::File(STORE_AND_LOAD),
    plan: SMALL,
    out: Out::LogLines(21),
    ..ROW
};

/// A row of an output that fails.
const UNWRITTEN: Row<'static> = Row {
    status: 6,
    err: "write fault",
    ..WHOLE
};

const BYTEWISE: Plan = Plan { piece: 1, ..SMALL };

const DEVICES: &[Row<'static>] = &[
    Row {
        plan: Plan { write: 22, ..SMALL },
        ..WHOLE
    },
    Row {
        plan: Plan { read: 11, ..SMALL },
        ..WHOLE
    },
    Row {
        plan: Plan {
            write: 30,
            ..BYTEWISE
        },
        out: Out::LogBytes(29),
        ..UNWRITTEN
    },
    Row {
        plan: BYTEWISE,
        ..WHOLE
    },
];

#[test]
fn each_call_of_a_device_may_fail(rt: HostRuntime) -> Result<(), Fail> {
    let mut rows = Vec::from_slice(rt.alloc(), DEVICES)?;
    // Each of the 21 lines is one write.
    for write in 1..=21u32 {
        rows.push(Row {
            plan: Plan { write, ..SMALL },
            out: Out::LogLines(write as usize - 1),
            ..UNWRITTEN
        })?;
    }
    // The 136 bytes are nine reads, and one more finds the end.
    for read in 1..=10 {
        rows.push(Row {
            plan: Plan { read, ..SMALL },
            status: 5,
            out: Out::Is(""),
            err: "read fault",
            ..WHOLE
        })?;
    }
    for row in rows.as_slice() {
        assert_row(&rt, rt.alloc(), row)?;
    }
    Ok(())
}

/// The file of a halt, of 124 bytes.
const HALT: File<'static> = File {
    words: "b5802000",
    ..STORE_AND_LOAD
};

/// So many bytes of ff from a place on.
fn ones(place: usize, count: usize) -> Change {
    Change {
        place,
        count,
        value: 0xff,
    }
}

/// The files of a halt that are cut or changed, each with the line on err.
fn bad_files(alloc: Global) -> Result<Vec<(File<'static>, &'static str)>, AllocError> {
    let mut files = Vec::new(alloc);
    for size in 0..=123 {
        let told = match size {
            0..=63 => "elf TooShort",
            64..=119 => "elf BadHeader",
            _ => "elf SegmentOutside",
        };
        files.push((File { size, ..HALT }, told))?;
    }
    for (change, told) in [
        (ones(72, 8), "elf SegmentOutside"),
        (ones(32, 8), "elf BadHeader"),
        (ones(56, 2), "elf BadHeader"),
    ] {
        files.push((File { change, ..HALT }, told))?;
    }
    Ok(files)
}

#[test]
fn a_file_that_is_cut_or_points_outside_is_refused(rt: HostRuntime) -> Result<(), Fail> {
    let files = bad_files(rt.alloc())?;
    for words in ["run --ram 65536", "live --ram 65536"] {
        for (file, err) in files.as_slice() {
            let row = Row {
                words,
                input: Input::File(*file),
                plan: SMALL,
                status: 2,
                out: Out::Is(""),
                err,
            };
            assert_row(&rt, rt.alloc(), &row)?;
        }
    }
    Ok(())
}

/// A front of a log is refused: it ends behind so many whole lines.
fn assert_unended<R: Threads + Wait + Sync + Abort>(
    rt: &R,
    alloc: Global,
    front: &str,
    line: u32,
) -> Result<(), AllocError> {
    let told = format!(in alloc; "log line {line}: Unended")?;
    let row = Row {
        words: "check",
        input: Input::Text(front),
        plan: SMALL,
        status: 2,
        out: Out::Is(""),
        err: told.as_str(),
    };
    assert_row(rt, alloc, &row)
}

#[test]
fn a_log_that_is_cut_is_refused(rt: HostRuntime) -> Result<(), Fail> {
    let mut line = 0u32;
    for (size, byte) in stored_log().bytes().enumerate() {
        let front = stored_log().get(..size).unwrap_or("");
        assert_unended(&rt, rt.alloc(), front, line)?;
        if byte == b'\n' {
            line = line.saturating_add(1);
        }
    }
    Ok(())
}

/// Of 65 kills of a commit the line has one too many.
#[test]
fn a_log_that_kills_too_much_is_refused(rt: HostRuntime) -> Result<(), Fail> {
    let (front, rest) = stored_log().split_once("c 1 0 0 2 - -").unwrap_or(("", ""));
    let table = [(64, 0, "holds\n", ""), (65, 2, "", "log line 13: Syntax")];
    for (kills, status, out, err) in table {
        let mut text = format!(in rt.alloc(); "{front}c 1 0 0 2 - -")?;
        for set in 0..kills {
            write!(text, " 0.d.{set}.0")?;
        }
        write!(text, "{rest}")?;
        let row = Row {
            words: "check",
            input: Input::Text(text.as_str()),
            plan: SMALL,
            status,
            out: Out::Is(out),
            err,
        };
        assert_row(&rt, rt.alloc(), &row)?;
    }
    Ok(())
}

/// A row of a guest that loads from the first address behind the RAM.
const LOAD_OUTSIDE: Row<'static> = Row {
    words: "asm | run --cores 1 --strands 1 --ram 65536 --budget 10",
    input: Input::Text(".org 0x100\n.word 0x03000040, 0xc4584000\n"),
    status: 3,
    err: "strand 0 fault 010 at 0000000000004200",
    ..ROW
};

/// A row of a guest that stores its last word, a halt, over the branch that stands behind its flush.
const HALT_OVER_BRANCH: Row<'static> = Row {
    words: "asm | run --cores 1 --strands 1 --ram 65536 --budget 10",
    input: Input::Text(
        ".org 0x100\n.word 0xc2002118, 0xc2202110, 0x81d80000, 0x01000000, 0x10800000, 0x01000000, 0xb5802000\n",
    ),
    ..ROW
};

const WRONG: &[Row<'static>] = &[
    Row {
        out: Out::Lines("e 0 fault 7 0000000000004200 010"),
        ..LOAD_OUTSIDE
    },
    Row {
        out: Out::Begin("i ", 8),
        ..LOAD_OUTSIDE
    },
    Row {
        out: Out::Begin("c ", 3),
        ..LOAD_OUTSIDE
    },
    Row {
        out: Out::Lines("e 0 halted 5 0000000000000114\nc 2 0 0 3 - - 0.i.8.0\nc 3 0 0 6 0 -"),
        ..HALT_OVER_BRANCH
    },
    Row {
        out: Out::Begin("i ", 8),
        ..HALT_OVER_BRANCH
    },
    Row {
        out: Out::Begin("c ", 4),
        ..HALT_OVER_BRANCH
    },
];

/// Loads of thirteen lines of one set of an L2 bank, and of the first of them again.
const THIRTEEN_LINES: &str = ".org 0x140
        .word 0x03000004, 0xc4586000, 0xc4586100, 0xc4586200, 0xc4586300, 0xc4586400, 0xc4586500
        .word 0xc4586600, 0xc4586700, 0xc4586800, 0xc4586900, 0xc4586a00, 0xc4586b00, 0xc4586c00
        .word 0xc4586000, 0xb5802000
";

#[test]
fn guests_that_go_wrong_end(rt: HostRuntime) -> Result<(), Fail> {
    for row in WRONG {
        assert_row(&rt, rt.alloc(), row)?;
    }
    for seed in 0..10 {
        let words = format!(in rt.alloc();
            "asm | run --ram 65536 --sets 1 --budget 1000 --seed {seed} | check"
        )?;
        let row = Row {
            words: words.as_str(),
            input: Input::Text(THIRTEEN_LINES),
            out: Out::Is("holds\n"),
            ..ROW
        };
        assert_row(&rt, rt.alloc(), &row)?;
    }
    Ok(())
}

//! Devices that fail, and inputs that are too long.

use crate::serve::{assert_rows, words_of};
use std::test::Fail;
use t1_cli::input::MOST_INPUT;
use t1_cli::t1_serial;
use t1_guests::{CALM, Input, Out, Plan, ROW, Row, STORE_AND_LOAD};
use t1_io::{Failed, MemSink, Source};

const RUN: &str = "run --cores 1 --strands 1 --ram 65536 --budget 10";

/// A row of a run whose log is written whole.
const WHOLE: Row<'static> = Row {
    words: RUN,
    input: Input::File(STORE_AND_LOAD),
    out: Out::LogLines(21),
    ..ROW
};

/// A row of an output that fails.
const UNWRITTEN: Row<'static> = Row {
    status: 6,
    err: "write fault",
    ..WHOLE
};

/// A row of an input that fails.
const UNREAD: Row<'static> = Row {
    status: 5,
    out: Out::Is(""),
    err: "read fault",
    ..WHOLE
};

/// Devices whose sinks take a byte at a time.
const BYTEWISE: Plan = Plan { piece: 1, ..CALM };

const RUNS: &[Row<'static>] = &[
    Row {
        plan: Plan {
            write: 30,
            ..BYTEWISE
        },
        out: Out::LogBytes(29),
        ..UNWRITTEN
    },
    Row {
        plan: BYTEWISE,
        ..WHOLE
    },
    // A failure of err changes no status.
    Row {
        plan: Plan { tell: 1, ..CALM },
        ..WHOLE
    },
    Row {
        words: "frob",
        plan: Plan { tell: 1, ..CALM },
        status: 1,
        out: Out::Is(""),
        ..WHOLE
    },
];

/// A row of the words of a file, the second of whose lines cannot be written.
const SHOWN: Row<'static> = Row {
    words: "dis",
    plan: Plan { write: 2, ..CALM },
    out: Out::Is("0000000100 82102005 or %g0, 5, %g1\n"),
    ..UNWRITTEN
};

const TEXTS: &[Row<'static>] = &[
    Row {
        plan: Plan { write: 1, ..CALM },
        out: Out::Is(""),
        ..SHOWN
    },
    SHOWN,
    Row {
        plan: Plan { write: 3, ..CALM },
        out: Out::Is(
            "0000000100 82102005 or %g0, 5, %g1\n0000000104 c2702200 stx %g1, [%g0+512]\n",
        ),
        ..SHOWN
    },
    Row {
        plan: Plan { write: 4, ..CALM },
        out: Out::Is(
            "0000000100 82102005 or %g0, 5, %g1\n0000000104 c2702200 stx %g1, [%g0+512]\n0000000108 c4582200 ldx [%g0+512], %g2\n",
        ),
        ..SHOWN
    },
    Row {
        words: "asm",
        plan: Plan { read: 2, ..CALM },
        ..UNREAD
    },
    Row {
        words: "dis",
        plan: Plan { read: 2, ..CALM },
        ..UNREAD
    },
    Row {
        words: "asm",
        input: Input::Text("nop\nnop\n"),
        plan: Plan {
            write: 3,
            piece: 20,
            ..CALM
        },
        out: Out::Size(40),
        ..UNWRITTEN
    },
];

#[test]
fn each_call_of_a_device_may_fail(rt: HostRuntime) -> Result<(), Fail> {
    let mut rows = Vec::from_slice(rt.alloc(), RUNS)?;
    rows.extend_from_slice(TEXTS)?;
    // The source, of 136 bytes in pieces of 16, is called nine times, and once more at its end.
    for read in 1..=10 {
        rows.push(Row {
            plan: Plan { read, ..CALM },
            ..UNREAD
        })?;
    }
    // Each of the 21 lines is one call.
    for write in 1..=21u32 {
        rows.push(Row {
            plan: Plan { write, ..CALM },
            out: Out::LogLines(write as usize - 1),
            ..UNWRITTEN
        })?;
    }
    assert_rows(&rt, rt.alloc(), rows.as_slice())?;
    Ok(())
}

/// A source that gives the same byte so many times. It tells nothing of what it has left.
#[derive(Drop)]
struct Repeated {
    byte: u8,
    left: usize,
}

impl Source for Repeated {
    ghost use Rattle.std.specs.Prelude.{None};

    ghost left = { λ _. None };

    ghost faults = { λ _. 0 };

    fn read(&mut self, piece: &mut [u8]) -> Result<usize, Failed> {
        let count = piece.len().min(self.left);
        for byte in &mut piece[..count] {
            *byte = self.byte;
        }
        self.left -= count;
        Ok(count)
    }
}

#[test]
fn an_input_has_at_most_64_mebibytes(rt: HostRuntime) -> Result<(), Fail> {
    // The words, the bytes of an input of spaces, the status, and the line on err.
    let table = [
        (RUN, MOST_INPUT, 2, "t1sim: elf NotElf\n"),
        (RUN, MOST_INPUT + 1, 2, "t1sim: input too long\n"),
        ("asm", MOST_INPUT, 0, ""),
        ("asm", MOST_INPUT + 1, 2, "t1sim: input too long\n"),
        ("dis", MOST_INPUT, 2, "t1sim: elf NotElf\n"),
        ("dis", MOST_INPUT + 1, 2, "t1sim: input too long\n"),
    ];
    for (words, left, status, told) in table {
        let list = words_of(rt.alloc(), words)?;
        let mut input = Repeated { byte: b' ', left };
        let mut out = MemSink::new(rt.alloc(), 64, 64, Vec::new(rt.alloc()))?;
        let mut err = MemSink::new(rt.alloc(), 64, 64, Vec::new(rt.alloc()))?;
        let came = t1_serial(rt.alloc(), list.as_slice(), &mut input, &mut out, &mut err);
        assert_eq!(rt; came.code(), status);
        assert_eq!(rt; err.as_slice(), told.as_bytes());
    }
    Ok(())
}

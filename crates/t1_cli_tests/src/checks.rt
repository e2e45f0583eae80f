//! The checker of logs.

use crate::serve::assert_rows;
use std::test::Fail;
use t1_guests::{Input, Out, ROW, Row, STORE_AND_LOAD};

/// A row of a log that holds.
const HOLDS: Row<'static> = Row {
    words: "check",
    out: Out::Is("holds\n"),
    ..ROW
};

/// A row of a log whose order is broken.
const BROKEN: Row<'static> = Row {
    words: "check",
    status: 8,
    err: "not in order",
    ..ROW
};

/// The shortest log.
const SHORT: &str = "t1log 1
config cores 1 strands 1 ram 65536 sets 1024 budget 10
entry 0000000100
e 0 halted 0 0000000000000100
end
";

const ORDERS: &[Row<'static>] = &[
    Row {
        input: Input::Log { from: "", to: "" },
        ..HOLDS
    },
    Row {
        input: Input::Log {
            from: " 0000000000000005 - M 2 2",
            to: " 0000000000000006 - M 2 2",
        },
        out: Out::Is("broken Value 0.4 0.2\n"),
        ..BROKEN
    },
    Row {
        input: Input::Log {
            from: "o 0 3\no 0 2\n",
            to: "o 0 2\no 0 3\n",
        },
        ..HOLDS
    },
    Row {
        input: Input::Log {
            from: "o 0 3\no 0 2\no 0 4\n",
            to: "o 0 4\no 0 2\no 0 3\n",
        },
        out: Out::Is("broken LoadOp 0.3 0.4\n"),
        ..BROKEN
    },
    Row {
        input: Input::Log {
            from: "o 0 5\n",
            to: "",
        },
        out: Out::Is("broken Listing 0.5 -\n"),
        ..BROKEN
    },
    Row {
        input: Input::Log {
            from: "o 0 5\n",
            to: "o 0 4\n",
        },
        out: Out::Is("broken Listing 0.4 -\n"),
        ..BROKEN
    },
    Row {
        input: Input::Text(SHORT),
        ..HOLDS
    },
    // Logs that were written.
    Row {
        words: "run --cores 1 --strands 1 --ram 65536 --budget 10 | check",
        input: Input::File(STORE_AND_LOAD),
        ..HOLDS
    },
    Row {
        words: "gen --seed 3 --size 40 | run --ram 65536 --budget 100 --seed 5 | check",
        ..HOLDS
    },
];

#[test]
fn orders_of_a_log_are_judged(rt: HostRuntime) -> Result<(), Fail> {
    assert_rows(&rt, rt.alloc(), ORDERS)?;
    Ok(())
}

/// A row of a text that is no log.
const FAULT: Row<'static> = Row {
    words: "check",
    status: 2,
    out: Out::Is(""),
    ..ROW
};

const FAULTS: &[Row<'static>] = &[
    Row {
        input: Input::Log {
            from: "\nend\n",
            to: "\n",
        },
        err: "log line 20: Unended",
        ..FAULT
    },
    Row {
        input: Input::Text(""),
        err: "log line 0: Unended",
        ..FAULT
    },
    Row {
        input: Input::Text("t1log 1"),
        err: "log line 0: Unended",
        ..FAULT
    },
    Row {
        input: Input::Log {
            from: "t1log 1",
            to: "t1log 0",
        },
        err: "log line 1: Version",
        ..FAULT
    },
    Row {
        input: Input::Log {
            from: "cores 1",
            to: "cores 01",
        },
        err: "log line 2: Syntax",
        ..FAULT
    },
    Row {
        input: Input::Log {
            from: "cores 1",
            to: "cores 9",
        },
        err: "log line 2: Range",
        ..FAULT
    },
    Row {
        input: Input::Log {
            from: "fetch 0000000104",
            to: "fetch 0000000106",
        },
        err: "log line 6: Range",
        ..FAULT
    },
];

#[test]
fn the_first_fault_of_a_log_is_told(rt: HostRuntime) -> Result<(), Fail> {
    assert_rows(&rt, rt.alloc(), FAULTS)?;
    Ok(())
}

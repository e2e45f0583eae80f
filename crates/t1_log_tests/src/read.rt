//! Logs that are read, their orders, and texts with one fault each.
ghost use Rattle.std.specs.Prelude.{IfOk};
ghost use Rattle.t1_take.specs.WellFormed.{IsWellFormed};

use std::alloc::{AllocError, Global};
use t1_check::{Axiom, Verdict, check};
use t1_event::{Ending, How, ItemKind, Place, Report};
use t1_packet::Op;
use t1_read::{LogError, LogKind, read_log};

/// The log of a program of one strand that stores a number and loads it.
const STORED: &[&[u8]] = &[
    b"t1log 1",
    b"config cores 1 strands 1 ram 65536 sets 1024 budget 10",
    b"entry 0000000100",
    b"m 0000000100 82102005c2702200c4582200b580200000000000000000000000000000000000",
    b"i 0 0 fetch 0000000100 4 82102005 - M 0 0",
    b"i 0 1 fetch 0000000104 4 c2702200 - H 1",
    b"i 0 2 store 0000000200 8 - 0000000000000005 M 1 1",
    b"i 0 3 fetch 0000000108 4 c4582200 - H 1",
    b"i 0 4 load 0000000200 8 0000000000000005 - M 2 2",
    b"i 0 5 fetch 000000010c 4 b5802000 - H 3",
    b"e 0 halted 4 0000000000000110",
    b"c 0 0 0 0 0 -",
    b"c 1 0 0 2 - -",
    b"c 2 0 0 4 0 -",
    b"o 0 0",
    b"o 0 1",
    b"o 0 3",
    b"o 0 2",
    b"o 0 4",
    b"o 0 5",
    b"end",
];

/// Lines of every kind. What they say of a run is not looked at.
const EVERY: &[&[u8]] = &[
    b"t1log 1",
    b"config cores 2 strands 1 ram 131072 sets 4 budget 7",
    b"entry 0000000100",
    b"m 0000000100 0000000000000000000000000000000000000000000000000000000000000001",
    b"m 0000000140 ff00000000000000000000000000000000000000000000000000000000000000",
    b"i 0 0 fetch 0000000100 4 82102005 - H 0",
    b"i 0 1 store 8000000000 1 - 41 M 1 1",
    b"i 0 2 atomic 0000000140 4 ff000000 - M 0 1",
    b"i 0 3 atomic 0000000148 8 0000000000000000 00000000000000ff M 2 3",
    b"i 0 4 membar 42",
    b"i 0 5 load 0000000142 2 0000 - F 4294967295",
    b"i 0 6 flush",
    b"e 0 fault 7 fedcba9876543210 1ff",
    b"e 1 spent 0 0000000000000100",
    b"c 0 1 0 2 - 0000012340 0.d.127.3 1.i.0.0",
    b"c 1 4 0 1 - -",
    b"c 2 2 0 3 3 -",
    b"o 0 0",
    b"o 1 4294967295",
    b"k 000102030405060708090a0b0c0d0e0f101112131415161718191a1b1c1d1e1f",
    b"k ff",
    b"end",
];

/// A line of `EVERY`, counted from 1, another line in its place, and the fault.
const FAULTS: &[(u32, &[u8], u32, LogKind)] = &[
    (1, b"t1log 0", 1, LogKind::Version),
    (1, b"t1log 2", 1, LogKind::Version),
    (1, b"", 1, LogKind::Version),
    (1, b"t1log 1 ", 1, LogKind::Version),
    (1, b"end", 1, LogKind::Version),
    (
        2,
        b"config cores 0 strands 1 ram 131072 sets 4 budget 7",
        2,
        LogKind::Range,
    ),
    (
        2,
        b"config cores 9 strands 1 ram 131072 sets 4 budget 7",
        2,
        LogKind::Range,
    ),
    (
        2,
        b"config cores 2 strands 5 ram 131072 sets 4 budget 7",
        2,
        LogKind::Range,
    ),
    (
        2,
        b"config cores 2 strands 1 ram 65537 sets 4 budget 7",
        2,
        LogKind::Range,
    ),
    (
        2,
        b"config cores 2 strands 1 ram 268500992 sets 4 budget 7",
        2,
        LogKind::Range,
    ),
    (
        2,
        b"config cores 2 strands 1 ram 131072 sets 3 budget 7",
        2,
        LogKind::Range,
    ),
    (
        2,
        b"config cores 2 strands 1 ram 131072 sets 2048 budget 7",
        2,
        LogKind::Range,
    ),
    (
        2,
        b"config cores 2 strands 1 ram 131072 sets 4 budget 0",
        2,
        LogKind::Range,
    ),
    (
        2,
        b"config cores 2 strands 1 ram 131072 sets 4 budget 500001",
        2,
        LogKind::Range,
    ),
    (
        2,
        b"config cores 2 strands 1 ram 131072 sets 4 budget 18446744073709551623",
        2,
        LogKind::Range,
    ),
    (
        2,
        b"config cores 2 strands 1 ram 131072 sets 4 budget 07",
        2,
        LogKind::Syntax,
    ),
    (
        2,
        b"config cores 2 strands 1 ram 131072 sets 4 budget",
        2,
        LogKind::Syntax,
    ),
    (
        2,
        b"config cores 9 strands 1 ram 131072 sets 4 budget x",
        2,
        LogKind::Syntax,
    ),
    (
        2,
        b"config  cores 2 strands 1 ram 131072 sets 4 budget 7",
        2,
        LogKind::Syntax,
    ),
    (3, b"entry 100", 3, LogKind::Syntax),
    (3, b"entry 0000000100 ", 3, LogKind::Syntax),
    (3, b"entry 00000001g0", 3, LogKind::Syntax),
    (3, b"entry 000000010A", 3, LogKind::Syntax),
    (
        4,
        b"m 0000000110 0000000000000000000000000000000000000000000000000000000000000001",
        4,
        LogKind::Range,
    ),
    (
        4,
        b"m 0000020000 0000000000000000000000000000000000000000000000000000000000000001",
        4,
        LogKind::Range,
    ),
    (
        4,
        b"m 0000000100 0000000000000000000000000000000000000000000000000000000000000000",
        4,
        LogKind::Range,
    ),
    (
        4,
        b"m 0000000100 00000000000000000000000000000000000000000000000000000000000001",
        4,
        LogKind::Syntax,
    ),
    (
        4,
        b"m 0000000140 0000000000000000000000000000000000000000000000000000000000000001",
        5,
        LogKind::Range,
    ),
    (
        5,
        b"m 0000000080 ff00000000000000000000000000000000000000000000000000000000000000",
        5,
        LogKind::Range,
    ),
    (
        6,
        b"i 1 0 fetch 0000000100 4 82102005 - H 0",
        6,
        LogKind::Syntax,
    ),
    (
        6,
        b"i 0 1 fetch 0000000100 4 82102005 - H 0",
        6,
        LogKind::Syntax,
    ),
    (
        6,
        b"i 99999999999999999999 0 fetch 0000000100 4 82102005 - H 0",
        6,
        LogKind::Syntax,
    ),
    (
        6,
        b"i 0 0 fetch 0000000100 4 82102005 - H 00",
        6,
        LogKind::Syntax,
    ),
    (
        6,
        b"i 0 0 fetch 0000000100 4 82102005 -",
        6,
        LogKind::Syntax,
    ),
    (6, b"i 0 0 fetch 0000000100 2 8210 - H 0", 6, LogKind::Range),
    (
        6,
        b"i 0 0 fetch 0000000102 4 82102005 - H 0",
        6,
        LogKind::Range,
    ),
    (
        6,
        b"i 0 0 fetch 8000000000 4 82102005 - H 0",
        6,
        LogKind::Range,
    ),
    (
        6,
        b"i 0 0 fetch 0000000100 4 82102005 00 H 0",
        6,
        LogKind::Syntax,
    ),
    (
        6,
        b"i 0 0 fetch 0000000100 4 82102005 - H 4294967296",
        6,
        LogKind::Range,
    ),
    (
        6,
        b"i 0 0 fetch 0000000100 4 82102005 - H 123456789012345678901234567890",
        6,
        LogKind::Range,
    ),
    (
        6,
        b"i 0 0 jump 0000000100 4 82102005 - H 0",
        6,
        LogKind::Syntax,
    ),
    (
        7,
        b"i 0 1 store 8000000000 3 - 414141 M 1 1",
        7,
        LogKind::Range,
    ),
    (
        7,
        b"i 0 1 store 8000000000 3 - 4141 M 1 1",
        7,
        LogKind::Syntax,
    ),
    (7, b"i 0 1 store 8000000000 0 -  M 1 1", 7, LogKind::Syntax),
    (
        7,
        b"i 0 1 store 8000000000 01 - 41 M 1 1",
        7,
        LogKind::Syntax,
    ),
    (
        7,
        b"i 0 1 store 8000000001 2 - 4142 M 1 1",
        7,
        LogKind::Range,
    ),
    (7, b"i 0 1 store 0000020000 1 - 41 M 1 1", 7, LogKind::Range),
    (7, b"i 0 1 store 7fffffffff 1 - 41 M 1 1", 7, LogKind::Range),
    (
        7,
        b"i 0 1 store 8000000000 1 41 41 M 1 1",
        7,
        LogKind::Syntax,
    ),
    (
        7,
        b"i 0 1 store 8000000000 1 - 41 M 1 1 ",
        7,
        LogKind::Syntax,
    ),
    (
        7,
        b"i 0 1 store 8000000000 1 - 41 N 1 1",
        7,
        LogKind::Syntax,
    ),
    (
        8,
        b"i 0 2 atomic 8000000000 4 ff000000 - M 0 1",
        8,
        LogKind::Range,
    ),
    (
        8,
        b"i 0 2 atomic 0000000140 16 ff000000ff000000ff000000ff000000 - M 0 1",
        8,
        LogKind::Range,
    ),
    (10, b"i 0 4 membar 80", 10, LogKind::Range),
    (10, b"i 0 4 membar 4", 10, LogKind::Syntax),
    (10, b"i 0 4 membar 42 H 1", 10, LogKind::Syntax),
    (12, b"i 0 6 flush ", 12, LogKind::Syntax),
    (13, b"e 0 fault 7 fedcba9876543210 200", 13, LogKind::Range),
    (13, b"e 0 fault 7 fedcba9876543210", 13, LogKind::Syntax),
    (
        13,
        b"e 0 halted 4294967296 fedcba9876543210",
        13,
        LogKind::Range,
    ),
    (13, b"e 1 halted 7 fedcba9876543210", 13, LogKind::Syntax),
    (14, b"e 2 spent 0 0000000000000100", 14, LogKind::Syntax),
    (14, b"c 0 1 0 2 - -", 14, LogKind::Syntax),
    (15, b"c 1 1 0 2 - 0000012340", 15, LogKind::Syntax),
    (15, b"c 0 5 0 2 - 0000012340", 15, LogKind::Range),
    (15, b"c 0 1 2 2 - 0000012340", 15, LogKind::Range),
    (15, b"c 0 1 0 7 - 0000012340", 15, LogKind::Range),
    (15, b"c 0 1 0 1 - 0000012340", 15, LogKind::Range),
    (15, b"c 0 1 0 4 - 0000012340", 15, LogKind::Range),
    (15, b"c 0 1 0 2 4 0000012340", 15, LogKind::Range),
    (15, b"c 0 1 0 2 - 0000012340 2.d.0.0", 15, LogKind::Range),
    (15, b"c 0 1 0 2 - 0000012340 0.d.128.0", 15, LogKind::Range),
    (15, b"c 0 1 0 2 - 0000012340 0.d.0.4", 15, LogKind::Range),
    (
        15,
        b"c 0 1 0 2 - 0000012340 2.d.0.0 0.d.0.0",
        15,
        LogKind::Range,
    ),
    (
        13,
        b"e 0 fault 7 fedcba9876543210 200 ",
        13,
        LogKind::Syntax,
    ),
    (15, b"c 0 1 0 2 - 0000012340 0.x.0.0", 15, LogKind::Syntax),
    (15, b"c 0 1 0 2 - 0000012340 ", 15, LogKind::Syntax),
    (18, b"o 2 0", 18, LogKind::Range),
    (18, b"o 0 4294967296", 18, LogKind::Range),
    (18, b"o 0", 18, LogKind::Syntax),
    (18, b"o 00 0", 18, LogKind::Syntax),
    (19, b"c 3 1 0 2 - -", 19, LogKind::Syntax),
    (20, b"k ", 20, LogKind::Syntax),
    (20, b"k 0", 20, LogKind::Syntax),
    (20, b"k 0G", 20, LogKind::Syntax),
    (20, b"k 00", 21, LogKind::Syntax),
    (
        20,
        b"k 000102030405060708090a0b0c0d0e0f101112131415161718191a1b1c1d1e1f20",
        20,
        LogKind::Syntax,
    ),
    (21, b"o 0 0", 21, LogKind::Syntax),
    (22, b"end ", 22, LogKind::Syntax),
    (22, b"k ff", 22, LogKind::Syntax),
    (22, b"end\nend", 23, LogKind::Unended),
    (22, b"end\n\n\n", 25, LogKind::Unended),
];

/// The text of these lines, with another in the place of one.
fn text_with(
    alloc: Global,
    lines: &[&[u8]],
    number: u32,
    other: &[u8],
) -> Result<Vec<u8>, AllocError> {
    let mut text = Vec::new(alloc);
    let mut count: u32 = 0;
    for line in lines {
        count = count.saturating_add(1);
        text.extend_from_slice(if count == number { other } else { line })?;
        text.push(b'\n')?;
    }
    Ok(text)
}

/// Reads a text, none of which is near the limit.
fn read(alloc: Global, text: &[u8]) -> Result<Report, LogError>
    ensures { IfOk result IsWellFormed }
{
    if text.len() > 67_108_864 {
        return Err(LogError {
            line: 0,
            kind: LogKind::OutOfMemory,
        });
    }
    read_log(alloc, text)
}

/// The fault of a text, if it has one.
fn fault_of(alloc: Global, text: &[u8]) -> Option<(u32, LogKind)> {
    match read(alloc, text) {
        Ok(_) => None,
        Err(error) => Some((error.line, error.kind)),
    }
}

#[test]
fn texts_with_one_fault_each(rt: HostRuntime) -> Result<(), AllocError> {
    let alloc = rt.alloc();
    for (number, other, line, kind) in FAULTS {
        let text = text_with(alloc, EVERY, *number, other)?;
        let fault = fault_of(alloc, text.as_slice());
        assert_eq!(rt; fault, Some((*line, *kind)), "line {number}: {other:?}");
    }
    Ok(())
}

#[test]
fn texts_that_end_elsewhere(rt: HostRuntime) -> Result<(), AllocError> {
    let alloc = rt.alloc();
    let unended = |line: u32| Some((line, LogKind::Unended));
    assert_eq!(rt; fault_of(alloc, b""), unended(0));
    assert_eq!(rt; fault_of(alloc, b"t1log 1"), unended(0));
    assert_eq!(rt; fault_of(alloc, b"x"), unended(0));
    assert_eq!(rt; fault_of(alloc, b"\n"), Some((1, LogKind::Version)));
    assert_eq!(rt; fault_of(alloc, b"t1log 1\n"), unended(1));
    assert_eq!(rt; fault_of(alloc, b"t1log 1\nfrob"), unended(1));
    assert_eq!(rt;
        fault_of(alloc, b"t1log 1\nfrob\n"),
        Some((2, LogKind::Syntax))
    );
    let whole = text_with(alloc, STORED, 0, b"")?;
    let cut = whole.as_slice().split_at(whole.len().saturating_sub(4)).0;
    assert_eq!(rt; fault_of(alloc, cut), unended(20));
    Ok(())
}

/// What a report of `STORED` holds.
fn is_stored(report: &Report) -> bool {
    let [trace] = report.traces.as_slice() else {
        return false;
    };
    let [_, _, store, _, load, last] = trace.items.as_slice() else {
        return false;
    };
    let [first, second, third] = report.log.as_slice() else {
        return false;
    };
    store.kind == ItemKind::Store
        && store.put == 5
        && store.how == How::Commit { index: 1, seen: 1 }
        && load.kind == ItemKind::Load
        && load.got == 5
        && last.how == How::Hit { time: 3 }
        && trace.units == 4
        && trace.pc == 0x110
        && trace.ending == Some(Ending::Halted)
        && first.op
            == Op::Fetch {
                addr: 0x100,
                way: 0,
            }
        && first.way == Some(0)
        && second.op
            == Op::Store {
                addr: 0x200,
                size: 8,
                value: 5,
            }
        && second.old == 0
        && third.old == 5
        && third.seen == 2
        && report.order.as_slice().len() == 6
        && report.image.entry == 0x100
        && report.image.ram.as_slice().len() == 65_536
}

#[test]
fn a_log_is_read(rt: HostRuntime) -> Result<(), LogError> {
    let alloc = rt.alloc();
    let report = read(alloc, text_with(alloc, STORED, 0, b"")?.as_slice())?;
    assert!(rt; is_stored(&report));
    let report = read(alloc, text_with(alloc, EVERY, 0, b"")?.as_slice())?;
    assert_eq!(rt; report.console.as_slice().len(), 33);
    let [first, _, third] = report.log.as_slice() else {
        return Ok(());
    };
    assert_eq!(rt; first.kills.as_slice().len(), 2);
    assert_eq!(rt; first.evicted, Some(0x12340));
    assert_eq!(rt;
        first.op,
        Op::Cas {
            addr: 0x140,
            size: 4,
            expect: 0,
            new: 0
        }
    );
    assert_eq!(rt;
        third.op,
        Op::Swap {
            addr: 0x148,
            size: 8,
            new: 255
        }
    );
    assert_eq!(rt; third.way, Some(3));
    Ok(())
}

/// A log without an item.
const EMPTY: &[&[u8]] = &[
    b"t1log 1",
    b"config cores 1 strands 1 ram 65536 sets 1024 budget 10",
    b"entry 0000000100",
    b"e 0 halted 0 0000000000000100",
    b"end",
];

/// Other lines of `STORED` in the places of two, counted from 1, and the verdict.
const ORDERS: &[(u32, &[u8], u32, &[u8], Verdict)] = &[
    (1, b"t1log 1", 21, b"end", Verdict::Holds),
    (17, b"o 0 2", 18, b"o 0 3", Verdict::Holds),
    (
        17,
        b"o 0 4",
        19,
        b"o 0 3",
        Verdict::Broken {
            axiom: Axiom::LoadOp,
            first: Place { strand: 0, item: 3 },
            second: Some(Place { strand: 0, item: 4 }),
        },
    ),
    (
        1,
        b"t1log 1",
        9,
        b"i 0 4 load 0000000200 8 0000000000000006 - M 2 2",
        Verdict::Broken {
            axiom: Axiom::Value,
            first: Place { strand: 0, item: 4 },
            second: Some(Place { strand: 0, item: 2 }),
        },
    ),
];

/// The verdict on the order of a log.
fn verdict_of(alloc: Global, text: &[u8]) -> Result<Verdict, LogError> {
    let report = read(alloc, text)?;
    Ok(check(alloc, &report)?)
}

#[test]
fn orders_of_logs_are_judged(rt: HostRuntime) -> Result<(), LogError> {
    let alloc = rt.alloc();
    for (first, one, second, other, verdict) in ORDERS {
        let mut text = Vec::new(alloc);
        let mut count: u32 = 0;
        for line in STORED {
            count = count.saturating_add(1);
            text.extend_from_slice(if count == *first {
                one
            } else if count == *second {
                other
            } else {
                line
            })?;
            match text.push(b'\n') {
                Ok(()) => {}
                Err(error) => return Err(AllocError::from(error).into()),
            }
        }
        let judged = verdict_of(alloc, text.as_slice())?;
        assert_eq!(rt; judged, *verdict, "lines {first} and {second}");
    }
    let judged = verdict_of(alloc, text_with(alloc, EMPTY, 0, b"")?.as_slice())?;
    assert_eq!(rt; judged, Verdict::Holds);
    Ok(())
}

//! Runs of guests that the assembler makes, on one strand and on several.

use crate::serve::{Came, assert_rows, serve_all};
use std::alloc::Global;
use std::fmt::Write;
use std::process::Abort;
use std::test::Fail;
use t1_guests::{
    CALM, Input, Out, ROW, Row, Seen, counter, message, store_membar_load, two_readers,
};

/// Calls ten deep, each in its own window with its own local, and back; then 77 to 800 hex. The handler
/// at 1000 spills the window at its stack pointer and does `saved` and `retry`, that at 1800 fills it and
/// does `restored` and `retry`.
const TEN_WINDOWS: &str = "\
        .org 0x100
_start:
        .word 0x1d000024, 0x82102000, 0x9de3bf40, 0x82006001, 0xa0100001, 0x80a0600a
        .word 0x12bffffc, 0x01000000, 0x80a40001, 0x12800009, 0x01000000, 0x81e80000
        .word 0x82a06001, 0x12bffffb, 0x01000000, 0x8810204d, 0xc8702800, 0xb5802000
        .word 0xb5802000
        .org 0x1000
        .word 0xe073a000, 0xe273a008, 0xe473a010, 0xe673a018, 0xe873a020, 0xea73a028
        .word 0xec73a030, 0xee73a038, 0xf073a040, 0xf273a048, 0xf473a050, 0xf673a058
        .word 0xf873a060, 0xfa73a068, 0xfc73a070, 0xfe73a078, 0x81880000, 0x83f00000
        .org 0x1800
        .word 0xe05ba000, 0xe25ba008, 0xe45ba010, 0xe65ba018, 0xe85ba020, 0xea5ba028
        .word 0xec5ba030, 0xee5ba038, 0xf05ba040, 0xf25ba048, 0xf45ba050, 0xf65ba058
        .word 0xf85ba060, 0xfa5ba068, 0xfc5ba070, 0xfe5ba078, 0x83880000, 0x83f00000
";

/// Enables interrupts, asks for that of level 4 by SET_SOFTINT, and then stores 77 to 800 hex. Its handler
/// clears the interrupt, stores 5 to 808 hex and does `retry`.
const INTERRUPT: &str = "\
        .org 0x100
_start:
        .word 0x8d902006, 0xa9802010, 0x8810204d, 0xc8702800, 0xb5802000
        .org 0x880
        .word 0xab802010, 0x82102005, 0xc2702808, 0x83f00000
";

/// A row of a guest that is assembled and run.
const RUN: Row<'static> = Row {
    words: "asm | run --cores 1 --strands 1 --ram 65536 --budget 1000",
    ..ROW
};

const ROWS: &[Row<'static>] = &[
    Row {
        input: Input::Text(TEN_WINDOWS),
        out: Out::Shows(" store 0000000800 8 - 000000000000004d M "),
        ..RUN
    },
    Row {
        input: Input::Text(TEN_WINDOWS),
        out: Out::Lacks(" store 0000000808 8 - 0000000000000005 M "),
        ..RUN
    },
    Row {
        input: Input::Text(INTERRUPT),
        out: Out::Shows(" store 0000000800 8 - 000000000000004d M "),
        ..RUN
    },
    Row {
        input: Input::Text(INTERRUPT),
        out: Out::Shows(" store 0000000808 8 - 0000000000000005 M "),
        ..RUN
    },
];

#[test]
fn windows_and_interrupts_come_back(rt: HostRuntime) -> Result<(), Fail> {
    assert_rows(&rt, rt.alloc(), ROWS)?;
    Ok(())
}

/// Stores a word, and loads its last byte.
const STORE_AND_LOAD_A_BYTE: &str = "\
        .org 0x100
        mov 5, %g1
        stw %g1, [0x200]
        ldub [0x203], %g2
        wr %g0, 0, %asr26
";

/// Two strands of which each stores and loads the other's line, without the membar between.
fn unfenced(alloc: Global) -> Result<String, Fail> {
    let mut guest = String::new(alloc);
    for line in store_membar_load()
        .lines()
        .filter(|line| !line.contains("membar"))
    {
        writeln!(guest, "{line}")?;
    }
    Ok(guest)
}

/// Strand 0 stores a halt over the branch at 400 hex, and then 1 to 8080 hex. Strand 1 loads 8080 until it
/// is not 0, does a flush and jumps to 400.
const WRITTEN_CODE: &str = "\
        .org 0x100
_start: sethi %hi(0x8000), %g1
        cmp %o0, 0
        bne reader
        mov 1, %g2
        sethi %hi(0xb5802000), %g3
        stw %g3, [0x400]
        stx %g2, [%g1 + 0x80]
        wr %g0, 0, %asr26
reader: ldx [%g1 + 0x80], %g4
        cmp %g4, 0
        be %xcc, reader
        nop
        flush %g0 + 0x400
        jmp %g0 + 0x400
        nop
        .org 0x400
        ba .
";

/// By turns, and by seeds 0 to 9.
const ALL: &[Option<u64>] = &[
    None,
    Some(0),
    Some(1),
    Some(2),
    Some(3),
    Some(4),
    Some(5),
    Some(6),
    Some(7),
    Some(8),
    Some(9),
];

/// Assembles a guest, and runs it by a schedule.
fn run_by(alloc: Global, text: &str, words: &str, schedule: Option<u64>) -> Result<Came, Fail> {
    let mut lines = String::from_str(alloc, "asm | run --ram 65536 ")?;
    lines.push_str(words)?;
    if let Some(seed) = schedule {
        write!(lines, " --seed {seed}")?;
    }
    let text = Vec::from_slice(alloc, text.as_bytes())?;
    Ok(serve_all(alloc, lines.as_str(), text, CALM)?)
}

/// Runs a guest by each of some schedules: it halts, and each log shows what is seen.
fn assert_seen(
    rt: &impl Abort,
    alloc: Global,
    text: &str,
    words: &str,
    schedules: &[Option<u64>],
    seen: Seen,
) -> Result<(), Fail> {
    for schedule in schedules {
        let came = run_by(alloc, text, words, *schedule)?;
        let log = str::from_utf8(came.out.as_slice())?;
        assert_eq!(rt; came.status, 0, "{words} {schedule:?}");
        assert!(rt; seen.is(alloc, log)?, "{words} {schedule:?}");
    }
    Ok(())
}

#[test]
fn logs_show_what_the_memory_order_allows(rt: HostRuntime) -> Result<(), Fail> {
    let byte = Seen::Got {
        strand: "0",
        kind: "load",
        addr: "0000000203",
        got: "05",
    };
    let flag = Seen::Got {
        strand: "1",
        kind: "load",
        addr: "0000008040",
        got: "0000000000000001",
    };
    let halt = Seen::Got {
        strand: "1",
        kind: "fetch",
        addr: "0000000400",
        got: "b5802000",
    };
    let put = Seen::Put("0000000000000140");
    let two = "--cores 2 --strands 1";
    let few = "--cores 2 --strands 1 --budget 10";
    let more = "--cores 2 --strands 1 --budget 20";
    let unfenced = unfenced(rt.alloc())?;
    assert_seen(&rt, rt.alloc(), unfenced.as_str(), few, ALL, Seen::Any)?;
    assert_seen(
        &rt,
        rt.alloc(),
        unfenced.as_str(),
        few,
        &[Some(18)],
        Seen::NoStore,
    )?;
    assert_seen(
        &rt,
        rt.alloc(),
        store_membar_load(),
        more,
        ALL,
        Seen::OneStore,
    )?;
    assert_seen(
        &rt,
        rt.alloc(),
        two_readers(),
        "--cores 4 --strands 1",
        ALL,
        Seen::OneOrder,
    )?;
    assert_seen(
        &rt,
        rt.alloc(),
        STORE_AND_LOAD_A_BYTE,
        "--cores 1 --strands 1",
        ALL,
        byte,
    )?;
    assert_seen(&rt, rt.alloc(), message(), two, ALL, flag)?;
    assert_seen(&rt, rt.alloc(), WRITTEN_CODE, two, ALL, halt)?;
    assert_seen(&rt, rt.alloc(), counter(), "--budget 3000", &[None], put)
}

#[test]
fn a_large_guest_ends_alike_in_all_strands(rt: HostRuntime) -> Result<(), Fail> {
    let mut first = Vec::new(rt.alloc());
    for number in 0..2 {
        let lines = "gen --seed 0 --size 4000 | run --brief";
        let came = serve_all(rt.alloc(), lines, Vec::new(rt.alloc()), CALM)?;
        assert_eq!(rt; came.status, 0);
        let brief = str::from_utf8(came.out.as_slice())?;
        let ended = " halted 4002 0000000000004e88";
        let ends = brief.lines().filter(|line| line.ends_with(ended)).count();
        assert_eq!(rt; ends, 32);
        assert!(rt; brief.contains("\nn units 128064 "));
        if number == 0 {
            first = came.out;
        } else {
            assert_eq!(rt; came.out, first);
        }
    }
    Ok(())
}

//! The assembler and the disassembler.

use crate::serve::{assert_rows, serve};
use std::alloc::Global;
use std::test::Fail;
use t1_guests::{CALM, Change, File, Input, Out, ROW, Row, STORE_AND_LOAD, file_of, has_line};
use t1_vectors::{more_words, words_and_texts};

/// A row of a text that is assembled.
const ASM: Row<'static> = Row {
    words: "asm",
    ..ROW
};

/// A row of a text that has a fault.
const FAULT: Row<'static> = Row {
    words: "asm",
    status: 2,
    out: Out::Is(""),
    ..ROW
};

/// A row of a file whose words are shown.
const DIS: Row<'static> = Row {
    words: "dis",
    ..ROW
};

/// The file of a halt at 100 hex.
const HALT: File<'static> = File {
    words: "b5802000",
    ..STORE_AND_LOAD
};

/// The file of no word: a header that counts no segment.
const NONE: File<'static> = File {
    words: "",
    at: 0,
    entry: 0,
    change: Change {
        place: 57,
        count: 1,
        value: 0,
    },
    size: 64,
};

/// The file of a `nop` that an entry of 100 hex does not begin.
const NOP: File<'static> = File {
    words: "01000000",
    ..STORE_AND_LOAD
};

const FILES: &[Row<'static>] = &[
    Row {
        input: Input::Text(" .org 0x100\n wr %g0, 0, %asr26"),
        out: Out::File(HALT),
        ..ASM
    },
    Row {
        input: Input::File(HALT),
        out: Out::Is("0000000100 b5802000 wr %g0, 0, %asr26\n"),
        ..DIS
    },
    Row {
        input: Input::Text(""),
        out: Out::File(NONE),
        ..ASM
    },
    Row {
        input: Input::File(NONE),
        status: 2,
        err: "elf NoSegment",
        ..DIS
    },
    // Words at and past the end of memory, and at no multiple of four.
    Row {
        input: Input::File(File {
            at: 0x7f_ffff_fffc,
            ..NOP
        }),
        out: Out::Is("7ffffffffc 01000000 sethi 0, %g0\n"),
        ..DIS
    },
    Row {
        input: Input::File(File {
            at: 0x7f_ffff_fffd,
            ..NOP
        }),
        status: 2,
        out: Out::Is(""),
        err: "elf SegmentOutside",
        ..DIS
    },
    Row {
        input: Input::File(File { at: 0x102, ..NOP }),
        out: Out::Is(""),
        ..DIS
    },
    Row {
        words: "asm | dis",
        input: Input::Text(
            ".org 0x101\n.byte 0, 1, 2\n.half 0x8143, 0xe002\n.byte 3, 4, 5\n.org 0x40\n_start: .skip 8\n",
        ),
        out: Out::Is(
            "0000000104 8143e002 membar 2\n0000000040 00000000 .word 0x00000000\n0000000044 00000000 .word 0x00000000\n",
        ),
        ..ROW
    },
    Row {
        input: Input::Text(
            ".org 0x100\nadd %g1, 1, %g2\nsethi %hi(0x12345400), %g1\nretl\nsave %sp, -96, %sp\nmembar #StoreLoad\nta 1\nwr %g0, 0, %asr26\n",
        ),
        out: Out::File(File {
            words: "84006001 03048d15 81c3e008 9de3bfa0 8143e002 91d02001 b5802000",
            ..STORE_AND_LOAD
        }),
        ..ASM
    },
    Row {
        input: Input::Text("add %g1, 4095, %g2"),
        out: Out::File(File {
            words: "84006fff",
            at: 0,
            entry: 0,
            ..STORE_AND_LOAD
        }),
        ..ASM
    },
];

#[test]
fn texts_become_files_and_files_their_words(rt: HostRuntime) -> Result<(), Fail> {
    assert_rows(&rt, rt.alloc(), FILES)?;
    Ok(())
}

const FAULTS: &[Row<'static>] = &[
    Row {
        input: Input::Text("nop\nnop\nfrob %g1\n"),
        err: "asm line 3: UnknownName",
        ..FAULT
    },
    Row {
        input: Input::Text("add %g1, 4096, %g2"),
        err: "asm line 1: OutOfRange",
        ..FAULT
    },
    Row {
        input: Input::Text("ba nowhere"),
        err: "asm line 1: MissingLabel",
        ..FAULT
    },
    Row {
        input: Input::Text("nop\n@\n"),
        err: "asm line 2: Syntax",
        ..FAULT
    },
    Row {
        input: Input::Text("nop\nadd %g1\n"),
        err: "asm line 2: BadOperand",
        ..FAULT
    },
    Row {
        input: Input::Text("a: nop\na: nop\n"),
        err: "asm line 2: DuplicateLabel",
        ..FAULT
    },
    Row {
        input: Input::Text(".skip 16777217"),
        err: "asm line 1: TooLong",
        ..FAULT
    },
];

#[test]
fn the_first_fault_of_a_text_is_told(rt: HostRuntime) -> Result<(), Fail> {
    assert_rows(&rt, rt.alloc(), FAULTS)?;
    Ok(())
}

/// The words of the tables.
fn all_words(alloc: Global) -> Result<Vec<u32>, Fail> {
    let mut words = Vec::new(alloc);
    for row in words_and_texts().lines() {
        if let Some((word, _)) = row.split_once(" ") {
            words.push(u32::from_str_radix(word, 16)?)?;
        }
    }
    for word in more_words().split_whitespace() {
        words.push(u32::from_str_radix(word, 16)?)?;
    }
    Ok(words)
}

/// The statements of the lines of words, behind a line that gives their address.
fn statements(alloc: Global, shown: &str) -> Result<Vec<u8>, Fail> {
    let mut text = Vec::from_slice(alloc, b".org 0x100\n")?;
    for line in shown.lines() {
        if let Some(statement) = line.splitn(3, " ").nth(2) {
            text.extend_from_slice(statement.as_bytes())?;
            text.push(b'\n')?;
        }
    }
    Ok(text)
}

#[test]
fn shown_words_are_assembled_to_themselves(rt: HostRuntime) -> Result<(), Fail> {
    let words = all_words(rt.alloc())?;
    assert_eq!(rt; words.len(), 412);
    let file = file_of(rt.alloc(), words.as_slice(), 0x100, 0x100)?;
    let came = serve(rt.alloc(), "dis", file.clone()?, CALM)?;
    assert_eq!(rt; came.status, 0);
    let shown = str::from_utf8(came.out.as_slice())?;
    for line in [
        "0000000100 aa00000b add %g0, %o3, %l5",
        "0000000478 8d806005 wr %g1, 5, %fprs",
    ] {
        assert!(rt; has_line(shown, line), "{line}");
    }
    let came = serve(rt.alloc(), "asm", statements(rt.alloc(), shown)?, CALM)?;
    assert_eq!(rt; came.status, 0);
    assert_eq!(rt; came.out, file);
    Ok(())
}

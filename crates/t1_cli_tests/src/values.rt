//! Worked values, by guests that the assembler makes.

use crate::serve::serve_all;
use std::alloc::Global;
use std::fmt::Write;
use std::test::Fail;
use t1_guests::CALM;
use t1_vectors::{operations, windows};

/// What every guest begins with: handlers of traps 023, 028, 080 and 0c0, which store the trap type and
/// CWP and halt, and the address of the code.
fn guest(alloc: Global) -> Result<String, Fail> {
    let mut text = String::new(alloc);
    for handler in [0x23 * 32, 0x28 * 32, 0x80 * 32, 0xc0 * 32] {
        write!(text, ".org {handler}\nrdpr %tt, %g1\nstx %g1, [0x400]\n")?;
        write!(
            text,
            "rdpr %cwp, %g1\nstx %g1, [0x408]\nwr %g0, 0, %asr26\n"
        )?;
    }
    write!(text, ".org 0x100\n_start:\n")?;
    Ok(text)
}

/// A guest that does an operation, and stores its value, Y and the condition codes.
fn operation_guest(alloc: Global, row: &str) -> Result<String, Fail> {
    let mut words = row.split(" ");
    let op = words.next().unwrap_or("");
    let a = words.next().unwrap_or("");
    let b = words.next().unwrap_or("");
    let y = words.next().unwrap_or("");
    let ccr = words.next().unwrap_or("");
    let mut text = guest(alloc)?;
    write!(
        text,
        "ldx [0x300], %g1\nldx [0x308], %g2\nldx [0x310], %g3\n"
    )?;
    write!(
        text,
        "wr %g3, 0, %y\nwr %g0, 0x{ccr}, %ccr\n{op} %g1, %g2, %g4\n"
    )?;
    write!(
        text,
        "rd %y, %g5\nrd %ccr, %g6\nstx %g4, [0x400]\nstx %g5, [0x408]\n"
    )?;
    write!(text, "stx %g6, [0x410]\nwr %g0, 0, %asr26\n")?;
    write!(text, ".org 0x300\n.xword 0x{a}, 0x{b}, 0x{y}\n")?;
    Ok(text)
}

/// A guest that saves and restores so often, and stores CWP, CANSAVE and CANRESTORE.
fn window_guest(alloc: Global, row: &str) -> Result<String, Fail> {
    let (saves, restores) = row.split_once(" ").unwrap_or(("", ""));
    let mut text = guest(alloc)?;
    for _ in 0..u32::from_str_radix(saves, 10)? {
        write!(text, "save\n")?;
    }
    for _ in 0..u32::from_str_radix(restores, 10)? {
        write!(text, "restore\n")?;
    }
    write!(
        text,
        "rdpr %cwp, %g1\nrdpr %cansave, %g2\nrdpr %canrestore, %g3\n"
    )?;
    write!(
        text,
        "stx %g1, [0x400]\nstx %g2, [0x408]\nstx %g3, [0x410]\nwr %g0, 0, %asr26\n"
    )?;
    Ok(text)
}

/// The values of eight bytes that a guest stores, in their order: it is assembled and run.
fn stored(alloc: Global, guest: &str) -> Result<Vec<u64>, Fail> {
    let text = Vec::from_slice(alloc, guest.as_bytes())?;
    let lines = "asm | run --cores 1 --strands 1 --ram 65536 --budget 100";
    let log = serve_all(alloc, lines, text, CALM)?.out;
    let mut values = Vec::new(alloc);
    for line in str::from_utf8(log.as_slice())?.lines() {
        if line.starts_with("i ") {
            if let Some((_, rest)) = line.split_once(" 8 - ") {
                let value = rest.split(" ").next().unwrap_or("");
                values.push(u64::from_str_radix(value, 16)?)?;
            }
        }
    }
    Ok(values)
}

/// The numbers of a row's end.
fn numbers(alloc: Global, row: &str) -> Result<Vec<u64>, Fail> {
    let mut numbers = Vec::new(alloc);
    for word in row.split(" ") {
        if word != "trap" {
            numbers.push(u64::from_str_radix(word, 16)?)?;
        }
    }
    Ok(numbers)
}

#[test]
fn operations_and_windows_have_these_values(rt: HostRuntime) -> Result<(), Fail> {
    for (table, is_operation, rows) in [(operations(), true, 11), (windows(), false, 5)] {
        let mut tried = 0u64;
        for row in table.lines() {
            let (given, wanted) = row.split_once(" = ").unwrap_or(("", ""));
            let text = if is_operation {
                operation_guest(rt.alloc(), given)?
            } else {
                window_guest(rt.alloc(), given)?
            };
            let values = stored(rt.alloc(), text.as_str())?;
            let wanted = numbers(rt.alloc(), wanted)?;
            assert!(rt; values.as_slice().starts_with(wanted.as_slice()), "{row}");
            tried = tried.saturating_add(1);
        }
        assert_eq!(rt; tried, rows);
    }
    Ok(())
}

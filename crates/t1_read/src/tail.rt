//! The lines behind those of the strands: the commits, the memory order, the console, the end.
ghost use Rattle.std.specs.Prelude.{ℕ, ◌≡◌, ◌*◌, ◌<◌, ◌≤◌, ◌++◌, ⊤, List, length, drop, All, IsTrue, IfOk};
ghost use Rattle.t1_num.specs.MemoryLaws.{AreBytes};
ghost use Rattle.t1_event.specs.declared.commit.Commit.{Commit as CommitData};
ghost use Rattle.t1_event.specs.declared.report.Place.{Place as PlaceData};
ghost use Rattle.t1_elf.specs.declared.object.Image.{Image as ImageData};
ghost use Rattle.t1_event.specs.declared.trace.Trace.{Trace as TraceData};
ghost use Rattle.t1_event.specs.declared.report.Config.{Config as ConfigData};
ghost use Rattle.t1_event.specs.Items.{items_of};
ghost use Rattle.t1_log.specs.Lines.{end_line};
ghost use Rattle.t1_log.specs.Log.{commit_line_of, console_lines_of};
ghost use Rattle.t1_log.specs.Texts.{lines_from, order_lines_of};
ghost use Rattle.t1_take.specs.Taken.{Reads};
ghost use Rattle.t1_take.specs.WellFormed.{AreGoodCommits, IsGoodPlace, IsNamed};
ghost use Rattle.t1_read.specs.Exact.{IsRead, NextIsNot};
ghost use Rattle.t1_take.specs.Limits.{is_in_limits};
ghost use Rattle.t1_read.specs.Standing.{Leads, HasStrands, HasCommits, HasOrder, HasConsole, IsGoodTail, tail_text};

use crate::error::{LogError, LogKind};
use crate::lines::{Lines, line_feeds};
use std::alloc::Global;
use t1_elf::Listed;
use t1_event::{Commit, Config, Place, Trace};
use t1_line_forms::Line;
use t1_take::{append, take_commit, take_console, take_place};

/// The commits of a log, its memory order, the bytes of its console.
pub(crate) struct Tail {
    pub log: Listed<Commit>,
    pub order: Listed<Place>,
    pub console: Listed<u8>,
}

fn read_commits(
    alloc: Global,
    lines: &mut Lines,
    text: &[u8],
    cores: u8,
    traces: &[Trace],
) -> Result<Listed<Commit>, LogError>
    requires length { length text.now ≤ 67108864 }
    requires cores { cores ≤ 8 }
    ensures good { IfOk result (λ log. AreGoodCommits cores (items_of traces.now) log × (length log ≤ 67108864)) }
    ensures reads { IfOk result (λ log. Reads text.now lines.old.at lines.new.at (lines_from commit_line_of 0 log)) }
    ensures finds { (all : List CommitData) (rest : List ℕ) → AreGoodCommits cores (items_of traces.now) all → All IsNamed all → NextIsNot 99 rest → drop lines.old.at text.now ≡ lines_from commit_line_of 0 all ++ rest → IsRead result (λ log. (log ≡ all) × (drop lines.new.at text.now ≡ rest)) }
    ensures leads { (config : ConfigData) (image : ImageData) → HasStrands text.now lines.old.at config image traces.now → cores ≡ config.cores → Leads text.now result (HasCommits text.now lines.new.at config image traces.now) }
{
    let mut log = Listed::new(alloc);
    for index in 0..text.len() {
        let mut cursor = lines.next();
        if cursor.peek(text) != b'c' {
            return Ok(log);
        }
        match take_commit(&mut cursor, text, index, cores, traces) {
            Some(commit) => log.push(commit)?,
            None => {
                return Err(lines.fault(
                    text,
                    Line::Commit {
                        index: index as u64,
                    },
                ));
            }
        }
        lines.went(cursor);
    }
    Ok(log)
}

fn read_order(
    alloc: Global,
    lines: &mut Lines,
    text: &[u8],
    strands: usize,
) -> Result<Listed<Place>, LogError>
    requires length { length text.now ≤ 67108864 }
    requires strands { strands ≤ 256 }
    ensures good { IfOk result (All (IsGoodPlace strands)) }
    ensures reads { IfOk result (λ order. Reads text.now lines.old.at lines.new.at (order_lines_of order)) }
    ensures finds { (all : List PlaceData) (rest : List ℕ) → All (IsGoodPlace strands) all → NextIsNot 111 rest → drop lines.old.at text.now ≡ order_lines_of all ++ rest → IsRead result (λ order. (order ≡ all) × (drop lines.new.at text.now ≡ rest)) }
    ensures leads { (config : ConfigData) (image : ImageData) (traces : List TraceData) (log : List CommitData) → HasCommits text.now lines.old.at config image traces log → strands ≡ config.cores * config.strands → Leads text.now result (HasOrder text.now lines.new.at config image traces log) }
{
    let mut order = Listed::new(alloc);
    for _line in 0..text.len() {
        let mut cursor = lines.next();
        if cursor.peek(text) != b'o' {
            return Ok(order);
        }
        match take_place(&mut cursor, text, strands) {
            Some(place) => order.push(place)?,
            None => return Err(lines.fault(text, Line::Order)),
        }
        lines.went(cursor);
    }
    Ok(order)
}

/// What is stored in bytes is below 256.
fn are_bytes(bytes: &[u8])
    ensures { AreBytes bytes.now }
{
    let _ = bytes;
}

/// Reads the lines of the console, up to a short one.
fn read_console(alloc: Global, lines: &mut Lines, text: &[u8]) -> Result<Listed<u8>, LogError>
    requires { length text.now ≤ 67108864 }
    ensures reads { IfOk result (λ console. Reads text.now lines.old.at lines.new.at (console_lines_of console)) }
    ensures finds { (all rest : List ℕ) → AreBytes all → NextIsNot 107 rest → drop lines.old.at text.now ≡ console_lines_of all ++ rest → IsRead result (λ console. (console ≡ all) × (drop lines.new.at text.now ≡ rest)) }
    ensures leads { (config : ConfigData) (image : ImageData) (traces : List TraceData) (log : List CommitData) (order : List PlaceData) → HasOrder text.now lines.old.at config image traces log order → Leads text.now result (HasConsole text.now lines.new.at config image traces log order) }
{
    let mut console = Listed::new(alloc);
    let mut full = true;
    for _line in 0..text.len() {
        let mut cursor = lines.next();
        if !full {
            return Ok(console);
        }
        if cursor.peek(text) != b'k' {
            return Ok(console);
        }
        let bytes = take_console(&mut cursor, text);
        if !cursor.is_good() {
            return Err(lines.fault(text, Line::Console));
        }
        are_bytes(bytes.as_slice());
        append(&mut console, bytes.as_slice())?;
        full = bytes.len() == 32;
        lines.went(cursor);
    }
    Ok(console)
}

/// Reads the last line, behind which nothing stands.
fn read_end(lines: &mut Lines, text: &[u8]) -> Result<(), LogError>
    requires { length text.now ≤ 67108864 }
    ensures is { IfOk result (λ _. drop lines.old.at text.now ≡ end_line) }
    ensures finds { drop lines.old.at text.now ≡ end_line → IsRead result (λ _. ⊤) }
    ensures leads { (config : ConfigData) (image : ImageData) (traces : List TraceData) (log : List CommitData) (order : List PlaceData) (console : List ℕ) → HasConsole text.now lines.old.at config image traces log order console → Leads text.now result (λ _. ⊤) }
{
    let mut cursor = lines.next();
    cursor.word(text, b"end\n");
    if !cursor.is_good() {
        return Err(lines.fault(text, Line::Last));
    }
    lines.went(cursor);
    if lines.at == text.len() {
        Ok(())
    } else {
        Err(LogError {
            line: line_feeds(text),
            kind: LogKind::Unended,
        })
    }
}

/// Reads the lines behind those of the strands, to the end of the text.
pub(crate) fn read_tail(
    alloc: Global,
    lines: &mut Lines,
    text: &[u8],
    config: &Config,
    traces: &[Trace],
) -> Result<Tail, LogError>
    requires length { length text.now ≤ 67108864 }
    requires limits { IsTrue (is_in_limits config.now) }
    ensures good { IfOk result (λ tail. IsGoodTail config.now traces.now tail.log tail.order × (length tail.log ≤ 67108864)) }
    ensures reads { IfOk result (λ tail. drop lines.old.at text.now ≡ tail_text tail.log tail.order tail.console) }
    ensures finds { (log : List CommitData) (order : List PlaceData) (console : List ℕ) → IsGoodTail config.now traces.now log order → All IsNamed log → AreBytes console → drop lines.old.at text.now ≡ tail_text log order console → IsRead result (λ tail. (tail.log ≡ log) × (tail.order ≡ order) × (tail.console ≡ console)) }
    ensures leads { (image : ImageData) → HasStrands text.now lines.old.at config.now image traces.now → Leads text.now result (λ _. ⊤) }
{
    let strands = u64::from(config.cores) * u64::from(config.strands);
    let log = read_commits(alloc, lines, text, config.cores, traces)?;
    let order = read_order(alloc, lines, text, strands as usize)?;
    let console = read_console(alloc, lines, text)?;
    read_end(lines, text)?;
    Ok(Tail {
        log,
        order,
        console,
    })
}

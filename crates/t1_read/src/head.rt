//! The head of a log: its version, the machine, the image.
ghost use Rattle.std.specs.Prelude.{ℕ, ◌≡◌, ◌*◌, ◌%◌, ◌^◌, ◌<◌, ◌≤◌, ◌++◌, List, [], length, drop, get_or, IsTrue, IfOk};
ghost use Rattle.t1_num.specs.MemoryLaws.{AreBytes};
ghost use Rattle.t1_elf.specs.declared.object.Image.{Image as ImageData};
ghost use Rattle.t1_event.specs.declared.report.Config.{Config as ConfigData};
ghost use Rattle.t1_event.specs.Printable.{FitsDigits};
ghost use Rattle.t1_log.specs.Lines.{config_line_of, entry_line_of};
ghost use Rattle.t1_log.specs.Log.{version_line};
ghost use Rattle.t1_log.specs.Texts.{image_lines_of, head_lines_of};
ghost use Rattle.t1_take.specs.Limits.{is_in_limits};
ghost use Rattle.t1_take.specs.Taken.{Reads};
ghost use Rattle.t1_read.specs.Exact.{IsRead, NextIsNot};
ghost use Rattle.t1_read.specs.Faults.{AtConfig, AtEntry};
ghost use Rattle.t1_read.specs.Standing.{Stands, Leads, IsHead, HasTraces, IsGoodHead};

use crate::error::{LogError, LogKind};
use crate::lines::{Lines, first_line};
use std::alloc::Global;
use t1_elf::{Image, Listed};
use t1_event::Config;
use t1_line_forms::Line;
use t1_take::{take_block, take_config, take_entry};

/// The machine of a log, and its image.
pub(crate) struct Head {
    pub config: Config,
    pub image: Image,
}

/// Reads the version line.
fn read_version(lines: &mut Lines, text: &[u8]) -> Result<(), LogError>
    ensures reads { IfOk result (λ _. Reads text.now lines.old.at lines.new.at version_line) }
    ensures finds { (rest : List ℕ) → drop lines.old.at text.now ≡ version_line ++ rest → IsRead result (λ _. drop lines.new.at text.now ≡ rest) }
    ensures leads { lines.old.at ≡ 0 → Leads text.now result (λ _. Stands text.now lines.new.at AtConfig) }
{
    let mut cursor = lines.next();
    cursor.word(text, b"t1log 1\n");
    if cursor.is_good() {
        lines.went(cursor);
        return Ok(());
    }
    match first_line(text) {
        Some(_line) => Err(LogError {
            line: 1,
            kind: LogKind::Version,
        }),
        None => Err(LogError {
            line: 0,
            kind: LogKind::Unended,
        }),
    }
}

fn read_config(lines: &mut Lines, text: &[u8]) -> Result<Config, LogError>
    requires { length text.now ≤ 67108864 }
    ensures limits { IfOk result (λ config. IsTrue (is_in_limits config)) }
    ensures reads { IfOk result (λ config. Reads text.now lines.old.at lines.new.at (config_line_of config)) }
    ensures finds { (config : ConfigData) (rest : List ℕ) → IsTrue (is_in_limits config) → drop lines.old.at text.now ≡ config_line_of config ++ rest → IsRead result (λ c. (c ≡ config) × (drop lines.new.at text.now ≡ rest)) }
    ensures leads { Stands text.now lines.old.at AtConfig → Leads text.now result (λ config. Stands text.now lines.new.at (AtEntry config)) }
{
    let mut cursor = lines.next();
    match take_config(&mut cursor, text) {
        Some(config) => {
            lines.went(cursor);
            Ok(config)
        }
        None => Err(lines.fault(text, Line::Config)),
    }
}

fn read_entry(lines: &mut Lines, text: &[u8]) -> Result<u64, LogError>
    requires { length text.now ≤ 67108864 }
    ensures fits { IfOk result (FitsDigits 10) }
    ensures reads { IfOk result (λ entry. Reads text.now lines.old.at lines.new.at (entry_line_of entry)) }
    ensures finds { (entry : ℕ) (rest : List ℕ) → FitsDigits 10 entry → drop lines.old.at text.now ≡ entry_line_of entry ++ rest → IsRead result (λ n. (n ≡ entry) × (drop lines.new.at text.now ≡ rest)) }
    ensures leads { (config : ConfigData) → Stands text.now lines.old.at (AtEntry config) → Leads text.now result (λ entry. IsHead text.now lines.new.at config entry) }
{
    let mut cursor = lines.next();
    match take_entry(&mut cursor, text) {
        Some(entry) => {
            lines.went(cursor);
            Ok(entry)
        }
        None => Err(lines.fault(text, Line::Entry)),
    }
}

/// Reads the lines of blocks into a memory of zeros.
fn read_image(lines: &mut Lines, text: &[u8], ram: &mut [u8]) -> Result<(), LogError>
    requires text { length text.now ≤ 67108864 }
    requires blocks { length ram.old % 32 ≡ 0 }
    requires zeros { (at : ℕ) → get_or ram.old at 0 ≡ 0 }
    ensures length { length ram.new ≡ length ram.old }
    ensures reads { IfOk result (λ _. Reads text.now lines.old.at lines.new.at (image_lines_of ram.new)) }
    ensures finds { (all rest : List ℕ) → length all ≡ length ram.old → length all ≤ 2 ^ 40 → AreBytes all → NextIsNot 109 rest → drop lines.old.at text.now ≡ image_lines_of all ++ rest → IsRead result (λ _. (ram.new ≡ all) × (drop lines.new.at text.now ≡ rest)) }
    ensures leads { (config : ConfigData) (entry : ℕ) → IsHead text.now lines.old.at config entry → length ram.old ≡ config.ram → Leads text.now result (λ _. HasTraces text.now lines.new.at config (record { entry = entry; ram = ram.new }) []) }
{
    let mut least = 0;
    for _line in 0..text.len() {
        let mut cursor = lines.next();
        if cursor.peek(text) != b'm' {
            return Ok(());
        }
        match take_block(&mut cursor, text, least, ram) {
            Some(addr) => least = addr + 32,
            None => return Err(lines.fault(text, Line::Block)),
        }
        lines.went(cursor);
    }
    Ok(())
}

/// Reads the memory of so many bytes.
fn read_memory(
    alloc: Global,
    lines: &mut Lines,
    text: &[u8],
    bytes: u64,
) -> Result<Listed<u8>, LogError>
    requires text { length text.now ≤ 67108864 }
    requires blocks { bytes % 32 ≡ 0 }
    ensures length { IfOk result (λ ram. length ram ≡ bytes) }
    ensures reads { IfOk result (λ ram. Reads text.now lines.old.at lines.new.at (image_lines_of ram)) }
    ensures finds { (all rest : List ℕ) → length all ≡ bytes → length all ≤ 2 ^ 40 → AreBytes all → NextIsNot 109 rest → drop lines.old.at text.now ≡ image_lines_of all ++ rest → IsRead result (λ ram. (ram ≡ all) × (drop lines.new.at text.now ≡ rest)) }
    ensures leads { (config : ConfigData) (entry : ℕ) → IsHead text.now lines.old.at config entry → bytes ≡ config.ram → Leads text.now result (λ ram. HasTraces text.now lines.new.at config (record { entry = entry; ram = ram }) []) }
{
    let mut ram = Vec::from_elem(alloc, 0u8, bytes as usize)?;
    read_image(lines, text, ram.as_mut_slice())?;
    Ok(Listed::from_vec(ram))
}

/// Reads the lines before those of the strands.
pub(crate) fn read_head(alloc: Global, lines: &mut Lines, text: &[u8]) -> Result<Head, LogError>
    requires { length text.now ≤ 67108864 }
    ensures good { IfOk result (λ head. IsGoodHead head.config head.image) }
    ensures reads { IfOk result (λ head. Reads text.now lines.old.at lines.new.at (head_lines_of version_line head.config head.image)) }
    ensures finds { (config : ConfigData) (image : ImageData) (rest : List ℕ) → IsGoodHead config image → AreBytes image.ram → NextIsNot 109 rest → drop lines.old.at text.now ≡ head_lines_of version_line config image ++ rest → IsRead result (λ head. (head.config ≡ config) × (head.image ≡ image) × (drop lines.new.at text.now ≡ rest)) }
    ensures leads { lines.old.at ≡ 0 → Leads text.now result (λ head. HasTraces text.now lines.new.at head.config head.image []) }
{
    read_version(lines, text)?;
    let config = read_config(lines, text)?;
    let entry = read_entry(lines, text)?;
    let ram = read_memory(alloc, lines, text, config.ram)?;
    Ok(Head {
        config,
        image: Image { entry, ram },
    })
}

//! The lines of strands.
ghost use Rattle.std.specs.Prelude.{ℕ, ◌≡◌, ◌*◌, ◌^◌, ◌<◌, ◌≤◌, ◌++◌, ◌∷◌, [], List, length, drop, All, IfOk};
ghost use Rattle.t1_event.specs.declared.item.Item.{Item as ItemData};
ghost use Rattle.t1_event.specs.declared.trace.Trace.{Trace as TraceData};
ghost use Rattle.t1_read.specs.Exact.{IsRead, NextIsNot};
ghost use Rattle.t1_read.specs.Faults.{IsOpen};
ghost use Rattle.t1_read.specs.Standing.{Leads, HasTraces, HasItems, HasStrands};
ghost use Rattle.t1_elf.specs.declared.object.Image.{Image as ImageData};
ghost use Rattle.t1_event.specs.declared.report.Config.{Config as ConfigData};
ghost use Rattle.t1_log.specs.Texts.{lines_from};
ghost use Rattle.t1_log.specs.Log.{item_line_of, trace_lines_of};
ghost use Rattle.t1_take.specs.Taken.{Reads};
ghost use Rattle.t1_take.specs.Items.{IsGoodItem, IsGoodTrace};

use crate::error::LogError;
use crate::lines::Lines;
use std::alloc::Global;
use t1_elf::Listed;
use t1_event::{Item, Trace};
use t1_line_forms::Line;
use t1_take::{take_end, take_item};

/// Reads the lines of the items of a strand.
fn read_items(
    alloc: Global,
    lines: &mut Lines,
    text: &[u8],
    strand: u64,
    ram: u64,
) -> Result<Listed<Item>, LogError>
    requires { length text.now ≤ 67108864 }
    ensures good { IfOk result (λ items. All (IsGoodItem ram) items × (length items ≤ 67108864)) }
    ensures reads { IfOk result (λ items. Reads text.now lines.old.at lines.new.at (lines_from (item_line_of strand) 0 items)) }
    ensures finds { (all : List ItemData) (rest : List ℕ) → ram ≤ 2 ^ 40 → All (IsGoodItem ram) all → NextIsNot 105 rest → drop lines.old.at text.now ≡ lines_from (item_line_of strand) 0 all ++ rest → IsRead result (λ items. (items ≡ all) × (drop lines.new.at text.now ≡ rest)) }
    ensures leads { (config : ConfigData) (image : ImageData) (traces : List TraceData) → HasTraces text.now lines.old.at config image traces → IsOpen config traces → strand ≡ length traces → ram ≡ config.ram → Leads text.now result (HasItems text.now lines.new.at config image traces) }
{
    let mut items = Listed::new(alloc);
    for number in 0..text.len() as u64 {
        let mut cursor = lines.next();
        if cursor.peek(text) != b'i' {
            return Ok(items);
        }
        match take_item(&mut cursor, text, strand, number, ram) {
            Some(item) => items.push(item)?,
            None => return Err(lines.fault(text, Line::Item { strand, number })),
        }
        lines.went(cursor);
    }
    Ok(items)
}

/// Reads the lines of a strand: its items, and its end.
fn read_strand(
    alloc: Global,
    lines: &mut Lines,
    text: &[u8],
    strand: u64,
    ram: u64,
) -> Result<Trace, LogError>
    requires { length text.now ≤ 67108864 }
    ensures good { IfOk result (IsGoodTrace ram) }
    ensures reads { IfOk result (λ trace. Reads text.now lines.old.at lines.new.at (trace_lines_of strand trace)) }
    ensures finds { (trace : TraceData) (rest : List ℕ) → ram ≤ 2 ^ 40 → IsGoodTrace ram trace → drop lines.old.at text.now ≡ trace_lines_of strand trace ++ rest → IsRead result (λ t. (t ≡ trace) × (drop lines.new.at text.now ≡ rest)) }
    ensures leads { (config : ConfigData) (image : ImageData) (traces : List TraceData) → HasTraces text.now lines.old.at config image traces → IsOpen config traces → strand ≡ length traces → ram ≡ config.ram → Leads text.now result (λ trace. HasTraces text.now lines.new.at config image (traces ++ trace ∷ [])) }
{
    let items = read_items(alloc, lines, text, strand, ram)?;
    let mut cursor = lines.next();
    match take_end(&mut cursor, text, strand) {
        Some(end) => {
            lines.went(cursor);
            Ok(Trace {
                items,
                units: end.units,
                pc: end.pc,
                ending: Some(end.ending),
            })
        }
        None => Err(lines.fault(text, Line::End { strand })),
    }
}

/// Reads the lines of so many strands, in order.
pub(crate) fn read_strands(
    alloc: Global,
    lines: &mut Lines,
    text: &[u8],
    strands: u64,
    ram: u64,
) -> Result<Listed<Trace>, LogError>
    requires { length text.now ≤ 67108864 }
    ensures good { IfOk result (λ traces. All (IsGoodTrace ram) traces × (length traces ≡ strands)) }
    ensures reads { IfOk result (λ traces. Reads text.now lines.old.at lines.new.at (lines_from trace_lines_of 0 traces)) }
    ensures finds { (all : List TraceData) (rest : List ℕ) → ram ≤ 2 ^ 40 → All (IsGoodTrace ram) all → length all ≡ strands → drop lines.old.at text.now ≡ lines_from trace_lines_of 0 all ++ rest → IsRead result (λ traces. (traces ≡ all) × (drop lines.new.at text.now ≡ rest)) }
    ensures leads { (config : ConfigData) (image : ImageData) → HasTraces text.now lines.old.at config image [] → strands ≡ config.cores * config.strands → ram ≡ config.ram → Leads text.now result (HasStrands text.now lines.new.at config image) }
{
    let mut traces = Listed::new(alloc);
    for strand in 0..strands {
        traces.push(read_strand(alloc, lines, text, strand, ram)?)?;
    }
    Ok(traces)
}

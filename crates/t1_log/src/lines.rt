//! The lines of a log, each with its line feed.
ghost use Rattle.std.specs.Prelude.{◌≡◌, ◌+◌, ◌≤◌, ◌++◌, length};
ghost use Rattle.t1_event.specs.Kinds.{IsAccess};
ghost use Rattle.t1_log.specs.Lines.{is_first, config_line_of, entry_line_of, block_line_of, got_of, put_of, access_fields_of, item_fields_of, ending_fields_of, ending_line_of, place_line_of};

use crate::line::Line;
use t1_event::{Config, Ending, Item, ItemKind, Place};
use t1_num::ChipKind;

/// The room of a line, in bytes. The longest line is that of a machine, with at most 142 bytes.
pub(crate) const ROOM: usize = 192;

/// Whether version 1 of the log can name this machine: OpenSPARC T1, with no hyperprivileged mode (this
/// project's profile).
pub fn is_first(config: &Config) -> bool
    ensures { result ≡ is_first config.now }
{
    matches!(config.chip, ChipKind::T1) && !config.hyper
}

/// The line of a machine.
#[tactic(auto, unfolding(crate::specs::Lines::config_line_of))]
pub(crate) fn config_line(config: &Config) -> Line<ROOM>
    ensures { result ≡ config_line_of config.now }
{
    let mut line = Line::new();
    line.text("config cores ");
    line.decimal(u64::from(config.cores));
    line.text(" strands ");
    line.decimal(u64::from(config.strands));
    line.text(" ram ");
    line.decimal(config.ram);
    line.text(" sets ");
    line.decimal(u64::from(config.sets));
    line.text(" budget ");
    line.decimal(u64::from(config.budget));
    line.byte(b'\n');
    line
}

/// The line of the address where every strand starts.
#[tactic(auto, unfolding(crate::specs::Lines::entry_line_of))]
pub(crate) fn entry_line(entry: u64) -> Line<ROOM>
    ensures { result ≡ entry_line_of entry }
{
    let mut line = Line::new();
    line.text("entry ");
    line.hex(10, entry);
    line.byte(b'\n');
    line
}

/// The line of a block of memory at an address.
#[tactic(auto, unfolding(crate::specs::Lines::block_line_of))]
pub(crate) fn block_line(addr: u64, block: &[u8]) -> Line<ROOM>
    requires { length block.now ≤ 32 }
    ensures { result ≡ block_line_of addr block.now }
{
    let mut line = Line::new();
    line.text("m ");
    line.hex(10, addr);
    line.byte(b' ');
    line.hex_bytes(block);
    line.byte(b'\n');
    line
}

/// Appends the value that an access got.
#[tactic(auto, unfolding(crate::specs::Lines::got_of))]
fn put_got(line: &mut Line<ROOM>, item: &Item)
    requires room { length line.old + 16 ≤ ROOM }
    requires size { item.now.size ≤ 8 }
    ensures value { line.new ≡ line.old ++ got_of item.now }
    ensures len { length line.new ≤ length line.old + 16 }
{
    match item.kind {
        ItemKind::Fetch | ItemKind::Load | ItemKind::Atomic { .. } => {
            line.hex(2 * u32::from(item.size), item.got);
        }
        ItemKind::Store | ItemKind::Membar | ItemKind::Flush => line.byte(b'-'),
    }
}

/// Appends the value that an access put.
#[tactic(auto, unfolding(crate::specs::Lines::put_of))]
fn put_put(line: &mut Line<ROOM>, item: &Item)
    requires room { length line.old + 16 ≤ ROOM }
    requires size { item.now.size ≤ 8 }
    ensures value { line.new ≡ line.old ++ put_of item.now }
    ensures len { length line.new ≤ length line.old + 16 }
{
    match item.kind {
        ItemKind::Store | ItemKind::Atomic { wrote: true } => {
            line.hex(2 * u32::from(item.size), item.put);
        }
        _ => line.byte(b'-'),
    }
}

/// Appends the fields of an access: its address, its size, the value got, and the value put.
#[tactic(auto, unfolding(crate::specs::Lines::access_fields_of))]
fn put_access(line: &mut Line<ROOM>, item: &Item)
    requires room { length line.old + 65 ≤ ROOM }
    requires size { item.now.size ≤ 8 }
    ensures value { line.new ≡ line.old ++ access_fields_of item.now }
    ensures len { length line.new ≤ length line.old + 65 }
{
    line.hex(10, item.addr);
    line.byte(b' ');
    line.decimal(u64::from(item.size));
    line.byte(b' ');
    put_got(line, item);
    line.byte(b' ');
    put_put(line, item);
}

/// Appends the kind of an item, and the fields of that kind.
#[tactic(auto, unfolding(crate::specs::Lines::fields_of_kind))]
pub(crate) fn put_item(line: &mut Line<ROOM>, item: &Item)
    requires room { length line.old + 72 ≤ ROOM }
    requires size { IsAccess item.now.kind → item.now.size ≤ 8 }
    ensures value { line.new ≡ line.old ++ item_fields_of item.now }
    ensures len { length line.new ≤ length line.old + 72 }
{
    match item.kind {
        ItemKind::Fetch => {
            line.text("fetch ");
            put_access(line, item);
        }
        ItemKind::Load => {
            line.text("load ");
            put_access(line, item);
        }
        ItemKind::Store => {
            line.text("store ");
            put_access(line, item);
        }
        ItemKind::Atomic { .. } => {
            line.text("atomic ");
            put_access(line, item);
        }
        ItemKind::Membar => {
            line.text("membar ");
            line.hex(2, u64::from(item.size));
        }
        ItemKind::Flush => line.text("flush"),
    }
}

/// Appends how a strand ended, its units and its PC, and the type of its last trap.
#[tactic(auto, unfolding(crate::specs::Lines::ending_fields_of))]
fn put_ending(line: &mut Line<ROOM>, ending: Ending, units: u32, pc: u64)
    requires { length line.old + 48 ≤ ROOM }
    ensures value { line.new ≡ line.old ++ ending_fields_of ending units pc }
    ensures len { length line.new ≤ length line.old + 48 }
{
    match ending {
        Ending::Halted => line.text("halted "),
        Ending::Spent => line.text("spent "),
        Ending::Fault(_) => line.text("fault "),
    }
    line.decimal(u64::from(units));
    line.byte(b' ');
    line.hex(16, pc);
    if let Ending::Fault(number) = ending {
        line.byte(b' ');
        line.hex(3, u64::from(number));
    }
}

/// The line of the end of a strand.
#[tactic(auto, unfolding(crate::specs::Lines::ending_line_of))]
pub(crate) fn ending_line(strand: usize, ending: Ending, units: u32, pc: u64) -> Line<ROOM>
    ensures { result ≡ ending_line_of strand ending units pc }
{
    let mut line = Line::new();
    line.text("e ");
    line.decimal(strand as u64);
    line.byte(b' ');
    put_ending(&mut line, ending, units, pc);
    line.byte(b'\n');
    line
}

/// The line of a place of the memory order.
#[tactic(auto, unfolding(crate::specs::Lines::place_line_of))]
pub(crate) fn place_line(place: Place) -> Line<ROOM>
    ensures { result ≡ place_line_of place }
{
    let mut line = Line::new();
    line.text("o ");
    line.decimal(u64::from(place.strand));
    line.byte(b' ');
    line.decimal(u64::from(place.item));
    line.byte(b'\n');
    line
}

/// A line that is always the same.
pub(crate) fn fixed_line(text: &str) -> Line<ROOM>
    requires { length text.now ≤ ROOM }
    ensures { result ≡ text.now }
{
    let mut line = Line::new();
    line.text(text);
    line
}

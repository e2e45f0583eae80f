//! The first read that got a wrong byte.
ghost use Rattle.std.specs.Prelude.{ℕ, ◌≡◌, ◌<◌, ◌≤◌, ◌+◌, ◌*◌, ◌-◌, ◌%◌, ◌^◌, List, length, get_or, IfOk, MatchBool, MatchOption};
ghost use Rattle.t1_num.specs.Memory.{byte_of};
ghost use Rattle.t1_event.specs.Items.{items_of, IsIo};
ghost use Rattle.t1_check.specs.Checked.{AreInWords};
ghost use Rattle.t1_check.specs.Positions.{IsMarked, no_place, item_in};
ghost use Rattle.t1_check.specs.Sources.{source_of, byte_from, OwnBelow, SourcesAre};
ghost use Rattle.t1_check.specs.Wrong.{AreRightBytes, IsWrongByteAt, IsRightAt, IsWrongAt, AreRight};

use crate::kinds::{is_fetch, is_read};
use crate::latest::Latest;
use crate::listing::item_at;
use crate::own::note;
use crate::table::Table;
use std::alloc::{AllocError, Global};
use t1_event::{Item, ItemKind, Place, Trace};

/// Byte k of a number of so many bytes, the highest byte first.
fn byte_of(value: u64, size: u8, k: u64) -> u8
    ensures { result ≡ byte_of value size k }
{
    if k >= u64::from(size) {
        return 0;
    }
    let place = u64::from(size) - 1 - k;
    if place >= 8 {
        return 0;
    }
    ((value >> (8 * place)) & 0xff) as u8
}

/// The place on a line of the order.
pub(crate) fn place_at(order: &[Place], line: usize) -> Place
    ensures { result ≡ get_or order.now line no_place }
{
    if line < order.len() {
        order[line]
    } else {
        Place { strand: 0, item: 0 }
    }
}

/// The item that a line of the order names.
fn item_in(traces: &[Trace], order: &[Place], line: usize) -> Item
    ensures { result ≡ item_in (items_of traces.now) order.now line }
{
    match item_at(traces, place_at(order, line)) {
        Some(item) => item,
        None => Item {
            kind: ItemKind::Fetch,
            addr: 0,
            size: 0,
            got: 0,
            put: 0,
            how: t1_event::How::Unplaced,
        },
    }
}

/// The position of the write from which a byte should come, 0 for the image.
fn source_of(kind: ItemKind, seen: usize, own: usize) -> usize
    ensures { result ≡ source_of kind seen own }
{
    if is_fetch(kind) { seen } else { seen.max(own) }
}

/// The byte that comes from a source.
fn byte_from(image: &[u8], traces: &[Trace], order: &[Place], source: usize, addr: u64) -> u8
    ensures { result ≡ byte_from image.now (items_of traces.now) order.now source addr }
{
    if source == 0 {
        return if addr < image.len() as u64 {
            image[addr as usize]
        } else {
            0
        };
    }
    let write = item_in(traces, order, source - 1);
    byte_of(write.put, write.size, addr.saturating_sub(write.addr))
}

/// Whether a byte of a read is that of its source, or lies outside the image.
fn is_right(
    image: &[u8],
    traces: &[Trace],
    order: &[Place],
    item: &Item,
    offset: u64,
    source: usize,
) -> bool
    requires { item.now.addr + offset < 2 ^ 64 }
    ensures { MatchBool result
        (item.now.addr + offset < length image.now → byte_of item.now.got item.now.size offset ≡ byte_from image.now (items_of traces.now) order.now source (item.now.addr + offset))
        ((item.now.addr + offset < length image.now) × (byte_of item.now.got item.now.size offset ≡ byte_from image.now (items_of traces.now) order.now source (item.now.addr + offset) → ⊥)) }
{
    let addr = item.addr + offset;
    if addr >= image.len() as u64 {
        return true;
    }
    byte_of(item.got, item.size, offset) == byte_from(image, traces, order, source, addr)
}

/// The source of the lowest wrong byte of the read on a line.
fn wrong_byte(
    image: &[u8],
    traces: &[Trace],
    order: &[Place],
    own: &Table,
    latest: &Latest,
    line: usize,
) -> Option<usize>
    requires { (item_in (items_of traces.now) order.now line).addr % 8 + (item_in (items_of traces.now) order.now line).size ≤ 8 }
    ensures { (table : List (List ℕ)) → SourcesAre (items_of traces.now) order.now own.now latest.now table line
        → MatchOption result (AreRightBytes image.now (items_of traces.now) order.now table line (item_in (items_of traces.now) order.now line).size) (λ source. IsWrongByteAt image.now (items_of traces.now) order.now table line source) }
{
    let place = place_at(order, line);
    let item = item_in(traces, order, line);
    let seen = latest.word(item.addr / 8);
    for offset in 0..u64::from(item.size) {
        let byte = ((item.addr + offset) % 8) as usize;
        let source = source_of(
            item.kind,
            seen[byte],
            own.cell(place.strand as usize, 8 * place.item as usize + byte),
        );
        if !is_right(image, traces, order, &item, offset, source) {
            return Some(source);
        }
    }
    None
}

/// Whether a read of I/O got something else than 0.
fn is_wrong_io(item: &Item) -> bool
    ensures { MatchBool result (IsIo item.now.addr × (item.now.got ≡ 0 → ⊥)) (IsIo item.now.addr → item.now.got ≡ 0) }
{
    if item.addr < 1 << 39 {
        return false;
    }
    if item.addr >= 1 << 40 {
        return false;
    }
    item.got != 0
}

/// The source of the lowest wrong byte of what stands on a line.
fn wrong_at(
    image: &[u8],
    traces: &[Trace],
    order: &[Place],
    own: &Table,
    latest: &Latest,
    line: usize,
) -> Option<usize>
    requires words { AreInWords (items_of traces.now) }
    requires line { line < length order.now }
    requires marked { (table : List (List ℕ)) × IsMarked (items_of traces.now) order.now (length order.now) table }
    ensures { (table : List (List ℕ)) → SourcesAre (items_of traces.now) order.now own.now latest.now table line
        → MatchOption result (IsRightAt image.now (items_of traces.now) order.now table line) (λ source. IsWrongAt image.now (items_of traces.now) order.now table line source) }
{
    let item = item_in(traces, order, line);
    if !is_read(item.kind) {
        return None;
    }
    match wrong_byte(image, traces, order, own, latest, line) {
        Some(source) => return Some(source),
        None => {}
    }
    if is_wrong_io(&item) {
        return Some(0);
    }
    None
}

/// The line of the first read that got a wrong byte, and the source of the lowest such byte.
pub(crate) fn wrong_read(
    alloc: Global,
    image: &[u8],
    traces: &[Trace],
    order: &[Place],
    table: &Table,
    own: &Table,
) -> Result<Option<(usize, usize)>, AllocError>
    requires words { AreInWords (items_of traces.now) }
    requires marked { IsMarked (items_of traces.now) order.now (length order.now) table.now }
    requires own { OwnBelow (items_of traces.now) table.now own.now (length traces.now) }
    ensures { IfOk result (λ r. MatchOption r (AreRight image.now (items_of traces.now) order.now table.now (length order.now))
        (λ found. (found.0 < length order.now) × AreRight image.now (items_of traces.now) order.now table.now found.0 × IsWrongAt image.now (items_of traces.now) order.now table.now found.0 found.1)) }
{
    let mut latest = Latest::new(alloc);
    for line in 0..order.len() {
        match wrong_at(image, traces, order, own, &latest, line) {
            Some(source) => return Ok(Some((line, source))),
            None => {}
        }
        note(&mut latest, &item_in(traces, order, line), line + 1)?;
    }
    Ok(None)
}

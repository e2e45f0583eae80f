//! The position of each access in the order, where the order lists each access once.
ghost use Rattle.std.specs.Prelude.{ℕ, ◌≡◌, ◌<◌, ◌≤◌, ◌+◌, ◌^◌, [], length, get_or, slice_get, IfOk, MatchOption, MatchResult, MatchBool};
ghost use Rattle.t1_event.specs.Items.{items_of};
ghost use Rattle.t1_check.specs.Checked.{AreCounted};
ghost use Rattle.t1_check.specs.Places.{NamesAccess, IsBadLine, IsFirstBadLine, IsUnlisted};
ghost use Rattle.t1_check.specs.Positions.{IsBlank, IsMarked, ArePlaced, IsFirstUnplaced, AllPlaced, IsFirstMissing, IsTold};

use crate::kinds::is_access;
use crate::table::{Row, Table};
use std::alloc::{AllocError, Global};
use t1_event::{Item, Place, Trace};

/// The items of a strand, none where there is no such strand.
pub(crate) fn items_at(traces: &[Trace], strand: usize) -> &[Item]
    ensures { result.now ≡ get_or (items_of traces.now) strand [] }
{
    if strand < traces.len() {
        traces[strand].items.as_slice()
    } else {
        &[]
    }
}

/// The item at a place.
pub(crate) fn item_at(traces: &[Trace], place: Place) -> Option<Item>
    ensures { result ≡ slice_get (get_or (items_of traces.now) place.strand []) place.item }
{
    items_at(traces, place.strand as usize)
        .get(place.item as usize)
        .copied()
}

fn names_access(traces: &[Trace], place: Place) -> bool
    ensures { MatchBool result (NamesAccess (items_of traces.now) place) (NamesAccess (items_of traces.now) place → ⊥) }
{
    match item_at(traces, place) {
        Some(item) => is_access(item.kind),
        None => false,
    }
}

/// A 0 for each item.
fn blank(alloc: Global, traces: &[Trace]) -> Result<Table, AllocError>
    ensures { IfOk result (λ table. IsBlank (items_of traces.now) table (length traces.now)) }
{
    let mut table = Table::new(alloc);
    for strand in 0..traces.len() {
        table.push(Row::zeros(alloc, items_at(traces, strand).len())?)?;
    }
    Ok(table)
}

/// Marks the item that a line of the order names, unless the line repeats a place or names no access.
fn mark(traces: &[Trace], order: &[Place], line: usize, table: &mut Table) -> bool
    requires line { line < length order.now }
    requires marked { IsMarked (items_of traces.now) order.now line table.old }
    ensures { MatchBool result (IsMarked (items_of traces.now) order.now (line + 1) table.new) (IsBadLine (items_of traces.now) order.now line) }
{
    let place = order[line];
    if !names_access(traces, place) {
        return false;
    }
    if table.cell(place.strand as usize, place.item as usize) != 0 {
        return false;
    }
    table.put(place.strand as usize, place.item as usize, line + 1);
    true
}

/// The positions of all lines of the order, counted from 1, or the first bad line.
fn positions(
    alloc: Global,
    traces: &[Trace],
    order: &[Place],
) -> Result<Result<Table, Place>, AllocError>
    ensures { IfOk result (λ r. MatchResult r (λ table. IsMarked (items_of traces.now) order.now (length order.now) table) (λ place. IsFirstBadLine (items_of traces.now) order.now place)) }
{
    let mut table = blank(alloc, traces)?;
    for line in 0..order.len() {
        if !mark(traces, order, line, &mut table) {
            return Ok(Err(order[line]));
        }
    }
    Ok(Ok(table))
}

/// The first access of a strand that has no position.
fn unplaced(items: &[Item], row: &[usize]) -> Option<usize>
    requires { length row.now ≡ length items.now }
    ensures { MatchOption result (ArePlaced items.now row.now (length items.now)) (λ number. IsFirstUnplaced items.now row.now number) }
{
    for number in 0..items.len() {
        if is_access(items[number].kind) && row[number] == 0 {
            return Some(number);
        }
    }
    None
}

/// The least access that has no position.
fn missing(traces: &[Trace], order: &[Place], table: &Table) -> Option<Place>
    requires counted { AreCounted (items_of traces.now) }
    requires marked { IsMarked (items_of traces.now) order.now (length order.now) table.now }
    ensures { MatchOption result (AllPlaced (items_of traces.now) table.now (length traces.now)) (λ place. IsFirstMissing (items_of traces.now) table.now place) }
{
    for strand in 0..traces.len() {
        match unplaced(items_at(traces, strand), table.row(strand)) {
            Some(number) => {
                return Some(Place {
                    strand: strand as u8,
                    item: number as u32,
                });
            }
            None => {}
        }
    }
    None
}

/// The positions of all accesses, counted from 1, where the order lists each once; else the first line
/// that repeats a place or names no access, or the least access that is missing.
pub(crate) fn listed(
    alloc: Global,
    traces: &[Trace],
    order: &[Place],
) -> Result<Result<Table, Place>, AllocError>
    requires { AreCounted (items_of traces.now) }
    ensures { IfOk result (λ r. MatchResult r (λ table. IsTold (items_of traces.now) order.now table) (λ place. IsUnlisted (items_of traces.now) order.now place)) }
{
    match positions(alloc, traces, order)? {
        Ok(table) => match missing(traces, order, &table) {
            Some(place) => Ok(Err(place)),
            None => Ok(Ok(table)),
        },
        Err(place) => Ok(Err(place)),
    }
}

//! For each item the earlier writes of its own strand, by their positions.
ghost use Rattle.std.specs.Prelude.{ℕ, ◌≡◌, ◌<◌, ◌≤◌, ◌+◌, ◌%◌, List, [], length, get_or, IfOk, OnOk, max, if◌then◌else◌};
ghost use Rattle.t1_event.specs.Items.{items_of};
ghost use Rattle.t1_check.specs.Checked.{LiesInWord, AreInWord, AreInWords};
ghost use Rattle.t1_check.specs.Latest.{at};
ghost use Rattle.t1_check.specs.Positions.{HasCells};
ghost use Rattle.t1_check.specs.Sources.{writes_byte, AreOwn, OwnBelow};

use crate::kinds::is_changing;
use crate::latest::Latest;
use crate::listing::items_at;
use crate::table::{Row, Table};
use std::alloc::{AllocError, Global};
use t1_event::{Item, Trace};

/// Raises the position of each byte that an item changes.
pub(crate) fn note(latest: &mut Latest, item: &Item, position: usize) -> Result<(), AllocError>
    requires { LiesInWord item.now }
    ensures { OnOk result ((addr : ℕ) → at latest.new addr ≡ (if writes_byte item.now addr then max (at latest.old addr) position else at latest.old addr)) }
{
    if is_changing(item.kind) {
        latest.raise(item.addr, item.size, position)?;
    }
    Ok(())
}

/// For each item eight numbers: for each byte of the word in which it lies, the greatest position of an
/// earlier write of the strand, 0 where there is none.
fn own_row(alloc: Global, items: &[Item], row: &[usize]) -> Result<Row, AllocError>
    requires words { AreInWord items.now }
    requires cells { length row.now ≡ length items.now }
    ensures { IfOk result (λ own. AreOwn items.now row.now own (length items.now)) }
{
    let mut own = Vec::new(alloc);
    let mut latest = Latest::new(alloc);
    for number in 0..items.len() {
        let item = &items[number];
        own.extend_from_slice(&latest.word(item.addr / 8))?;
        note(&mut latest, item, row[number])?;
    }
    Ok(Row::from_vec(own))
}

/// The own earlier writes of all items, a row for each strand.
pub(crate) fn own_writes(
    alloc: Global,
    traces: &[Trace],
    table: &Table,
) -> Result<Table, AllocError>
    requires words { AreInWords (items_of traces.now) }
    requires cells { HasCells (items_of traces.now) table.now }
    ensures { IfOk result (λ own. OwnBelow (items_of traces.now) table.now own (length traces.now)) }
{
    let mut own = Table::new(alloc);
    for strand in 0..traces.len() {
        own.push(own_row(alloc, items_at(traces, strand), table.row(strand))?)?;
    }
    Ok(own)
}

//! Load-op, store-store and barrier, as questions on positions.
//!
//! Each item has a bound, the position below which no later item that the rule speaks of may stand,
//! and a goal, its own position where the rule speaks of it.
ghost use Rattle.std.specs.Prelude.{ℕ, ◌≡◌, ◌<◌, [], length, get_or, IfOk, MatchOption};
ghost use Rattle.t1_event.specs.Items.{items_of};
ghost use Rattle.t1_check.specs.Bounds.{bound_of, goal_of, high_after, AreBounds, AreGoals};
ghost use Rattle.t1_check.specs.Positions.{HasCells};
ghost use Rattle.t1_check.specs.Rules.{IsObeyed, IsFirstCross, AreObeyed, IsFirstFault};

use crate::crossing::first_crossing;
use crate::kinds::{is_access, is_barrier, is_read, is_write};
use crate::listing::items_at;
use crate::table::Table;
use std::alloc::{AllocError, Global};
use t1_event::{Item, Trace};

/// The axioms that speak of pairs of items of one strand.
#[derive(Clone, Copy, Debug, PartialEq, Eq)]
pub enum Rule {
    LoadOp,
    StoreStore,
    Barrier,
}

/// What an item asks of the positions of later ones; `high` is the greatest position of a write
/// before it.
fn bound_of(rule: Rule, high: usize, item: &Item, position: usize) -> usize
    ensures { result ≡ bound_of rule high item.now position }
{
    match rule {
        Rule::LoadOp => if is_read(item.kind) { position } else { 0 },
        Rule::StoreStore => if is_write(item.kind) { position } else { 0 },
        Rule::Barrier => if is_barrier(item) { high } else { 0 },
    }
}

/// The position of an item of which earlier ones ask something, else the greatest number.
fn goal_of(rule: Rule, item: &Item, position: usize) -> usize
    ensures { result ≡ goal_of rule item.now position }
{
    let asked = match rule {
        Rule::LoadOp => is_access(item.kind),
        Rule::StoreStore => is_write(item.kind),
        Rule::Barrier => is_read(item.kind),
    };
    if asked { position } else { usize::MAX }
}

fn high_after(high: usize, item: &Item, position: usize) -> usize
    ensures { result ≡ high_after high item.now position }
{
    if is_write(item.kind) {
        high.max(position)
    } else {
        high
    }
}

fn bounds(
    alloc: Global,
    rule: Rule,
    items: &[Item],
    row: &[usize],
) -> Result<Vec<usize>, AllocError>
    requires { length row.now ≡ length items.now }
    ensures { IfOk result (λ bounds. (length bounds.items ≡ length items.now) × AreBounds rule items.now row.now bounds.items (length items.now)) }
{
    let mut bounds = Vec::with_capacity(alloc, items.len())?;
    let mut high = 0;
    for number in 0..items.len() {
        bounds.push(bound_of(rule, high, &items[number], row[number]))?;
        high = high_after(high, &items[number], row[number]);
    }
    Ok(bounds)
}

fn goals(alloc: Global, rule: Rule, items: &[Item], row: &[usize]) -> Result<Vec<usize>, AllocError>
    requires { length row.now ≡ length items.now }
    ensures { IfOk result (λ goals. (length goals.items ≡ length items.now) × AreGoals rule items.now row.now goals.items (length items.now)) }
{
    let mut goals = Vec::with_capacity(alloc, items.len())?;
    for number in 0..items.len() {
        goals.push(goal_of(rule, &items[number], row[number]))?;
    }
    Ok(goals)
}

/// The first item of a strand that is crossed, and the first that crosses it.
fn crossed(
    alloc: Global,
    rule: Rule,
    items: &[Item],
    row: &[usize],
) -> Result<Option<(usize, usize)>, AllocError>
    requires { length row.now ≡ length items.now }
    ensures { IfOk result (λ r. MatchOption r (IsObeyed rule items.now row.now) (λ found. IsFirstCross rule items.now row.now found.0 found.1)) }
{
    let bounds = bounds(alloc, rule, items, row)?;
    let goals = goals(alloc, rule, items, row)?;
    Ok(first_crossing(bounds.as_slice(), goals.as_slice()))
}

/// The first strand where a rule is broken, the first item that is crossed there, and the first that
/// crosses it.
pub(crate) fn fault(
    alloc: Global,
    rule: Rule,
    traces: &[Trace],
    table: &Table,
) -> Result<Option<(usize, usize, usize)>, AllocError>
    requires { HasCells (items_of traces.now) table.now }
    ensures { IfOk result (λ r. MatchOption r (AreObeyed rule (items_of traces.now) table.now (length traces.now)) (λ f. IsFirstFault rule (items_of traces.now) table.now f.0 f.1 f.2)) }
{
    for strand in 0..traces.len() {
        match crossed(alloc, rule, items_at(traces, strand), table.row(strand))? {
            Some((first, second)) => return Ok(Some((strand, first, second))),
            None => {}
        }
    }
    Ok(None)
}

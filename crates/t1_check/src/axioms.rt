//! The first fault of each axiom of an order that is a listing.
ghost use Rattle.std.specs.Prelude.{ℕ, ◌≡◌, length, IfOk, MatchOption, MatchResult};
ghost use Rattle.t1_event.specs.Items.{items_of};
ghost use Rattle.t1_event.specs.Order.{IsListing, Value};
ghost use Rattle.t1_check.specs.Checked.{AreCounted, AreInWords};
ghost use Rattle.t1_check.specs.Places.{IsUnlisted};
ghost use Rattle.t1_check.specs.Positions.{IsTold};
ghost use Rattle.t1_check.specs.Rules.{AreObeyed, IsFaultAt};
ghost use Rattle.t1_check.specs.Wrong.{AreRight, IsWrongLine};
ghost use Rattle.t1_check.specs.Verdicts.{RuleHolds, IsFirstCrossed, IsFirstWrong};

use crate::listing::listed;
use crate::own::own_writes;
use crate::rules::{Rule, fault};
use crate::table::Table;
use crate::value::{place_at, wrong_read};
use std::alloc::{AllocError, Global};
use t1_event::{Place, Trace};

/// The positions of an order that lists each access once; else the first bad line or the least access
/// that is missing.
pub(crate) fn listing(
    alloc: Global,
    traces: &[Trace],
    order: &[Place],
) -> Result<Result<Table, Place>, AllocError>
    requires { AreCounted (items_of traces.now) }
    ensures { IfOk result (λ r. MatchResult r (λ table. IsTold (items_of traces.now) order.now table × IsListing (items_of traces.now) order.now) (λ place. IsUnlisted (items_of traces.now) order.now place)) }
{
    listed(alloc, traces, order)
}

fn rule_places(
    alloc: Global,
    rule: Rule,
    traces: &[Trace],
    order: &[Place],
    table: &Table,
) -> Result<Option<(Place, Place)>, AllocError>
    requires counted { AreCounted (items_of traces.now) }
    requires told { IsTold (items_of traces.now) order.now table.now }
    ensures { IfOk result (λ r. MatchOption r (AreObeyed rule (items_of traces.now) table.now (length traces.now)) (λ f. IsFaultAt rule (items_of traces.now) table.now f.0 f.1)) }
{
    match fault(alloc, rule, traces, table)? {
        Some((strand, first, second)) => Ok(Some((
            Place {
                strand: strand as u8,
                item: first as u32,
            },
            Place {
                strand: strand as u8,
                item: second as u32,
            },
        ))),
        None => Ok(None),
    }
}

/// The least item that is crossed, and the least that crosses it.
pub(crate) fn rule_fault(
    alloc: Global,
    rule: Rule,
    traces: &[Trace],
    order: &[Place],
    table: &Table,
) -> Result<Option<(Place, Place)>, AllocError>
    requires counted { AreCounted (items_of traces.now) }
    requires told { IsTold (items_of traces.now) order.now table.now }
    ensures { IfOk result (λ r. MatchOption r (RuleHolds rule (items_of traces.now) order.now) (λ f. IsFirstCrossed rule (items_of traces.now) order.now f.0 f.1)) }
{
    rule_places(alloc, rule, traces, order, table)
}

fn value_places(
    alloc: Global,
    image: &[u8],
    traces: &[Trace],
    order: &[Place],
    table: &Table,
) -> Result<Option<(Place, Option<Place>)>, AllocError>
    requires words { AreInWords (items_of traces.now) }
    requires told { IsTold (items_of traces.now) order.now table.now }
    ensures { IfOk result (λ r. MatchOption r (AreRight image.now (items_of traces.now) order.now table.now (length order.now)) (λ f. IsWrongLine image.now (items_of traces.now) order.now table.now f.0 f.1)) }
{
    let own = own_writes(alloc, traces, table)?;
    match wrong_read(alloc, image, traces, order, table, &own)? {
        Some((line, source)) => {
            let write = if source == 0 {
                None
            } else {
                Some(place_at(order, source - 1))
            };
            Ok(Some((place_at(order, line), write)))
        }
        None => Ok(None),
    }
}

/// The first read in the order that got a wrong byte, and the write that its lowest such byte should
/// have come from, none for the image or for I/O.
pub(crate) fn value_fault(
    alloc: Global,
    image: &[u8],
    traces: &[Trace],
    order: &[Place],
    table: &Table,
) -> Result<Option<(Place, Option<Place>)>, AllocError>
    requires words { AreInWords (items_of traces.now) }
    requires told { IsTold (items_of traces.now) order.now table.now }
    ensures { IfOk result (λ r. MatchOption r (Value image.now (items_of traces.now) order.now) (λ f. IsFirstWrong image.now (items_of traces.now) order.now f.0 f.1)) }
{
    value_places(alloc, image, traces, order, table)
}

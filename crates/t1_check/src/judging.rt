//! Whether the order of a report is a memory order that obeys total store order.
ghost use Rattle.std.specs.Prelude.{ℕ, ◌≡◌, IfOk, Some, None, Option};
ghost use Rattle.t1_event.specs.Items.{items_of};
ghost use Rattle.t1_event.specs.Order.{IsListing};
ghost use Rattle.t1_check.specs.Checked.{AreCounted, AreInWords, CanBeChecked};
ghost use Rattle.t1_check.specs.Positions.{IsTold};
ghost use Rattle.t1_check.specs.Verdicts.{Judges, HoldsExactly};

use crate::axioms::{listing, rule_fault, value_fault};
use crate::rules::Rule;
use crate::table::Table;
use crate::verdict::{Axiom, Verdict};
use std::alloc::{AllocError, Global};
use t1_event::{Place, Report, Trace};

fn broken(law: Axiom, first: Place, second: Option<Place>) -> Verdict
    ensures { result ≡ Verdict.Broken law first second }
{
    Verdict::Broken {
        axiom: law,
        first,
        second,
    }
}

/// The verdict on an order that lists each access once.
fn judged(
    alloc: Global,
    image: &[u8],
    traces: &[Trace],
    order: &[Place],
    table: &Table,
) -> Result<Verdict, AllocError>
    requires counted { AreCounted (items_of traces.now) }
    requires words { AreInWords (items_of traces.now) }
    requires told { IsTold (items_of traces.now) order.now table.now }
    requires listing { IsListing (items_of traces.now) order.now }
    ensures { IfOk result (λ verdict. Judges verdict image.now (items_of traces.now) order.now) }
{
    match rule_fault(alloc, Rule::LoadOp, traces, order, table)? {
        Some((first, second)) => return Ok(broken(Axiom::LoadOp, first, Some(second))),
        None => {}
    }
    match rule_fault(alloc, Rule::StoreStore, traces, order, table)? {
        Some((first, second)) => return Ok(broken(Axiom::StoreStore, first, Some(second))),
        None => {}
    }
    match value_fault(alloc, image, traces, order, table)? {
        Some((first, second)) => return Ok(broken(Axiom::Value, first, second)),
        None => {}
    }
    match rule_fault(alloc, Rule::Barrier, traces, order, table)? {
        Some((first, second)) => return Ok(broken(Axiom::Barrier, first, Some(second))),
        None => {}
    }
    Ok(Verdict::Holds)
}

fn judge(
    alloc: Global,
    image: &[u8],
    traces: &[Trace],
    order: &[Place],
) -> Result<Verdict, AllocError>
    requires counted { AreCounted (items_of traces.now) }
    requires words { AreInWords (items_of traces.now) }
    ensures { IfOk result (λ verdict. Judges verdict image.now (items_of traces.now) order.now) }
{
    match listing(alloc, traces, order)? {
        Ok(table) => judged(alloc, image, traces, order, &table),
        Err(place) => Ok(broken(Axiom::Listing, place, None)),
    }
}

fn judge_report(alloc: Global, report: &Report) -> Result<Verdict, AllocError>
    requires { CanBeChecked report.now }
    ensures { IfOk result (λ verdict. Judges verdict report.now.image.ram (items_of report.now.traces) report.now.order) }
{
    judge(
        alloc,
        report.image.ram.as_slice(),
        report.traces.as_slice(),
        report.order.as_slice(),
    )
}

/// The verdict on the order of a report: `Holds` exactly where it lists each access once and obeys
/// total store order over the traces and the image; else the first axiom that fails, and where.
///
/// A listing fails first at the first line of the order that repeats a place or names no access, else
/// at the least access that is missing. Load-op and store-store name the least item, by strand and
/// number, that stands after a later item which it should precede, and the least such item. Value
/// names the first read in the order that got a wrong byte, and for the lowest such byte the write
/// that it should have come from, none for the image or for I/O. Barrier names the least membar or
/// flush that is crossed, and the least later read that stands before a write ahead of it.
///
/// It takes time in the length of the report, times the logarithm of the words that are written. That
/// traces follow the instruction table is not looked at.
///
/// # Errors
///
/// [`AllocError`] for want of memory.
pub fn check(alloc: Global, report: &Report) -> Result<Verdict, AllocError>
    requires { CanBeChecked report.now }
    ensures names { IfOk result (λ verdict. Judges verdict report.now.image.ram (items_of report.now.traces) report.now.order) }
    ensures exactly { IfOk result (λ verdict. HoldsExactly verdict report.now.image.ram (items_of report.now.traces) report.now.order) }
{
    judge_report(alloc, report)
}

//! Whether a report can be checked, for the tests, whose reports are data.
ghost use Rattle.std.specs.Prelude.{ℕ, ◌≡◌, ◌≤◌, ◌^◌, [], length, get_or, IsTrue};
ghost use Rattle.t1_event.specs.Kinds.{is_access};
ghost use Rattle.t1_event.specs.Items.{items_of};
ghost use Rattle.t1_check.specs.Checked.{LiesInWord, AreInWord, CanBeChecked};

use t1_event::{Item, ItemKind, Report, Trace};

fn is_access(kind: ItemKind) -> bool
    ensures { result ≡ is_access kind }
{
    match kind {
        ItemKind::Membar | ItemKind::Flush => false,
        ItemKind::Fetch | ItemKind::Load | ItemKind::Store | ItemKind::Atomic { .. } => true,
    }
}

/// The items of a strand, none where there is no such strand.
fn items_at(traces: &[Trace], strand: usize) -> &[Item]
    ensures { result.now ≡ get_or (items_of traces.now) strand [] }
{
    if strand < traces.len() {
        traces[strand].items.as_slice()
    } else {
        &[]
    }
}

fn lies_in_word(item: &Item) -> bool
    ensures { IsTrue result → LiesInWord item.now }
{
    !is_access(item.kind) || item.addr % 8 + u64::from(item.size) <= 8
}

fn are_in_word(items: &[Item]) -> bool
    ensures { IsTrue result → AreInWord items.now × (length items.now ≤ 2 ^ 32) }
{
    if items.len() > 4_294_967_296 {
        return false;
    }
    for number in 0..items.len() {
        if !lies_in_word(&items[number]) {
            return false;
        }
    }
    true
}

pub(crate) fn can_be_checked(report: &Report) -> bool
    ensures { IsTrue result → CanBeChecked report.now }
{
    let traces = report.traces.as_slice();
    if traces.len() > 256 {
        return false;
    }
    for strand in 0..traces.len() {
        if !are_in_word(items_at(traces, strand)) {
            return false;
        }
    }
    true
}

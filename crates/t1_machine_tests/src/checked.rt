//! Whether traces and a log are orderable, for the tests, whose traces are data.
ghost use Rattle.std.specs.Prelude.{ℕ, ◌≡◌, ◌<◌, ◌≤◌, length, IsTrue, IfSome, Some};
ghost use Rattle.t1_event.specs.Kinds.{is_access};
ghost use Rattle.t1_event.specs.Items.{items_of};
ghost use Rattle.t1_machine_tests.specs.Checked.{IsPlacedBy, IsStrand, IsCommitIn, AreStrands, AreCommits, GoesOn};
ghost use Rattle.t1_order.specs.Next.{time_of};
ghost use Rattle.t1_order.specs.Orderable.{AreOrderable, accesses_in};

use t1_event::{Commit, How, Item, ItemKind, Trace};

fn is_access(item: &Item) -> bool
    ensures { result ≡ is_access item.now.kind }
{
    match item.kind {
        ItemKind::Membar | ItemKind::Flush => false,
        ItemKind::Fetch | ItemKind::Load | ItemKind::Store | ItemKind::Atomic { .. } => true,
    }
}

/// The time of an access that hit or was forwarded; none of any other item.
fn time_of(item: &Item) -> Option<u32>
    ensures { result ≡ time_of item.now }
{
    if !is_access(item) {
        return None;
    }
    match item.how {
        How::Forward { time } | How::Hit { time } => Some(time),
        How::Unplaced | How::Commit { .. } => None,
    }
}

fn is_placed_by(log: &[Commit], strand: usize, number: usize, item: &Item) -> bool
    ensures { IsTrue result → IsPlacedBy log.now strand number item.now }
{
    if !is_access(item) {
        return true;
    }
    if let Some(_) = time_of(item) {
        return true;
    }
    let How::Commit { index, seen } = item.how else {
        return false;
    };
    if index as usize >= log.len() {
        return false;
    }
    let commit = &log[index as usize];
    if commit.strand as usize != strand || commit.item as usize != number {
        return false;
    }
    commit.seen == seen
}

/// The last time so far with that of an item; none where the time falls.
fn time_after(last: u32, item: &Item) -> Option<u32>
    ensures { IfSome result (λ next. GoesOn last item.now next) }
{
    match time_of(item) {
        None => Some(last),
        Some(time) if time < last => None,
        Some(time) => Some(time),
    }
}

fn is_strand(log: &[Commit], strand: usize, items: &[Item]) -> bool
    ensures { IsTrue result → IsStrand log.now strand items.now }
{
    if items.len() > 4_294_967_296 {
        return false;
    }
    let mut last = 0;
    for number in 0..items.len() {
        let item = &items[number];
        if !is_placed_by(log, strand, number, item) {
            return false;
        }
        let Some(next) = time_after(last, item) else {
            return false;
        };
        last = next;
    }
    true
}

fn are_strands(traces: &[Trace], log: &[Commit]) -> bool
    ensures { IsTrue result → AreStrands (items_of traces.now) log.now }
{
    for strand in 0..traces.len() {
        if !is_strand(log, strand, traces[strand].items.as_slice()) {
            return false;
        }
    }
    true
}

fn is_commit_in(traces: &[Trace], index: usize, commit: &Commit) -> bool
    ensures { IsTrue result → IsCommitIn (items_of traces.now) index commit.now }
{
    if commit.strand as usize >= traces.len() {
        return false;
    }
    let items = traces[commit.strand as usize].items.as_slice();
    if commit.item as usize >= items.len() {
        return false;
    }
    let item = &items[commit.item as usize];
    if !is_access(item) {
        return false;
    }
    let How::Commit {
        index: placed,
        seen,
    } = item.how
    else {
        return false;
    };
    placed as usize == index && seen == commit.seen
}

fn are_commits(traces: &[Trace], log: &[Commit]) -> bool
    ensures { IsTrue result → AreCommits (items_of traces.now) log.now }
{
    for index in 0..log.len() {
        if !is_commit_in(traces, index, &log[index]) {
            return false;
        }
    }
    true
}

pub(crate) fn are_orderable(traces: &[Trace], log: &[Commit]) -> bool
    ensures { IsTrue result → AreOrderable (items_of traces.now) log.now }
{
    if traces.len() > 64 {
        return false;
    }
    if !are_strands(traces, log) {
        return false;
    }
    are_commits(traces, log)
}

/// How many items there are.
pub(crate) fn items_in(traces: &[Trace]) -> Option<usize>
    ensures { IfSome result (λ count. accesses_in (items_of traces.now) ≤ count) }
{
    let mut count: usize = 0;
    for strand in 0..traces.len() {
        let Some(next) = count.checked_add(traces[strand].items.as_slice().len()) else {
            return None;
        };
        count = next;
    }
    Some(count)
}

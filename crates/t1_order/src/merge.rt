//! The merge of the strands and the log.
ghost use Rattle.std.specs.Prelude.{ℕ, ◌≡◌, ◌+◌, ◌≤◌, ◌↔◌, IsTrue, IfSome, IfNone, vec_len, vec_capacity, length};
ghost use Rattle.t1_event.specs.Items.{items_of};
ghost use Rattle.t1_order.specs.Orderable.{AreOrderable, AreShort, GrowsByOrder, accesses_in};
ghost use Rattle.t1_order.specs.Heads.{IsLeast};
ghost use Rattle.t1_order.specs.Merge.{IsRest, IsNoneListed, AreAllListed, CommitComes, IsPassed, IsNextPlace};

use crate::heads::{Head, Heads};
use crate::next::{Next, next_from};
use t1_event::{Commit, Place, Trace};

/// What is not listed yet: of each strand the items from a number on, with the time of the one at this
/// number; and the commits from an index on.
#[derive(Drop)]
struct Rest {
    numbers: [usize; 64],
    times: Heads,
    commits: usize,
}

/// All that there is, of each strand from its first access on that hit or was forwarded.
fn rest_of(traces: &[Trace]) -> Rest
    requires { length traces.now ≤ 64 }
    ensures rest { IsRest (items_of traces.now) result }
    ensures none { IsNoneListed (items_of traces.now) result }
{
    let mut numbers = [0; 64];
    let mut times = Heads::new();
    for strand in 0..traces.len() {
        let Next { number, time } = next_from(traces[strand].items.as_slice(), 0);
        numbers[strand] = number;
        times.put(strand as u8, time);
    }
    Rest {
        numbers,
        times,
        commits: 0,
    }
}

/// Lists the next access of the strand of a head, which is the head's.
fn list_head(traces: &[Trace], rest: &mut Rest, head: Head) -> Place
    requires short { AreShort (items_of traces.now) }
    requires rest { IsRest (items_of traces.now) rest.old }
    requires head { IsLeast rest.old.times head }
    ensures { IsPassed (items_of traces.now) rest.old rest.new head result }
{
    let strand = head.strand as usize;
    let item = rest.numbers[strand];
    let Next { number, time } = next_from(traces[strand].items.as_slice(), item + 1);
    rest.numbers[strand] = number;
    if time != Some(head.time) {
        rest.times.put(head.strand, time);
    }
    Place {
        strand: head.strand,
        item: item as u32,
    }
}

/// Whether there is a commit of this index, and it comes before the head.
fn commit_comes(index: usize, count: usize, head: Option<Head>) -> bool
    ensures { IsTrue result ↔ CommitComes index count head }
{
    if index >= count {
        return false;
    }
    match head {
        Some(head) => index < head.time as usize,
        None => true,
    }
}

/// The place with the least key of those that are not listed yet; none where all are.
fn next_place(traces: &[Trace], log: &[Commit], rest: &mut Rest) -> Option<Place>
    requires inputs { AreOrderable (items_of traces.now) log.now }
    requires rest { IsRest (items_of traces.now) rest.old }
    ensures rest { IsRest (items_of traces.now) rest.new }
    ensures some { IfSome result (λ place. IsNextPlace (items_of traces.now) rest.old rest.new place) }
    ensures none { IfNone result (AreAllListed (items_of traces.now) rest.old) }
{
    let first = rest.times.first();
    if commit_comes(rest.commits, log.len(), first) {
        let commit = &log[rest.commits];
        rest.commits += 1;
        return Some(Place {
            strand: commit.strand,
            item: commit.item,
        });
    }
    match first {
        Some(head) => Some(list_head(traces, rest, head)),
        None => None,
    }
}

/// Appends the memory order of a run: every access once, ascending by keys.
///
/// The key of commit n is (n, 1), and that of an access that hit or was forwarded at time t is
/// (t, 0, strand, item). There are at most 64 traces, each of at most 4,294,967,296 items; each access
/// has a place, and the log names those that are placed as commits, each at its index; along a strand
/// the times never fall; and `out` has room for all accesses. Takes no memory.
pub fn order_of(traces: &[Trace], log: &[Commit], out: &mut Vec<Place>)
    requires inputs { AreOrderable (items_of traces.now) log.now }
    requires room { vec_len out.old + accesses_in (items_of traces.now) ≤ vec_capacity out.old }
    ensures order { GrowsByOrder (items_of traces.now) out.old.items out.new.items }
    ensures room { vec_capacity out.new ≡ vec_capacity out.old }
{
    let mut rest = rest_of(traces);
    while let Some(place) = next_place(traces, log, &mut rest) {
        out.push_reserved(place);
    }
}

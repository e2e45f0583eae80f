//! The next access of a strand.
ghost use Rattle.std.specs.Prelude.{ℕ, ◌≡◌, ◌≤◌, length};
ghost use Rattle.t1_order.specs.Next.{time_of, IsNext, NoneBetween};

use t1_event::{How, Item, ItemKind};

/// The time of an access that hit or was forwarded; none of any other item.
pub(crate) fn time_of(item: &Item) -> Option<u32>
    ensures { result ≡ time_of item.now }
{
    match item.kind {
        ItemKind::Membar | ItemKind::Flush => return None,
        ItemKind::Fetch | ItemKind::Load | ItemKind::Store | ItemKind::Atomic { .. } => {}
    }
    match item.how {
        How::Forward { time } | How::Hit { time } => Some(time),
        How::Unplaced | How::Commit { .. } => None,
    }
}

/// The number of an access that hit or was forwarded, with its time; or the number of all items, and
/// no time.
pub(crate) struct Next {
    pub number: usize,
    pub time: Option<u32>,
}

/// The first access of a strand, from a number on, that hit or was forwarded.
pub(crate) fn next_from(items: &[Item], from: usize) -> Next
    requires { from ≤ length items.now }
    ensures next { IsNext items.now result.number result.time }
    ensures above { from ≤ result.number }
    ensures first { NoneBetween items.now from result.number }
{
    for number in from..items.len() {
        if let Some(time) = time_of(&items[number]) {
            return Next {
                number,
                time: Some(time),
            };
        }
    }
    Next {
        number: items.len(),
        time: None,
    }
}

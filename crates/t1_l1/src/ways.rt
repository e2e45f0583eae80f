//! The ways of a set: which slot holds a line, and which is empty.
ghost use Rattle.std.specs.Prelude.{◌≡◌, ◌+◌, ◌*◌, ◌%◌, ◌<◌, ◌≤◌, get_or, is_none, length, IfSome, None};
ghost use Rattle.t1_shape.specs.Slots.{holds, scan, empty_way};
ghost use Rattle.t1_l1.specs.Layouts.{IsSets};

/// The set of a line.
#[inline]
pub fn set_of(sets: usize, line: u64) -> usize
    requires { IsSets sets }
    ensures value { result ≡ line % sets }
    ensures within { result < sets }
{
    (line & (sets as u64 - 1)) as usize
}

/// The first slot of a line's set.
#[inline]
#[tactic(auto, using(crate::proofs::Sums::row_fits, crate::proofs::Sums::rows_few))]
pub fn first_slot(ways: usize, sets: usize, line: u64) -> usize
    requires ways { ways ≤ 8 }
    requires sets { IsSets sets }
    ensures value { result ≡ ways * (line % sets) }
    ensures room { result + ways ≤ ways * sets }
    ensures few { ways * sets ≤ 1024 }
{
    ways * set_of(sets, line)
}

/// The slot of a way of a set.
#[inline]
#[tactic(auto, using(crate::proofs::Sums::row_fits, crate::proofs::Sums::rows_few))]
pub fn slot_at(ways: usize, sets: usize, set: u8, way: u8) -> usize
    requires ways { ways ≤ 8 }
    requires sets { IsSets sets }
    requires set { set < sets }
    requires way { way < ways }
    ensures value { result ≡ ways * set + way }
    ensures within { result < ways * sets }
{
    ways * set as usize + way as usize
}

/// Whether a slot holds a line.
#[inline]
fn holds_at(tags: &[Option<u64>], slot: usize, line: u64) -> bool
    requires { slot < length tags.now }
    ensures { result ≡ holds (get_or tags.now slot None) line }
{
    match tags[slot] {
        None => false,
        Some(held) => held == line,
    }
}

/// The lowest of `ways` slots from `first` on that holds a line.
#[inline]
pub fn lowest(tags: &[Option<u64>], first: usize, ways: usize, line: u64) -> Option<usize>
    requires room { first + ways ≤ length tags.now }
    requires few { length tags.now ≤ 1024 }
    ensures slot { result ≡ scan tags.now line first ways }
    ensures within { IfSome result (λ j. (first ≤ j) × (j < first + ways)) }
{
    for way in 0..ways {
        if holds_at(tags, first + way, line) {
            return Some(first + way);
        }
    }
    None
}

/// Whether a slot is empty.
#[inline]
fn is_free(tags: &[Option<u64>], slot: usize) -> bool
    requires { slot < length tags.now }
    ensures { result ≡ is_none (get_or tags.now slot None) }
{
    tags[slot].is_none()
}

/// The lowest of the ways of a set whose slot is empty; `first` is the set's first slot.
pub fn first_free(tags: &[Option<u64>], first: usize, ways: usize) -> Option<usize>
    requires room { first + ways ≤ length tags.now }
    requires few { length tags.now ≤ 1024 }
    ensures value { result ≡ empty_way tags.now first 0 ways }
    ensures way { IfSome result (λ way. way < ways) }
{
    for way in 0..ways {
        if is_free(tags, first + way) {
            return Some(way);
        }
    }
    None
}

//! The tags of one cache.
ghost use Rattle.std.specs.Prelude.{◌≡◌, ◌*◌, ◌<◌, set, replicate, None, IfOk};
ghost use Rattle.t1_shape.specs.Slots.{slot_of};

use std::alloc::{AllocError, Global};
use std::marker::Model;

/// The slots of a cache: both caches have 512.
pub const SLOTS: usize = 512;

/// What one cache holds, by slot: way `w` of set `s` is slot `ways * s + w`. A tag is the number of a
/// line.
#[derive(Drop)]
pub struct Tags {
    slots: Vec<Option<u64>>,
}

impl Model for Tags {
    ghost use Rattle.std.specs.Prelude.{◌≡◌, ℕ, List, Option, length};

    ghost Value = { List (Option ℕ) };

    ghost view = { λ t. t.slots.items };

    ghost invariant = { λ t. length t.slots.items ≡ 512 };
}

impl Tags {
    pub fn new(alloc: Global) -> Result<Tags, AllocError>
        ensures { IfOk result (λ t. t ≡ replicate SLOTS None) }
    {
        Ok(Tags {
            slots: Vec::from_elem(alloc, None, SLOTS)?,
        })
    }

    /// The lowest slot of a line's set that holds the line.
    pub fn slot_of(&self, ways: usize, sets: u64, line: u64) -> Option<usize>
        requires { (0 < sets) × (ways * sets ≡ SLOTS) }
        ensures { result ≡ slot_of (record { ways = ways; sets = sets }) self.now line }
    {
        let first = ways * (line % sets) as usize;
        for way in 0..ways {
            if self.slots[first + way] == Some(line) {
                return Some(first + way);
            }
        }
        None
    }

    pub fn put(&mut self, slot: usize, tag: Option<u64>)
        requires { slot < SLOTS }
        ensures { self.new ≡ set self.old slot tag }
    {
        self.slots[slot] = tag;
    }
}

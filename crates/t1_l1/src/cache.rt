//! One level-1 cache.
ghost use Rattle.std.specs.Prelude.{◌≡◌, ◌+◌, ◌*◌, ◌/◌, ◌%◌, ◌<◌, ◌≤◌, ◌^◌, IfOk, IfSome};
ghost use Rattle.t1_num.specs.Memory.{IsSize};
ghost use Rattle.t1_l1.specs.Layouts.{IsWays, IsSets, IsWidth};
ghost use Rattle.t1_l1.specs.Cache.{CacheState, empty_cache, ArePointers, look_of, IsAt, get_of, read_of, victim_at, filled, emptied, updated};

use crate::line::put_in;
use crate::ways::{first_free, first_slot, lowest, set_of, slot_at};
use std::alloc::{AllocError, Global};
use std::marker::Model;
use t1_num::get_be;

/// A cache of WAYS ways a set and lines of LINE bytes, seen as its slots and pointers.
///
/// Way w of set s is slot `WAYS * s + w`. An address names a line, the address divided by LINE, and
/// the line a set, its number modulo the number of sets. Only `new` takes memory.
#[derive(Drop)]
pub struct L1<const WAYS: usize, const LINE: usize> {
    sets: usize,
    tags: Vec<Option<u64>>,
    lines: Vec<[u8; LINE]>,
    pointers: Vec<u8>,
}

impl<const WAYS: usize, const LINE: usize> Model for L1<WAYS, LINE> {
    ghost use Rattle.t1_l1.specs.Cache.{CacheState};
    ghost use Rattle.t1_l1.specs.Arrays.{shown, AreArrays};

    ghost Value = { CacheState };

    ghost view = { λ c. shown WAYS c.sets LINE c.tags.items c.lines.items c.pointers.items };

    ghost invariant = { λ c. AreArrays WAYS c.sets LINE c.tags.items c.lines.items c.pointers.items };
}

impl<const WAYS: usize, const LINE: usize> L1<WAYS, LINE> {
    /// An empty cache of so many sets.
    pub fn new(alloc: Global, sets: usize) -> Result<L1<WAYS, LINE>, AllocError>
        requires ways { IsWays WAYS }
        requires width { IsWidth LINE }
        requires sets { IsSets sets }
        ensures { IfOk result (λ c. c ≡ empty_cache (record { ways = WAYS; sets = sets }) LINE) }
    {
        let tags = Vec::from_elem(alloc, None, WAYS * sets)?;
        let lines = Vec::from_elem(alloc, [0u8; LINE], WAYS * sets)?;
        let pointers = Vec::from_elem(alloc, 0u8, sets)?;
        Ok(L1 {
            sets,
            tags,
            lines,
            pointers,
        })
    }

    /// How many sets there are.
    #[inline]
    pub fn sets(&self) -> usize
        ensures value { result ≡ self.now.layout.sets }
        ensures few { result ≤ 128 }
        ensures ways { self.now.layout.ways ≡ WAYS }
        ensures width { self.now.width ≡ LINE }
        ensures pointers { ArePointers WAYS self.now.pointers }
    {
        self.sets
    }

    /// The lowest way that holds the line of an address; none exactly where no way does.
    #[inline]
    pub fn look(&self, addr: u64) -> Option<u8>
        ensures value { result ≡ look_of self.now addr }
        ensures at { IfSome result (λ way. IsAt self.now addr way) }
    {
        let first = first_slot(WAYS, self.sets, addr / LINE as u64);
        match lowest(self.tags.as_slice(), first, WAYS, addr / LINE as u64) {
            None => None,
            Some(slot) => Some((slot - first) as u8),
        }
    }

    /// The number of `size` bytes at an address, in a way that holds its line.
    #[inline]
    pub fn get(&self, addr: u64, size: u8, way: u8) -> u64
        requires size { IsSize size }
        requires aligned { addr % size ≡ 0 }
        requires at { IsAt self.now addr way }
        ensures value { result ≡ get_of self.now addr size way }
        ensures fits { result < 2 ^ (8 * size) }
    {
        let slot = first_slot(WAYS, self.sets, addr / LINE as u64) + way as usize;
        let line = &self.lines[slot];
        get_be(line, (addr % LINE as u64) as usize, size as usize)
    }

    /// The number of `size` bytes at an address, where its line is present.
    #[inline]
    #[tactic(auto, unfolding(crate::specs::Cache::read_of))]
    pub fn read(&self, addr: u64, size: u8) -> Option<u64>
        requires size { IsSize size }
        requires aligned { addr % size ≡ 0 }
        ensures value { result ≡ read_of self.now addr size }
        ensures fits { IfSome result (λ v. v < 2 ^ (8 * size)) }
    {
        match self.look(addr) {
            None => None,
            Some(way) => Some(self.get(addr, size, way)),
        }
    }

    /// The way that a fill of the line of an address takes: the first empty one of its set, else the
    /// one at the set's pointer.
    pub fn victim(&self, addr: u64) -> u8
        ensures value { result ≡ victim_at self.now addr }
        ensures way { result < WAYS }
    {
        let set = set_of(self.sets, addr / LINE as u64);
        let first = first_slot(WAYS, self.sets, addr / LINE as u64);
        match first_free(self.tags.as_slice(), first, WAYS) {
            None => self.pointers[set],
            Some(way) => way as u8,
        }
    }

    /// Fills a way with the line of an address; the pointer of the set is one past it then.
    pub fn fill(&mut self, addr: u64, way: u8, line: &[u8; LINE])
        requires { way < WAYS }
        ensures { self.new ≡ filled self.old addr way line.now }
    {
        let set = set_of(self.sets, addr / LINE as u64);
        let slot = first_slot(WAYS, self.sets, addr / LINE as u64) + way as usize;
        self.tags[slot] = Some(addr / LINE as u64);
        self.lines[slot] = *line;
        self.pointers[set] = (way + 1) % WAYS as u8;
    }

    /// Empties a way of a set.
    pub fn invalidate(&mut self, set: u8, way: u8)
        requires set { set < self.old.layout.sets }
        requires way { way < WAYS }
        ensures { self.new ≡ emptied self.old set way }
    {
        let slot = slot_at(WAYS, self.sets, set, way);
        self.tags[slot] = None;
    }

    /// Puts the low `size` bytes of a number at an address, in the lowest way that holds its line,
    /// where one does.
    pub fn update(&mut self, addr: u64, size: u8, value: u64)
        requires size { IsSize size }
        requires aligned { addr % size ≡ 0 }
        ensures { self.new ≡ updated self.old addr size value }
    {
        let first = first_slot(WAYS, self.sets, addr / LINE as u64);
        let Some(slot) = lowest(self.tags.as_slice(), first, WAYS, addr / LINE as u64) else {
            return;
        };
        put_in(
            &mut self.lines[slot],
            (addr % LINE as u64) as usize,
            size as usize,
            value,
        );
    }
}

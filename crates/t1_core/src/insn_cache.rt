//! The instruction cache of a core, of either layout.
ghost use Rattle.std.specs.Prelude.{◌≡◌, ◌*◌, ◌%◌, ◌<◌, ◌≤◌, ◌^◌, IfOk, IfSome};
ghost use Rattle.t1_num.specs.Memory.{IsSize};
ghost use Rattle.t1_packet.specs.declared.cache.Cache.TheVariants.{Icache};
ghost use Rattle.t1_packet.specs.Caches.{layout, width};
ghost use Rattle.t1_l1.specs.Cache.{empty_cache, read_of, victim_at, filled};
ghost use Rattle.t1_core.specs.Takes.{emptied_in};

use crate::replies::empty_way;
use std::alloc::{AllocError, Global};
use std::marker::Model;
use t1_l1::L1;
use t1_num::ChipKind;

/// 4 ways of 128 sets, or 8 ways of 64.
#[derive(Drop)]
enum Kind {
    Four(L1<4, 32>),
    Eight(L1<8, 32>),
}

/// An instruction cache of a chip, seen as its slots and pointers.
#[derive(Drop)]
pub struct InsnCache {
    kind: Kind,
}

impl Model for InsnCache {
    ghost use Rattle.t1_l1.specs.Cache.{CacheState};
    ghost use Rattle.t1_core.specs.Views.{state_of};

    ghost Value = { CacheState };

    ghost view = { λ c. state_of c.kind };
}

impl InsnCache {
    /// An empty cache of a chip.
    pub fn new(alloc: Global, chip: ChipKind) -> Result<InsnCache, AllocError>
        ensures { IfOk result (λ c. c ≡ empty_cache (layout chip Icache) (width Icache)) }
    {
        let kind = match chip {
            ChipKind::T1 => Kind::Four(L1::new(alloc, 128)?),
            ChipKind::T2 => Kind::Eight(L1::new(alloc, 64)?),
        };
        Ok(InsnCache { kind })
    }

    /// How many ways a set has.
    pub fn ways(&self) -> u8
        ensures value { result ≡ self.now.layout.ways }
        ensures some { 0 < result }
    {
        match &self.kind {
            Kind::Four(cache) => {
                let _sets = cache.sets();
                4
            }
            Kind::Eight(cache) => {
                let _sets = cache.sets();
                8
            }
        }
    }

    /// The word at an address, where its line is present.
    #[inline]
    pub fn read(&self, addr: u64, size: u8) -> Option<u64>
        requires size { IsSize size }
        requires aligned { addr % size ≡ 0 }
        ensures value { result ≡ read_of self.now addr size }
        ensures fits { IfSome result (λ v. v < 2 ^ (8 * size)) }
    {
        match &self.kind {
            Kind::Four(cache) => cache.read(addr, size),
            Kind::Eight(cache) => cache.read(addr, size),
        }
    }

    /// The way that a fill of the line of an address takes.
    pub fn victim(&self, addr: u64) -> u8
        ensures value { result ≡ victim_at self.now addr }
        ensures way { result < self.now.layout.ways }
    {
        match &self.kind {
            Kind::Four(cache) => {
                let _sets = cache.sets();
                cache.victim(addr)
            }
            Kind::Eight(cache) => {
                let _sets = cache.sets();
                cache.victim(addr)
            }
        }
    }

    /// Fills a way with the line of an address.
    pub fn fill(&mut self, addr: u64, way: u8, line: &[u8; 32])
        requires { way < self.old.layout.ways }
        ensures { self.new ≡ filled self.old addr way line.now }
    {
        match &mut self.kind {
            Kind::Four(cache) => {
                let _sets = cache.sets();
                cache.fill(addr, way, line)
            }
            Kind::Eight(cache) => {
                let _sets = cache.sets();
                cache.fill(addr, way, line)
            }
        }
    }

    /// Empties a way of a set, where the cache has it.
    pub fn empty(&mut self, set: u8, way: u8)
        ensures { self.new ≡ emptied_in self.old set way }
    {
        match &mut self.kind {
            Kind::Four(cache) => empty_way(cache, set, way),
            Kind::Eight(cache) => empty_way(cache, set, way),
        }
    }
}

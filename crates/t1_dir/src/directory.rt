//! The directory.
ghost use Rattle.std.specs.Prelude.{◌≡◌, ℕ, ◌+◌, ◌*◌, ◌/◌, ◌%◌, ◌<◌, ◌≤◌, ◌^◌, false, List, [], Some, None, length, set, get_or, replicate, IfOk};
ghost use Rattle.t1_shape.specs.Slots.{first_slot, slot_of};
ghost use Rattle.t1_packet.specs.Caches.{layout, line_of};
ghost use Rattle.t1_dir.specs.Marks.{AreMarked};
ghost use Rattle.t1_dir.specs.Directory.{DirectoryState, directory_start, directory_with, row_with, tags_at, way_of, HasCore, IsHidden, IsHiddenBut};

use crate::marks::Marks;
use crate::tags::Tags;
use std::alloc::{AllocError, Global};
use std::marker::Model;
use t1_num::ChipKind;
use t1_packet::Cache;

/// What the L1 caches of the cores hold, as far as a bank knows: a line or nothing for each core,
/// cache, set and way.
#[derive(Drop)]
pub struct Directory {
    chip: ChipKind,
    dcache: Vec<Tags>,
    icache: Vec<Tags>,
    dcache_marks: Marks,
    icache_marks: Marks,
}

impl Model for Directory {
    ghost use Rattle.t1_dir.specs.Directory.{DirectoryState};
    ghost use Rattle.t1_dir.specs.Marks.{AreMarked};

    ghost Value = { DirectoryState };

    ghost view = { λ d. record { shape = d.chip; dcache = d.dcache.items; icache = d.icache.items } };

    ghost invariant = { λ d. AreMarked d.dcache.items d.dcache_marks × AreMarked d.icache.items d.icache_marks };
}

/// The number of an address's line in a cache.
#[inline]
fn line_of(cache: Cache, addr: u64) -> u64
    ensures { result ≡ line_of cache addr }
{
    match cache {
        Cache::Dcache => addr / 16,
        Cache::Icache => addr / 32,
    }
}

/// Empty tags for each core.
fn empty_tags(alloc: Global, cores: u8) -> Result<Vec<Tags>, AllocError>
    ensures { IfOk result (λ v. v.items ≡ replicate cores (replicate 512 None)) }
{
    let mut all = Vec::with_capacity(alloc, cores as usize)?;
    for _ in 0..cores {
        all.push_reserved(Tags::new(alloc)?);
    }
    Ok(all)
}

/// Shows a line in a slot of a core, and marks it.
#[inline]
fn show(tags: &mut Vec<Tags>, marks: &mut Marks, core: u8, slot: usize, line: u64)
    requires core { (core < length tags.old.items) × (core < 8) }
    requires slot { slot < 512 }
    ensures tags { tags.new.items ≡ row_with tags.old.items core slot (Some line) }
    ensures kept { AreMarked tags.old.items marks.old → AreMarked tags.new.items marks.new }
{
    marks.put(core, slot, line);
    let row = &mut tags[core as usize];
    row.put(slot, Some(line));
}

impl Directory {
    /// A directory of so many cores, eight at most, that shows nothing.
    pub fn new(alloc: Global, chip: ChipKind, cores: u8) -> Result<Directory, AllocError>
        requires { cores ≤ 8 }
        ensures { IfOk result (λ d. d ≡ directory_start chip cores) }
    {
        let dcache = empty_tags(alloc, cores)?;
        let icache = empty_tags(alloc, cores)?;
        let dcache_marks = Marks::new(alloc)?;
        let icache_marks = Marks::new(alloc)?;
        Ok(Directory {
            chip,
            dcache,
            icache,
            dcache_marks,
            icache_marks,
        })
    }

    /// The ways of a cache.
    #[inline]
    pub fn ways(&self, cache: Cache) -> u8
        ensures value { result ≡ (layout self.now.shape cache).ways }
        ensures some { (0 < result) × (result ≤ 8) }
    {
        cache.ways(self.chip)
    }

    /// The sets of a cache.
    #[inline]
    pub fn sets(&self, cache: Cache) -> u64
        ensures value { result ≡ (layout self.now.shape cache).sets }
        ensures some { (0 < result) × (result ≤ 128) }
    {
        cache.sets(self.chip) as u64
    }

    #[inline]
    fn slot_of(&self, core: u8, cache: Cache, line: u64) -> Option<usize>
        requires { HasCore self.now core }
        ensures { result ≡ slot_of (layout self.now.shape cache) (tags_at self.now core cache) line }
    {
        let ways = self.ways(cache) as usize;
        let sets = self.sets(cache);
        match cache {
            Cache::Dcache => self.dcache[core as usize].slot_of(ways, sets, line),
            Cache::Icache => self.icache[core as usize].slot_of(ways, sets, line),
        }
    }

    /// The lowest way in which a core's cache holds the line of an address, or none where the line
    /// stands in no way.
    pub fn way_of(&self, core: u8, cache: Cache, addr: u64) -> Option<u8>
        requires { HasCore self.now core }
        ensures { result ≡ way_of self.now core cache (line_of cache addr) }
    {
        match self.slot_of(core, cache, line_of(cache, addr)) {
            Some(slot) => Some((slot % self.ways(cache) as usize) as u8),
            None => None,
        }
    }

    /// Whether any core may show the line of an address. It is false only where none does, and costs
    /// one look for all cores.
    #[inline]
    pub fn may_show(&self, cache: Cache, addr: u64) -> bool
        ensures { result ≡ false → IsHidden self.now cache (line_of cache addr) }
    {
        let ways = self.ways(cache) as usize;
        let sets = self.sets(cache);
        match cache {
            Cache::Dcache => self.dcache_marks.may_hold(ways, sets, addr / 16),
            Cache::Icache => self.icache_marks.may_hold(ways, sets, addr / 32),
        }
    }

    /// Whether a core other than this one may show the line of an address.
    #[inline]
    pub fn others_may_show(&self, own: u8, cache: Cache, addr: u64) -> bool
        requires { own < 8 }
        ensures { result ≡ false → IsHiddenBut self.now own cache (line_of cache addr) }
    {
        let ways = self.ways(cache) as usize;
        let sets = self.sets(cache);
        match cache {
            Cache::Dcache => self
                .dcache_marks
                .others_may_hold(ways, sets, own, addr / 16),
            Cache::Icache => self
                .icache_marks
                .others_may_hold(ways, sets, own, addr / 32),
        }
    }

    /// Shows the line of an address in a way of its set, in place of what stood there.
    pub fn set(&mut self, core: u8, cache: Cache, addr: u64, way: u8)
        requires core { HasCore self.old core }
        requires way { way < (layout self.old.shape cache).ways }
        ensures { self.new ≡ directory_with self.old core cache (first_slot (layout self.old.shape cache) (line_of cache addr) + way) (Some (line_of cache addr)) }
    {
        let line = line_of(cache, addr);
        let slot = self.ways(cache) as usize * (line % self.sets(cache)) as usize + way as usize;
        match cache {
            Cache::Dcache => show(&mut self.dcache, &mut self.dcache_marks, core, slot, line),
            Cache::Icache => show(&mut self.icache, &mut self.icache_marks, core, slot, line),
        }
    }

    /// Shows nothing in a way of a set.
    pub fn clear(&mut self, core: u8, cache: Cache, set: u8, way: u8)
        requires core { HasCore self.old core }
        requires set { set < (layout self.old.shape cache).sets }
        requires way { way < (layout self.old.shape cache).ways }
        ensures { self.new ≡ directory_with self.old core cache ((layout self.old.shape cache).ways * set + way) None }
    {
        let slot = self.ways(cache) as usize * set as usize + way as usize;
        match cache {
            Cache::Dcache => {
                let row = &mut self.dcache[core as usize];
                row.put(slot, None);
            }
            Cache::Icache => {
                let row = &mut self.icache[core as usize];
                row.put(slot, None);
            }
        }
    }
}

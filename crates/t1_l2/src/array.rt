//! Tags, pointers and lines of a bank's L2.
ghost use Rattle.std.specs.Prelude.{
  ◌≡◌,
  ℕ,
  ◌+◌,
  ◌*◌,
  ◌/◌,
  ◌%◌,
  ◌<◌,
  ◌≤◌,
  ◌^◌,
  ◌↔◌,
  ◌⊎◌,
  List,
  Option,
  None,
  Some,
  length,
  set,
  get_or,
  IfOk,
  IfSome,
  IfNone,
  IsTrue,
};
ghost use Rattle.t1_num.specs.Memory.{IsSize};
ghost use Rattle.t1_shape.specs.Numbers.{banks, l2_ways, most_l2_sets, l2_line};
ghost use Rattle.t1_shape.specs.Slots.{set_of, first_slot};
ghost use Rattle.t1_l2.specs.Array.{
  ArrayState,
  layout_of,
  place_of,
  slot_in,
  victim_in,
  filled,
  ensured,
  address_of,
  evicted_for,
  IsPresent,
  IsAbsent,
  IsOwn,
  line_at,
  read_at,
  bytes_at,
  written_at,
  lines_of_bank,
  array_start,
};

use std::alloc::{AllocError, Global};
use std::marker::Model;
use t1_num::{ChipKind, get_be, put_be};
use t1_shape::{banks, l2_ways};

/// The L2 of one bank, over its part of RAM.
#[derive(Drop)]
pub struct BankArray {
    chip: ChipKind,
    bank: u8,
    sets: u32,
    tags: Vec<Option<u64>>,
    pointers: Vec<u8>,
    lines: Vec<[u8; 64]>,
    ram: Vec<[u8; 64]>,
    /// The slot of the line that was ensured last, which is looked at first.
    recent: usize,
}

impl Model for BankArray {
    ghost use Rattle.t1_shape.specs.Numbers.{banks};
    ghost use Rattle.t1_l2.specs.Array.{ArrayState};
    ghost use Rattle.t1_l2.specs.Overlay.{overlay, IsArray};

    ghost Value = { ArrayState };

    ghost view = { λ a. record { shape = a.chip; bank = a.bank; sets = a.sets; tags = a.tags.items; pointers = a.pointers.items; memory = overlay (banks a.chip) a.tags.items a.lines.items a.ram.items } };

    ghost invariant = { λ a. IsArray a.chip a.bank a.sets a.tags.items a.pointers.items a.lines.items a.ram.items a.recent };
}

/// A bank's lines of a RAM, in order.
fn lines_of(
    alloc: Global,
    chip: ChipKind,
    bank: u8,
    ram: &[u8],
) -> Result<Vec<[u8; 64]>, AllocError>
    requires bank { bank < banks chip }
    requires whole { length ram.now % 65536 ≡ 0 }
    ensures { IfOk result (λ v. v.items ≡ lines_of_bank chip bank ram.now (length ram.now / 64 / banks chip)) }
{
    let banks = banks(chip) as usize;
    let count = ram.len() / 64 / banks;
    let mut lines = Vec::with_capacity(alloc, count)?;
    for i in 0..count {
        let at = 64 * (banks * i + bank as usize);
        let mut line = [0u8; 64];
        line.copy_from_slice(&ram[at..at + 64]);
        lines.push_reserved(line);
    }
    Ok(lines)
}

impl BankArray {
    /// An empty array of `sets` sets over the bank's lines of `ram`, which are copied.
    pub fn new(
        alloc: Global,
        chip: ChipKind,
        bank: u8,
        sets: u32,
        ram: &[u8],
    ) -> Result<BankArray, AllocError>
        requires bank { bank < banks chip }
        requires sets { (0 < sets) × (sets ≤ most_l2_sets chip) }
        requires ram { (length ram.now % 65536 ≡ 0) × (length ram.now ≤ 2 ^ 28) }
        ensures { IfOk result (λ a. a ≡ array_start chip bank sets ram.now) }
    {
        let slots = l2_ways(chip) as usize * sets as usize;
        Ok(BankArray {
            chip,
            bank,
            sets,
            tags: Vec::from_elem(alloc, None, slots)?,
            pointers: Vec::from_elem(alloc, 0, sets as usize)?,
            lines: Vec::from_elem(alloc, [0; 64], slots)?,
            ram: lines_of(alloc, chip, bank, ram)?,
            recent: 0,
        })
    }

    /// The number of the bank.
    #[inline]
    pub fn bank(&self) -> u8
        ensures { result ≡ self.now.bank }
    {
        self.bank
    }

    /// The banks of the chip.
    #[inline]
    pub fn banks(&self) -> u64
        ensures value { result ≡ banks self.now.shape }
        ensures some { 0 < result }
    {
        banks(self.chip) as u64
    }

    #[inline]
    fn ways(&self) -> usize
        ensures value { result ≡ l2_ways self.now.shape }
        ensures some { 0 < result }
        ensures few { result ≤ 16 }
    {
        l2_ways(self.chip) as usize
    }

    #[inline]
    fn place_of(&self, line: u64) -> u64
        ensures { result ≡ place_of self.now line }
    {
        line / self.banks()
    }

    #[inline]
    fn set_of(&self, line: u64) -> usize
        ensures value { result ≡ set_of (layout_of self.now) (place_of self.now line) }
        ensures low { result < self.now.sets }
        ensures few { self.now.sets ≤ 1024 }
    {
        (self.place_of(line) % self.sets as u64) as usize
    }

    /// The first slot of a line's set.
    #[inline]
    fn first_of(&self, line: u64) -> usize
        ensures value { result ≡ first_slot (layout_of self.now) (place_of self.now line) }
        ensures room { result + l2_ways self.now.shape ≤ length self.now.tags }
        ensures few { length self.now.tags ≤ 16384 }
    {
        let _bank = self.bank;
        self.ways() * self.set_of(line)
    }

    /// The lowest slot of its set that holds the line.
    #[inline(never)]
    fn slot_of(&self, line: u64) -> Option<usize>
        ensures { result ≡ slot_in self.now line }
    {
        let ways = self.ways();
        let first = self.first_of(line);
        for way in 0..ways {
            if self.tags[first + way] == Some(line) {
                return Some(first + way);
            }
        }
        None
    }

    /// The slot of a line, or none where it is absent.
    #[inline]
    fn find(&self, line: u64) -> Option<usize>
        ensures value { result ≡ slot_in self.now line }
        ensures at { IfSome result (λ slot. (get_or self.now.tags slot None ≡ Some line) × (slot < l2_ways self.now.shape * self.now.sets)) }
        ensures absent { IfNone result (IsAbsent self.now.tags line) }
    {
        if self.tags[self.recent] == Some(line) {
            return Some(self.recent);
        }
        self.slot_of(line)
    }

    /// The way that makes room for a line: the first empty one of its set, else the set's pointer.
    fn victim(&self, line: u64) -> usize
        ensures { result ≡ victim_in self.now line }
    {
        let set = self.set_of(line);
        let ways = self.ways();
        let first = self.first_of(line);
        for way in 0..ways {
            if self.tags[first + way].is_none() {
                return way;
            }
        }
        self.pointers[set] as usize
    }

    /// The same, within the ways that there are.
    fn room(&self, line: u64) -> usize
        ensures value { result ≡ victim_in self.now line }
        ensures low { result < l2_ways self.now.shape }
    {
        let _bank = self.bank;
        self.victim(line)
    }

    /// Writes the line of a slot back to RAM, and empties the slot. Gives the line's address.
    fn write_back(&mut self, slot: usize) -> Option<u64>
        requires { slot < l2_ways self.old.shape * self.old.sets }
        ensures value { result ≡ address_of (get_or self.old.tags slot None) }
        ensures new { self.new ≡ record self.old { tags = set self.old.tags slot None } }
    {
        let Some(line) = self.tags[slot] else {
            return None;
        };
        let place = self.place_of(line) as usize;
        self.ram[place] = self.lines[slot];
        self.tags[slot] = None;
        Some(line * 64)
    }

    /// Reads a line into an empty way of its set.
    fn fill(&mut self, line: u64, way: usize)
        requires way { way < l2_ways self.old.shape }
        requires own { (place_of self.old line < length self.old.memory) × (line % banks self.old.shape ≡ self.old.bank) }
        requires absent { IsAbsent self.old.tags line }
        requires empty { get_or self.old.tags (first_slot (layout_of self.old) (place_of self.old line) + way) None ≡ None }
        ensures { self.new ≡ filled self.old line way }
    {
        let set = self.set_of(line);
        let slot = self.first_of(line) + way;
        let place = self.place_of(line) as usize;
        let next = (way + 1) % self.ways();
        self.tags[slot] = Some(line);
        self.lines[slot] = self.ram[place];
        self.pointers[set] = next as u8;
        self.recent = slot;
    }

    /// Makes the line of an address present. Gives the address of the line that it evicted and wrote
    /// back, or none where it evicted none.
    pub fn ensure(&mut self, addr: u64) -> Option<u64>
        requires { IsOwn self.old addr }
        ensures evicted { result ≡ evicted_for self.old (l2_line addr) }
        ensures new { self.new ≡ ensured self.old (l2_line addr) }
    {
        let line = addr / 64;
        match self.find(line) {
            Some(slot) => {
                self.recent = slot;
                None
            }
            None => {
                let way = self.room(line);
                let slot = self.first_of(line) + way;
                let evicted = self.write_back(slot);
                self.fill(line, way);
                evicted
            }
        }
    }

    /// Whether the line of an address is present.
    pub fn holds_line(&self, addr: u64) -> bool
        ensures { IsTrue result ↔ IsPresent self.now.tags (l2_line addr) }
    {
        self.find(addr / 64).is_some()
    }

    /// The bytes of the present line of an address.
    #[inline]
    fn held(&self, addr: u64) -> &[u8]
        requires { IsPresent self.now.tags (l2_line addr) }
        ensures value { result.now ≡ line_at self.now addr }
        ensures len { length result.now ≡ 64 }
    {
        match self.find(addr / 64) {
            Some(slot) => &self.lines[slot],
            None => &[],
        }
    }

    /// The big-endian number of `size` bytes at an address, whose line is present.
    pub fn get(&self, addr: u64, size: u8) -> u64
        requires present { IsPresent self.now.tags (l2_line addr) }
        requires size { IsSize size }
        requires aligned { addr % size ≡ 0 }
        ensures value { result ≡ read_at self.now addr size }
        ensures fits { result < 2 ^ (8 * size) }
    {
        get_be(self.held(addr), (addr % 64) as usize, size as usize)
    }

    /// The first `size` bytes from an address, whose line is present, with zeros after them.
    pub fn line(&self, addr: u64, size: u8) -> [u8; 32]
        requires present { IsPresent self.now.tags (l2_line addr) }
        requires size { (size ≡ 16) ⊎ (size ≡ 32) }
        requires aligned { addr % size ≡ 0 }
        ensures { result ≡ bytes_at self.now addr size }
    {
        let at = (addr % 64) as usize;
        let count = size as usize;
        let mut bytes = [0u8; 32];
        bytes[..count].copy_from_slice(&self.held(addr)[at..at + count]);
        bytes
    }

    /// Writes the low `size` bytes of a number at an address, whose line is present.
    pub fn put(&mut self, addr: u64, size: u8, value: u64)
        requires present { IsPresent self.old.tags (l2_line addr) }
        requires size { IsSize size }
        requires aligned { addr % size ≡ 0 }
        ensures { self.new ≡ written_at self.old addr size value }
    {
        if let Some(slot) = self.find(addr / 64) {
            put_be(
                &mut self.lines[slot],
                (addr % 64) as usize,
                size as usize,
                value,
            );
        }
    }
}

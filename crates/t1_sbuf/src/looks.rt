//! A look at the entries of a buffer.
ghost use Rattle.std.specs.Prelude.{◌≡◌, true};
ghost use Rattle.t1_num.specs.Memory.{IsSize};
ghost use Rattle.t1_sbuf.specs.Access.{IsAligned};
ghost use Rattle.t1_sbuf.specs.Entries.{IsStore, AreEntries};
ghost use Rattle.t1_sbuf.specs.Looks.{overlaps, answer_of, look_of};

use crate::entry::{Entry, Look};

/// Whether an entry shares a byte with an access.
fn overlaps(entry: &Entry, addr: u64, size: u8) -> bool
    requires { IsSize size }
    ensures { result ≡ overlaps entry.now addr size }
{
    if entry.addr <= addr {
        addr - entry.addr < entry.size as u64
    } else {
        entry.addr - addr < size as u64
    }
}

/// What an entry that overlaps an access answers.
fn answer(entry: &Entry, place: u8, addr: u64, size: u8) -> Look
    requires store { IsStore entry.now }
    requires size { IsSize size }
    requires meets { overlaps entry.now addr size ≡ true }
    ensures { result ≡ answer_of entry.now place addr size }
{
    if addr < entry.addr || addr - entry.addr + size as u64 > entry.size as u64 {
        return Look::Overlaps(place);
    }
    let end = (addr - entry.addr) as u8 + size;
    let value = entry.value >> (8 * (entry.size - end) as u32);
    if size == 8 {
        Look::Covers(value)
    } else {
        Look::Covers(value % (1 << (8 * size as u32)))
    }
}

/// What a list of entries says of an access.
#[tactic(auto, unfolding(crate::specs::Looks::look_from))]
pub fn look_at(entries: &[Entry], addr: u64, size: u8) -> Look
    requires entries { AreEntries entries.now }
    requires size { IsSize size }
    requires aligned { IsAligned addr size }
    ensures { result ≡ look_of entries.now addr size }
{
    let mut found = Look::Clear;
    let mut place = 0u8;
    for entry in entries {
        if overlaps(entry, addr, size) {
            found = answer(entry, place, addr, size);
        }
        place += 1;
    }
    found
}

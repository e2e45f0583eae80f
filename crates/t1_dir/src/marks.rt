//! The marks of the lines that a set shows.
ghost use Rattle.std.specs.Prelude.{◌≡◌, ℕ, ◌+◌, ◌*◌, ◌/◌, ◌%◌, ◌<◌, ◌^◌, false, List, [], length, get_or, replicate, IfOk};
ghost use Rattle.t1_dir.specs.Marks.{mark_of, marked_with, IsFreeRow, IsFreeRowBut, AreRows, IsUnmarked, IsUnmarkedBut};

use std::alloc::{AllocError, Global};
use std::marker::Model;

/// For each four slots of a cache a row: the low 32 bits of the line in each of them, of each of eight
/// cores. A set of four ways has one row, one of eight ways two.
#[derive(Drop)]
pub struct Marks {
    rows: Vec<[u32; 32]>,
}

impl Model for Marks {
    ghost use Rattle.std.specs.Prelude.{◌≡◌, ℕ, List, length};

    ghost Value = { List (List ℕ) };

    ghost view = { λ m. m.rows.items };

    ghost invariant = { λ m. length m.rows.items ≡ 128 };
}

#[inline]
fn mark_of(line: u64) -> u32
    ensures { result ≡ mark_of line }
{
    (line % (1 << 32)) as u32
}

/// Whether a row has a mark.
#[inline]
fn has_mark(row: &[u32; 32], mark: u32) -> bool
    ensures { result ≡ false → (i : ℕ) → i < 32 → get_or row.now i 0 ≡ mark → ⊥ }
{
    let mut found = false;
    for one in row {
        found |= *one == mark;
    }
    found
}

/// A row in which the four slots of a core have another mark.
#[inline]
fn without(row: &[u32; 32], own: u8, mark: u32) -> [u32; 32]
    requires { own < 8 }
    ensures { (core way : ℕ) → way < 4 → (core ≡ own → ⊥) → get_or result (4 * core + way) 0 ≡ get_or row.now (4 * core + way) 0 }
{
    let mut rest = *row;
    let first = 4 * own as usize;
    rest[first] = !mark;
    rest[first + 1] = !mark;
    rest[first + 2] = !mark;
    rest[first + 3] = !mark;
    rest
}

impl Marks {
    pub fn new(alloc: Global) -> Result<Marks, AllocError>
        ensures { IfOk result (λ m. length m ≡ 128) }
    {
        Ok(Marks {
            rows: Vec::from_elem(alloc, [0; 32], 128)?,
        })
    }

    /// Marks a line in a slot of a core.
    #[inline]
    pub fn put(&mut self, core: u8, slot: usize, line: u64)
        requires core { core < 8 }
        requires slot { slot < 512 }
        ensures value { self.new ≡ marked_with self.old core slot line }
        ensures wide { length (get_or self.old (slot / 4) []) ≡ 32 }
    {
        let row = &mut self.rows[slot / 4];
        row[4 * core as usize + slot % 4] = mark_of(line);
    }

    #[inline]
    fn row_may_hold(&self, row: usize, mark: u32) -> bool
        requires { row < 128 }
        ensures { result ≡ false → IsFreeRow self.now row mark }
    {
        has_mark(&self.rows[row], mark)
    }

    #[inline]
    fn others_of_row(&self, row: usize, own: u8, mark: u32) -> bool
        requires row { row < 128 }
        requires own { own < 8 }
        ensures { result ≡ false → IsFreeRowBut self.now row own mark }
    {
        has_mark(&without(&self.rows[row], own, mark), mark)
    }

    /// Whether any way of the line's set has the line's mark.
    #[inline]
    pub fn may_hold(&self, ways: usize, sets: u64, line: u64) -> bool
        requires { AreRows ways sets }
        ensures { result ≡ false → IsUnmarked (record { ways = ways; sets = sets }) self.now line }
    {
        let mark = mark_of(line);
        let row = ways / 4 * (line % sets) as usize;
        self.row_may_hold(row, mark) || ways == 8 && self.row_may_hold(row + 1, mark)
    }

    /// The same, of every core but one.
    #[inline]
    pub fn others_may_hold(&self, ways: usize, sets: u64, own: u8, line: u64) -> bool
        requires rows { AreRows ways sets }
        requires own { own < 8 }
        ensures { result ≡ false → IsUnmarkedBut (record { ways = ways; sets = sets }) self.now own line }
    {
        let mark = mark_of(line);
        let row = ways / 4 * (line % sets) as usize;
        self.others_of_row(row, own, mark) || ways == 8 && self.others_of_row(row + 1, own, mark)
    }
}

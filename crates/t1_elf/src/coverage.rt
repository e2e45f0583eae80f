//! A memory in which chunks are laid from the last to the first, so that each byte is written once.
ghost use Rattle.std.specs.Prelude.{ℕ, ◌≡◌, ◌<◌, ◌≤◌, ◌+◌, ◌-◌, ◌++◌, List, None, Some, length, take, drop, IfOk, IfSome, OnOk, IsSome};
ghost use Rattle.t1_elf.specs.Gaps.{AreGaps, LiesInGap, IsCut, Covers, gaps_of};
ghost use Rattle.t1_elf.specs.Images.{zeros_of, with_bytes_at};

use std::alloc::{AllocError, Global};
use std::collections::BTreeMap;

/// A memory in part, and the gaps that nothing was laid in yet: from the first byte of each to the
/// byte behind it. A gap holds zeros.
#[derive(Drop)]
pub(crate) struct Coverage {
    memory: Vec<u8>,
    gaps: BTreeMap<usize, usize>,
}

/// At most so many bytes, behind the first ones.
fn part(bytes: &[u8], first: usize, count: usize) -> &[u8]
    ensures { result.now ≡ take count (drop first bytes.now) }
{
    let behind = bytes.split_at(first.min(bytes.len())).1;
    behind.split_at(count.min(behind.len())).0
}

impl Coverage {
    /// A memory of `ram` bytes that is one gap.
    pub(crate) fn new(alloc: Global, ram: usize) -> Result<Coverage, AllocError>
        ensures { (image : List ℕ) → length image ≡ ram → IfOk result (λ coverage. Covers coverage image image) }
    {
        let mut memory = Vec::with_capacity(alloc, ram)?;
        memory.resize(ram, 0)?;
        let mut gaps = BTreeMap::new(alloc);
        if ram > 0 {
            gaps.insert(0, ram)?;
        }
        Ok(Coverage { memory, gaps })
    }

    /// The last gap that has a byte from one address on and below another.
    fn last_gap(&self, low: usize, high: usize) -> Option<(usize, usize)>
        requires { AreGaps (gaps_of self.now) (length self.now.memory.items) }
        ensures gap { IfSome result (λ gap. gaps_of self.now gap.0 ≡ Some gap.1) }
        ensures between { IfSome result (λ gap. (gap.0 < high) × (low < gap.1) × (low < high)) }
        ensures last { IfSome result (λ gap. (q : ℕ) → q < high → IsSome (gaps_of self.now q) → q ≤ gap.0) }
        ensures none { result ≡ None → (j : ℕ) → low ≤ j → j < high → LiesInGap (gaps_of self.now) j → ⊥ }
    {
        if low >= high {
            return None;
        }
        match self.gaps.range(..high).next_back() {
            Some((start, end)) if *end > low => Some((*start, *end)),
            _ => None,
        }
    }

    /// Takes a part out of a gap.
    fn cut(&mut self, gap: (usize, usize), from: usize, to: usize) -> Result<(), AllocError>
        requires { gap.0 < to }
        ensures cut { OnOk result (IsCut (gaps_of self.old) (gaps_of self.new) gap from to) }
        ensures memory { self.new.memory ≡ self.old.memory }
    {
        if gap.0 < from {
            self.gaps.insert(gap.0, from)?;
        } else {
            self.gaps.remove(&gap.0);
        }
        if to < gap.1 {
            self.gaps.insert(to, gap.1)?;
        }
        Ok(())
    }

    /// Puts bytes at an address.
    #[tactic(auto, unfolding(crate::specs::Images::with_bytes_at))]
    fn put(&mut self, addr: usize, bytes: &[u8])
        requires { addr + length bytes.now ≤ length self.old.memory.items }
        ensures memory { self.new.memory.items ≡ with_bytes_at self.old.memory.items addr bytes.now }
        ensures gaps { self.new.gaps ≡ self.old.gaps }
    {
        self.memory[addr..addr + bytes.len()].copy_from_slice(bytes);
    }

    /// Lays a chunk under all that was laid before: its bytes, and its zeros behind them.
    pub(crate) fn lay_under(
        &mut self,
        addr: usize,
        bytes: &[u8],
        zeros: usize,
    ) -> Result<(), AllocError>
        requires within { addr + length bytes.now + zeros ≤ length self.old.memory.items }
        requires gaps { AreGaps (gaps_of self.old) (length self.old.memory.items) }
        ensures { (image under : List ℕ)
            → Covers self.old image (with_bytes_at under addr (bytes.now ++ zeros_of zeros))
            → length under ≡ length self.old.memory.items
            → OnOk result (Covers self.new image under) }
    {
        let mut high = addr + bytes.len() + zeros;
        while let Some(gap) = self.last_gap(addr, high) {
            let from = gap.0.max(addr);
            let to = gap.1.min(high);
            self.cut(gap, from, to)?;
            self.put(from, part(bytes, from - addr, to - from));
            high = from;
        }
        Ok(())
    }

    /// The memory, where nothing stands under what was laid but zeros.
    pub(crate) fn into_memory(self) -> Vec<u8>
        ensures { (image : List ℕ) → Covers self image (zeros_of (length self.memory.items)) → result.items ≡ image }
    {
        let Coverage { memory, gaps: _ } = self;
        memory
    }
}

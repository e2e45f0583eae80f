//! The last write of each byte, by its position.
ghost use Rattle.std.specs.Prelude.{ℕ, ◌≡◌, ◌<◌, ◌≤◌, ◌+◌, ◌*◌, ◌%◌, get_or, OnOk, max, if◌then◌else◌};
ghost use Rattle.t1_check.specs.Latest.{at, covers};

use std::alloc::{AllocError, Global};
use std::collections::BTreeMap;

/// For each byte of memory a position, 0 where there is none; kept by words of eight bytes.
#[derive(Drop)]
pub(crate) struct Latest {
    words: BTreeMap<u64, [usize; 8]>,
}

impl Latest {
    pub(crate) fn new(alloc: Global) -> Latest
        ensures { (addr : ℕ) → at result addr ≡ 0 }
    {
        Latest {
            words: BTreeMap::new(alloc),
        }
    }

    /// The positions of the eight bytes of a word, by the word's number.
    pub(crate) fn word(&self, number: u64) -> [usize; 8]
        ensures { (byte : ℕ) → byte < 8 → get_or result byte 0 ≡ at self.now (8 * number + byte) }
    {
        self.words.get(&number).copied().unwrap_or([0; 8])
    }

    /// Each of these bytes, which lie in one word, has at least this position now.
    pub(crate) fn raise(&mut self, addr: u64, size: u8, position: usize) -> Result<(), AllocError>
        requires { addr % 8 + size ≤ 8 }
        ensures { OnOk result ((byte : ℕ) → at self.new byte ≡ (if covers addr size byte then max (at self.old byte) position else at self.old byte)) }
    {
        let mut cells = self.word(addr / 8);
        let low = (addr % 8) as usize;
        for byte in low..low + size as usize {
            cells[byte] = cells[byte].max(position);
        }
        self.words.insert(addr / 8, cells)?;
        Ok(())
    }
}

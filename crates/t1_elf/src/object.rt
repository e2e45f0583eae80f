//! Objects, and the images that they make.

use crate::bytes::Bytes;
use crate::listed::Listed;
use std::alloc::{AllocError, Global};

/// One part of a program: bytes at an address, and after them so many zeros.
#[derive(Drop)]
pub struct Chunk {
    pub addr: u64,
    pub bytes: Bytes,
    pub zeros: u64,
}

/// A program: the address of its first instruction, and its chunks in the order in which they are
/// laid down.
#[derive(Drop)]
pub struct Object {
    pub entry: u64,
    pub chunks: Listed<Chunk>,
}

impl Object {
    ghost use Rattle.std.specs.Prelude.{◌≡◌, ◌≤◌, ◌∷◌, [], length, IfOk};
    ghost use Rattle.t1_elf.specs.Saved.{HasSize, IsSavable};

    /// The object of one chunk.
    pub fn of_chunk(alloc: Global, entry: u64, chunk: Chunk) -> Result<Object, AllocError>
        requires bytes { length chunk.bytes ≤ 67108864 }
        requires size { HasSize chunk }
        ensures value { IfOk result (λ object. object ≡ record { entry = entry; chunks = chunk ∷ [] }) }
        ensures savable { IfOk result IsSavable }
    {
        let mut chunks = Vec::with_capacity(alloc, 1)?;
        chunks.push_reserved(chunk);
        Ok(Object {
            entry,
            chunks: Listed::from_vec(chunks),
        })
    }
}

/// What the memory holds at first, and where every strand starts.
#[derive(Drop)]
pub struct Image {
    pub entry: u64,
    pub ram: Listed<u8>,
}

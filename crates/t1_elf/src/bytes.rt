//! The bytes of a chunk.
ghost use Rattle.std.specs.Prelude.{◌≡◌, ◌≤◌, ◌+◌, length, take, drop, IfOk};

use std::alloc::AllocError;
use std::marker::Model;
use std::rc::Rc;

/// Where bytes stand: in a list of their own, or in a part of a file that others refer to as well.
#[derive(Drop)]
pub(crate) enum Place {
    Own(Vec<u8>),
    Part {
        file: Rc<Vec<u8>>,
        start: usize,
        count: usize,
    },
}

/// Bytes that contracts see as a list. Those that were read from a file refer to it and are no copy.
#[derive(Drop)]
pub struct Bytes {
    place: Place,
}

impl Model for Bytes {
    ghost use Rattle.std.specs.Prelude.{ℕ, List};
    ghost use Rattle.t1_elf.specs.Places.{bytes_at, LiesInFile};

    ghost Value = { List ℕ };

    ghost view = { λ b. bytes_at b.place };

    ghost invariant = { λ b. LiesInFile b.place };
}

impl Bytes {
    /// The bytes of a `Vec`, which takes no memory.
    pub fn from_vec(bytes: Vec<u8>) -> Bytes
        ensures { result ≡ bytes.items }
    {
        Bytes {
            place: Place::Own(bytes),
        }
    }

    /// So many bytes of a file, from a place on, which are not copied.
    pub(crate) fn of_file(
        file: &Rc<Vec<u8>>,
        start: usize,
        count: usize,
    ) -> Result<Bytes, AllocError>
        requires { start + count ≤ length file.now.value.items }
        ensures { IfOk result (λ bytes. bytes ≡ take count (drop start file.now.value.items)) }
    {
        Ok(Bytes {
            place: Place::Part {
                file: file.clone()?,
                start,
                count,
            },
        })
    }

    pub fn as_slice(&self) -> &[u8]
        ensures { result.now ≡ self.now }
    {
        match &self.place {
            Place::Own(bytes) => bytes.as_slice(),
            Place::Part { file, start, count } => {
                let behind = file.as_ref().as_slice().split_at(*start).1;
                behind.split_at(*count).0
            }
        }
    }
}

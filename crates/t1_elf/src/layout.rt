//! From an object to an image.
ghost use Rattle.std.specs.Prelude.{◌≡◌, length, All, IfOk};
ghost use Rattle.t1_elf.specs.Images.{image_of};
ghost use Rattle.t1_elf.specs.Parsed.{IsBelow};

use crate::coverage::Coverage;
use crate::listed::Listed;
use crate::object::{Image, Object};
use std::alloc::{AllocError, Global};

/// The image of an object in a memory of `ram` bytes: zeros, and then the chunks in order, each
/// with its zeros behind its bytes, so that a later chunk lies over an earlier one.
///
/// The chunks are laid from the last to the first, each under those after it, so a byte of memory
/// is written once, however many chunks have it.
pub fn lay(alloc: Global, object: &Object, ram: u64) -> Result<Image, AllocError>
    requires { All (IsBelow ram) object.now.chunks }
    ensures value { IfOk result (λ image. image ≡ image_of object.now ram) }
    ensures size { IfOk result (λ image. length image.ram ≡ ram) }
{
    let chunks = object.chunks.as_slice();
    let mut coverage = Coverage::new(alloc, ram as usize)?;
    let mut left = chunks.len();
    while left > 0 {
        left -= 1;
        let chunk = &chunks[left];
        coverage.lay_under(
            chunk.addr as usize,
            chunk.bytes.as_slice(),
            chunk.zeros as usize,
        )?;
    }
    Ok(Image {
        entry: object.entry,
        ram: Listed::from_vec(coverage.into_memory()),
    })
}

//! From an object to the bytes of a file.
ghost use Rattle.std.specs.Prelude.{◌≡◌, ◌+◌, ◌*◌, ◌++◌, ◌<◌, ◌^◌, length, All, OnOk, IfOk};
ghost use Rattle.t1_elf.specs.Saved.{file_header_of, program_header_of, program_headers_from, contents_of, saved, HasSize, IsSavable};

use crate::object::{Chunk, Object};
use std::alloc::{AllocError, Global};
use t1_num::put_be;

/// The bytes of the file header.
const FILE_HEADER: usize = 64;

/// The bytes of a program header.
const PROGRAM_HEADER: usize = 56;

/// The file header.
#[tactic(auto, unfolding(crate::specs::Saved::file_header_of))]
fn file_header(entry: u64, count: u64) -> [u8; FILE_HEADER]
    ensures { result ≡ file_header_of entry count }
{
    let mut header = [0; FILE_HEADER];
    put_be(&mut header, 0, 4, 0x7f45_4c46);
    put_be(&mut header, 4, 1, 2);
    put_be(&mut header, 5, 1, 2);
    put_be(&mut header, 6, 1, 1);
    put_be(&mut header, 16, 2, 2);
    put_be(&mut header, 18, 2, 43);
    put_be(&mut header, 20, 4, 1);
    put_be(&mut header, 24, 8, entry);
    put_be(&mut header, 32, 8, FILE_HEADER as u64);
    put_be(&mut header, 52, 2, FILE_HEADER as u64);
    put_be(&mut header, 54, 2, PROGRAM_HEADER as u64);
    put_be(&mut header, 56, 2, count);
    header
}

/// The program header of a chunk whose bytes stand at an offset of the file.
#[tactic(auto, unfolding(crate::specs::Saved::program_header_of))]
fn program_header(offset: u64, chunk: &Chunk) -> [u8; PROGRAM_HEADER]
    requires { HasSize chunk.now }
    ensures { result ≡ program_header_of offset chunk.now }
{
    let size = chunk.bytes.as_slice().len() as u64;
    let mut header = [0; PROGRAM_HEADER];
    put_be(&mut header, 0, 4, 1);
    put_be(&mut header, 4, 4, 7);
    put_be(&mut header, 8, 8, offset);
    put_be(&mut header, 16, 8, chunk.addr);
    put_be(&mut header, 24, 8, chunk.addr);
    put_be(&mut header, 32, 8, size);
    put_be(&mut header, 40, 8, size + chunk.zeros);
    put_be(&mut header, 48, 8, 1);
    header
}

/// Appends the program headers of the chunks.
fn put_headers(file: &mut Vec<u8>, chunks: &[Chunk]) -> Result<(), AllocError>
    requires sizes { All HasSize chunks.now }
    requires offsets { 64 + 56 * length chunks.now + length (contents_of chunks.now) < 2 ^ 64 }
    ensures { OnOk result (file.new.items ≡ file.old.items ++ program_headers_from (64 + 56 * length chunks.now) chunks.now) }
{
    let mut offset = (FILE_HEADER + chunks.len() * PROGRAM_HEADER) as u64;
    for chunk in chunks {
        file.extend_from_slice(&program_header(offset, chunk))?;
        offset += chunk.bytes.as_slice().len() as u64;
    }
    Ok(())
}

/// Appends the bytes of the chunks.
fn put_contents(file: &mut Vec<u8>, chunks: &[Chunk]) -> Result<(), AllocError>
    ensures { OnOk result (file.new.items ≡ file.old.items ++ contents_of chunks.now) }
{
    for chunk in chunks {
        file.extend_from_slice(chunk.bytes.as_slice())?;
    }
    Ok(())
}

/// The number of bytes of the chunks.
fn content_len(chunks: &[Chunk]) -> usize
    requires { length (contents_of chunks.now) < 2 ^ 64 }
    ensures { result ≡ length (contents_of chunks.now) }
{
    let mut len = 0;
    for chunk in chunks {
        len += chunk.bytes.as_slice().len();
    }
    len
}

/// The bytes of the file of an object: a file header of 64 bytes, a program header of 56 bytes for
/// each chunk, and the bytes of the chunks in order.
///
/// The object has at most 65,535 chunks and 67,108,864 bytes, and the size of each chunk in memory
/// is a number of 64 bits.
pub fn save(alloc: Global, object: &Object) -> Result<Vec<u8>, AllocError>
    requires { IsSavable object.now }
    ensures { IfOk result (λ file. file.items ≡ saved object.now) }
{
    let chunks = object.chunks.as_slice();
    let size = FILE_HEADER + PROGRAM_HEADER * chunks.len() + content_len(chunks);
    let mut file = Vec::with_capacity(alloc, size)?;
    file.extend_from_slice(&file_header(object.entry, chunks.len() as u64))?;
    put_headers(&mut file, chunks)?;
    put_contents(&mut file, chunks)?;
    Ok(file)
}

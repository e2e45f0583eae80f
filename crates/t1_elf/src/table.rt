//! The table of program headers.
ghost use Rattle.std.specs.Prelude.{◌≡◌, ◌≤◌, ◌+◌, ◌++◌, ◌∷◌, ◌||◌, [], length, map, filter, not, All, OnOk, IfOk};
ghost use Rattle.t1_elf.specs.Fields.{header_at, headers_of};
ghost use Rattle.t1_elf.specs.Parsed.{chunk_of, chunks_of};
ghost use Rattle.t1_elf.specs.Tests.{is_dynamic, is_segment, is_outside, has_dynamic, has_no_segment, has_segment_outside, HasTable, HasBytes};

use crate::bytes::Bytes;
use crate::header::ProgramHeader;
use crate::listed::Listed;
use crate::object::Chunk;
use std::alloc::{AllocError, Global};
use std::rc::Rc;
use t1_num::get_be;

/// The bytes of a program header.
const HEADER: usize = 56;

/// The program header at a place.
fn read_header(file: &[u8], at: usize) -> ProgramHeader
    requires { at + 56 ≤ length file.now }
    ensures { result ≡ header_at file.now at }
{
    ProgramHeader {
        kind: get_be(file, at, 4) as u32,
        offset: get_be(file, at + 8, 8),
        address: get_be(file, at + 16, 8),
        file_size: get_be(file, at + 32, 8),
        memory_size: get_be(file, at + 40, 8),
    }
}

impl ProgramHeader {
    /// Whether only a dynamic linker can load it.
    fn is_dynamic(self) -> bool
        ensures { result ≡ is_dynamic self }
    {
        self.kind == 2 || self.kind == 3
    }

    /// Whether it is of a segment.
    fn is_segment(self) -> bool
        ensures { result ≡ is_segment self }
    {
        self.kind == 1 && self.memory_size > 0
    }

    /// Whether it is of a segment that does not lie in a file of this length, or not below this
    /// limit.
    fn is_outside(self, len: usize, limit: u64) -> bool
        ensures { result ≡ is_outside len limit self }
    {
        self.is_segment()
            && (self.file_size > self.memory_size
                || self.offset as u128 + self.file_size as u128 > len as u128
                || self.address as u128 + self.memory_size as u128 > limit as u128)
    }
}

/// What stands in a table: a header for a dynamic linker, a segment, a segment that is outside.
#[derive(Clone, Copy, Debug)]
pub(crate) struct Findings {
    pub(crate) dynamic: bool,
    pub(crate) segment: bool,
    pub(crate) outside: bool,
}

impl Findings {
    /// What stands in a table of no headers.
    const NONE: Findings = Findings {
        dynamic: false,
        segment: false,
        outside: false,
    };

    /// What stands in a table that has this header too.
    fn with(self, header: ProgramHeader, len: usize, limit: u64) -> Findings
        ensures dynamic { result.dynamic ≡ (self.dynamic || is_dynamic header) }
        ensures segment { result.segment ≡ (self.segment || is_segment header) }
        ensures outside { result.outside ≡ (self.outside || is_outside len limit header) }
    {
        Findings {
            dynamic: self.dynamic || header.is_dynamic(),
            segment: self.segment || header.is_segment(),
            outside: self.outside || header.is_outside(len, limit),
        }
    }
}

/// Goes through the table once.
#[tactic(auto, unfolding(crate::specs::Tests::has_dynamic, crate::specs::Tests::has_no_segment, crate::specs::Tests::has_segment_outside))]
pub(crate) fn look_through(file: &[u8], limit: u64) -> Findings
    requires long { 64 ≤ length file.now }
    requires table { HasTable file.now }
    ensures dynamic { result.dynamic ≡ has_dynamic file.now }
    ensures segment { not result.segment ≡ has_no_segment file.now }
    ensures outside { result.outside ≡ has_segment_outside file.now limit }
{
    let mut found = Findings::NONE;
    let table = get_be(file, 32, 8) as usize;
    let count = get_be(file, 56, 2) as usize;
    for number in 0..count {
        let header = read_header(file, table + number * HEADER);
        found = found.with(header, file.len(), limit);
    }
    found
}

/// The chunk of a segment, whose bytes are those of the file.
fn read_chunk(file: &Rc<Vec<u8>>, header: ProgramHeader) -> Result<Chunk, AllocError>
    requires bytes { header.offset + header.file_size ≤ length file.now.value.items }
    requires size { header.file_size ≤ header.memory_size }
    ensures { IfOk result (λ chunk. chunk ≡ chunk_of file.now.value.items header) }
{
    Ok(Chunk {
        addr: header.address,
        bytes: Bytes::of_file(file, header.offset as usize, header.file_size as usize)?,
        zeros: header.memory_size - header.file_size,
    })
}

/// Appends the chunk of a header, where it is of a segment.
fn add_chunk(
    file: &Rc<Vec<u8>>,
    header: ProgramHeader,
    chunks: &mut Listed<Chunk>,
) -> Result<(), AllocError>
    requires { HasBytes (length file.now.value.items) header }
    ensures { OnOk result (chunks.new ≡ chunks.old ++ map (chunk_of file.now.value.items) (filter is_segment (header ∷ []))) }
{
    if header.is_segment() {
        chunks.push(read_chunk(file, header)?)?;
    }
    Ok(())
}

/// The chunks of the segments, in the order of the table.
pub(crate) fn read_chunks(alloc: Global, file: &Rc<Vec<u8>>) -> Result<Listed<Chunk>, AllocError>
    requires long { 64 ≤ length file.now.value.items }
    requires table { HasTable file.now.value.items }
    requires inside { All (HasBytes (length file.now.value.items)) (headers_of file.now.value.items) }
    ensures { IfOk result (λ chunks. chunks ≡ chunks_of file.now.value.items) }
{
    let bytes = file.as_ref().as_slice();
    let table = get_be(bytes, 32, 8) as usize;
    let count = get_be(bytes, 56, 2) as usize;
    let mut chunks = Listed::new(alloc);
    for number in 0..count {
        let header = read_header(bytes, table + number * HEADER);
        add_chunk(file, header, &mut chunks)?;
    }
    Ok(chunks)
}

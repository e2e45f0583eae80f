//! ELF files.

use std::alloc::{AllocError, Global};

/// So many bytes of a file, from a place on, that have another value.
#[derive(Clone, Copy)]
pub struct Change {
    pub place: usize,
    pub count: usize,
    pub value: u8,
}

/// No byte.
pub const UNCHANGED: Change = Change {
    place: 0,
    count: 0,
    value: 0,
};

/// An ELF file of one segment, with some bytes changed.
#[derive(Clone, Copy)]
pub struct File<'a> {
    /// The words of the segment, in hexadecimal digits.
    pub words: &'a str,
    /// The address of the first word.
    pub at: u64,
    pub entry: u64,
    pub change: Change,
    /// How many bytes of it there are at most.
    pub size: usize,
}

/// The file of `mov 5, %g1`; `stx %g1, [%g0+0x200]`; `ldx [%g0+0x200], %g2`; and a halt, at 100 hex.
pub const STORE_AND_LOAD: File<'static> = File {
    words: "82102005 c2702200 c4582200 b5802000",
    at: 0x100,
    entry: 0x100,
    change: UNCHANGED,
    size: 1 << 24,
};

impl File<'_> {
    /// Its bytes.
    pub fn bytes(self, alloc: Global) -> Result<Vec<u8>, AllocError> {
        let mut words = Vec::new(alloc);
        for digits in self.words.split_whitespace() {
            words.push(u32::from_str_radix(digits, 16).unwrap_or(0))?;
        }
        let mut file = file_of(alloc, words.as_slice(), self.at, self.entry)?;
        let change = self.change;
        for byte in file.iter_mut().skip(change.place).take(change.count) {
            *byte = change.value;
        }
        file.truncate(self.size);
        Ok(file)
    }
}

/// An ELF file of one segment that holds these words at an address.
pub fn file_of(alloc: Global, words: &[u32], at: u64, entry: u64) -> Result<Vec<u8>, AllocError> {
    let size = (words.len() as u64).saturating_mul(4);
    let mut file = Vec::from_slice(alloc, b"\x7fELF\x02\x02\x01\0\0\0\0\0\0\0\0\0")?;
    file.extend_from_slice(&[0, 2, 0, 43, 0, 0, 0, 1])?;
    file.extend_from_slice(&entry.to_be_bytes())?;
    file.extend_from_slice(&64u64.to_be_bytes())?;
    file.extend_from_slice(&[0; 12])?;
    file.extend_from_slice(&[0, 64, 0, 56, 0, 1, 0, 0, 0, 0, 0, 0])?;
    file.extend_from_slice(&[0, 0, 0, 1, 0, 0, 0, 7])?;
    for field in [120, at, at, size, size, 1] {
        file.extend_from_slice(&field.to_be_bytes())?;
    }
    for word in words {
        file.extend_from_slice(&word.to_be_bytes())?;
    }
    Ok(file)
}

/// The file `examples/linked.elf`.
pub(crate) fn linked_file(alloc: Global) -> Result<Vec<u8>, AllocError> {
    let mut file = Vec::new(alloc);
    for row in BLOCKS.lines() {
        if let Some((place, words)) = row.split_once(" ") {
            file.resize(usize::from_str_radix(place, 16).unwrap_or(0), 0)?;
            for word in words.split_whitespace() {
                let word = u32::from_str_radix(word, 16).unwrap_or(0);
                file.extend_from_slice(&word.to_be_bytes())?;
            }
        }
    }
    file.resize(SIZE, 0)?;
    Ok(file)
}

/// The number of bytes of the file `examples/linked.elf`.
const SIZE: usize = 17_272;

/// Its blocks of 32 bytes that are not all zeros, each behind its place: the file header and four program
/// headers (code, data, a note, and a stack of size 0), the code at 2000 hex and the note at 2120, the
/// data at 4000, and from 4008 on symbols, names and section headers.
const BLOCKS: &str = "\
0000 7f454c46 02020100 00000000 00000000 0002002b 00000001 00000000 00100000
0020 00000000 00000040 00000000 00004178 00000002 00400038 00040040 00080007
0040 00000001 00000005 00000000 00000000 00000000 000fe000 00000000 000fe000
0060 00000000 00002134 00000000 00002134 00000000 00002000 00000001 00000006
0080 00000000 00004000 00000000 00102000 00000000 00102000 00000000 00000008
00a0 00000000 00000048 00000000 00002000 00000004 00000004 00000000 00002120
00c0 00000000 00100120 00000000 00100120 00000000 00000014 00000000 00000014
00e0 00000000 00000004 6474e551 00000006 00000000 00000000 00000000 00000000
0100 00000000 00000000 00000000 00000000 00000000 00000000 00000000 00000010
2000 21000408 a0142000 c25c0000 82006003 c2740000 b5802000 00000000 00000000
2120 00000004 00000004 00000001 74317300 0000001a 00000000 00000000 00000000
4000 00000000 00000002 00000000 00000000 00000000 00000000 00000000 00000000
4020 00000000 03000001 00000000 00100120 00000000 00000000 00000000 03000002
4040 00000000 00100000 00000000 00000000 00000000 03000003 00000000 00102000
4060 00000000 00000000 00000000 03000004 00000000 00102008 00000000 00000000
4080 00000001 0400fff1 00000000 00000000 00000000 00000000 0000000a 00000003
40a0 00000000 00102000 00000000 00000000 00000017 10000002 00000000 00100000
40c0 00000000 00000000 00000012 10000004 00000000 00102008 00000000 00000000
40e0 0000001e 10000003 00000000 00102008 00000000 00000000 00000025 10000004
4100 00000000 00102048 00000000 00000000 006c696e 6b65642e 6f00636f 756e7465
4120 72005f5f 6273735f 73746172 74005f65 64617461 005f656e 6400002e 73796d74
4140 6162002e 73747274 6162002e 73687374 72746162 002e6e6f 74652e67 75657374
4160 002e7465 7874002e 64617461 002e6273 73000000 00000000 00000000 00000000
41a0 00000000 00000000 00000000 00000000 00000000 00000000 0000001b 00000007
41c0 00000000 00000002 00000000 00100120 00000000 00002120 00000000 00000014
41e0 00000000 00000000 00000000 00000004 00000000 00000000 00000027 00000001
4200 00000000 00000006 00000000 00100000 00000000 00002000 00000000 00000018
4220 00000000 00000000 00000000 00000004 00000000 00000000 0000002d 00000001
4240 00000000 00000003 00000000 00102000 00000000 00004000 00000000 00000008
4260 00000000 00000000 00000000 00000008 00000000 00000000 00000033 00000008
4280 00000000 00000003 00000000 00102008 00000000 00004008 00000000 00000040
42a0 00000000 00000000 00000000 00000008 00000000 00000000 00000001 00000002
42c0 00000000 00000000 00000000 00000000 00000000 00004008 00000000 00000108
42e0 00000006 00000007 00000000 00000008 00000000 00000018 00000009 00000003
4300 00000000 00000000 00000000 00000000 00000000 00004110 00000000 0000002a
4320 00000000 00000000 00000000 00000001 00000000 00000000 00000011 00000003
4340 00000000 00000000 00000000 00000000 00000000 0000413a 00000000 00000038
4360 00000000 00000000 00000000 00000001 00000000 00000000
";

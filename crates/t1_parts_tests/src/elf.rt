ghost use Rattle.std.specs.Prelude.{IfOk};
ghost use Rattle.t1_elf.specs.Saved.{IsSavable};

use std::alloc::Global;
use std::test::Fail;
use t1_elf::{Bytes, Chunk, ElfError, Listed, Object, lay, parse, save};

/// A file of one segment: the halt of a strand at 100 hex.
const FILE: [u8; 124] = [
    0x7f, 0x45, 0x4c, 0x46, 2, 2, 1, 0, 0, 0, 0, 0, 0, 0, 0, 0, // identification
    0, 2, 0, 43, 0, 0, 0, 1, // type, machine, version
    0, 0, 0, 0, 0, 0, 1, 0, // entry
    0, 0, 0, 0, 0, 0, 0, 64, // place of the program headers
    0, 0, 0, 0, 0, 0, 0, 0, 0, 0, 0, 0, // place of the section headers, flags
    0, 64, 0, 56, 0, 1, 0, 0, 0, 0, 0, 0, // sizes and numbers of headers
    0, 0, 0, 1, 0, 0, 0, 7, // a segment that is loaded, and its flags
    0, 0, 0, 0, 0, 0, 0, 120, // its place in the file
    0, 0, 0, 0, 0, 0, 1, 0, 0, 0, 0, 0, 0, 0, 1, 0, // its addresses
    0, 0, 0, 0, 0, 0, 0, 4, 0, 0, 0, 0, 0, 0, 0, 4, // its sizes
    0, 0, 0, 0, 0, 0, 0, 1, // its alignment
    0xb5, 0x80, 0x20, 0, // wr %g0, 0, %asr26
];

/// A number of 64 bits that is as great as can be.
const MOST: [u8; 8] = [0xff; 8];

/// A segment of zeros alone at the file's end, and one byte behind it: offset, addresses, bytes in
/// the file.
const NO_BYTES_AT: [[u8; 32]; 2] = [
    [
        0, 0, 0, 0, 0, 0, 0, 124, 0, 0, 0, 0, 0, 0, 1, 0, 0, 0, 0, 0, 0, 0, 1, 0, 0, 0, 0, 0, 0, 0,
        0, 0,
    ],
    [
        0, 0, 0, 0, 0, 0, 0, 125, 0, 0, 0, 0, 0, 0, 1, 0, 0, 0, 0, 0, 0, 0, 1, 0, 0, 0, 0, 0, 0, 0,
        0, 0,
    ],
];

/// The file with these bytes at a place.
fn changed(alloc: Global, at: u8, bytes: &[u8]) -> Result<Vec<u8>, Fail> {
    let mut file = Vec::from_slice(alloc, &FILE)?;
    for (i, byte) in bytes.iter().enumerate() {
        if let Some(place) = file.get_mut(at as usize + i) {
            *place = *byte;
        }
    }
    Ok(file)
}

/// A change of the file, and the test that it then fails under a limit of 65,536.
#[derive(Clone, Copy)]
struct Case<'a> {
    name: &'a str,
    at: u8,
    bytes: &'a [u8],
    want: Option<ElfError>,
}

fn fails<'a>(name: &'a str, at: u8, bytes: &'a [u8], error: ElfError) -> Case<'a> {
    Case {
        name,
        at,
        bytes,
        want: Some(error),
    }
}

fn passes<'a>(name: &'a str, at: u8, bytes: &'a [u8]) -> Case<'a> {
    Case {
        name,
        at,
        bytes,
        want: None,
    }
}

#[test]
fn the_first_test_that_a_file_fails(rt: HostRuntime) -> Result<(), Fail> {
    for case in [
        passes("as it is", 0, &[0x7f]),
        fails("magic", 0, &[0x7e], ElfError::NotElf),
        fails("end of the magic", 3, &[0x47], ElfError::NotElf),
        fails("class and order", 4, &[1, 1], ElfError::WrongClass),
        fails("class above", 4, &[3], ElfError::WrongClass),
        fails("order", 5, &[1], ElfError::WrongOrder),
        fails("order above", 5, &[3], ElfError::WrongOrder),
        fails(
            "type and machine",
            16,
            &[0, 3, 0, 44],
            ElfError::WrongMachine,
        ),
        fails("machine below", 18, &[0, 42], ElfError::WrongMachine),
        fails("machine of two bytes", 18, &[1, 43], ElfError::WrongMachine),
        fails("type", 16, &[0, 3], ElfError::WrongType),
        fails("type below", 16, &[0, 1], ElfError::WrongType),
        fails("header size", 54, &[0, 57], ElfError::BadHeader),
        fails("header size below", 54, &[0, 55], ElfError::BadHeader),
        fails("table past the end", 39, &[69], ElfError::BadHeader),
        fails("table at the end", 39, &[68], ElfError::NoSegment),
        fails("table end past 2^64", 32, &MOST, ElfError::BadHeader),
        fails(
            "no table, other size",
            54,
            &[0, 0, 0, 0],
            ElfError::NoSegment,
        ),
        fails("dynamic", 67, &[2], ElfError::Dynamic),
        fails("interpreter", 67, &[3], ElfError::Dynamic),
        fails("note", 67, &[4], ElfError::NoSegment),
        fails("unused", 67, &[0], ElfError::NoSegment),
        fails(
            "no memory, odd fields",
            96,
            &[9, 0, 0, 0, 0, 0, 0, 0, 0, 0, 0, 0, 0, 0, 0, 0],
            ElfError::NoSegment,
        ),
        fails(
            "more bytes than memory",
            103,
            &[5],
            ElfError::SegmentOutside,
        ),
        passes("fewer bytes than memory", 103, &[3]),
        fails("bytes past the end", 79, &[121], ElfError::SegmentOutside),
        passes("no bytes, at the end", 72, &NO_BYTES_AT[0]),
        fails(
            "no bytes, past the end",
            72,
            &NO_BYTES_AT[1],
            ElfError::SegmentOutside,
        ),
        fails("bytes' end past 2^64", 72, &MOST, ElfError::SegmentOutside),
        passes("ends at the limit", 86, &[0xff, 0xfc]),
        fails(
            "ends past the limit",
            86,
            &[0xff, 0xfd],
            ElfError::SegmentOutside,
        ),
        fails("an end past 2^64", 80, &MOST, ElfError::SegmentOutside),
        fails("a size of 2^64 - 1", 104, &MOST, ElfError::SegmentOutside),
        passes("another physical address", 88, &MOST),
        passes("entry at the limit", 30, &[0xff, 0xfc]),
        fails(
            "entry past the limit",
            30,
            &[0xff, 0xfd],
            ElfError::EntryOutside,
        ),
        fails("entry + 4 past 2^64", 24, &MOST, ElfError::EntryOutside),
        fails("entry misaligned", 31, &[2], ElfError::EntryMisaligned),
    ] {
        let file = changed(rt.alloc(), case.at, case.bytes)?;
        let error = parse(rt.alloc(), file, 65536).err();
        assert_eq!(rt; error, case.want, "{}", case.name);
    }
    for (len, want) in [
        (63, ElfError::TooShort),
        (64, ElfError::BadHeader),
        (123, ElfError::SegmentOutside),
    ] {
        let mut file = changed(rt.alloc(), 0, &[])?;
        file.truncate(len);
        let error = parse(rt.alloc(), file, 65536).err();
        assert_eq!(rt; error, Some(want), "{len} bytes");
    }
    for (limit, want) in [(259, Some(ElfError::SegmentOutside)), (260, None)] {
        let file = changed(rt.alloc(), 0, &[])?;
        let error = parse(rt.alloc(), file, limit).err();
        assert_eq!(rt; error, want, "limit {limit}");
    }
    Ok(())
}

/// The halt of a strand at 100 hex, and zeros behind it.
fn halt(alloc: Global, zeros: u32) -> Result<Object, Fail>
    ensures { IfOk result IsSavable }
{
    let chunk = Chunk {
        addr: 0x100,
        bytes: Bytes::from_vec(Vec::from_slice(alloc, &[0xb5, 0x80, 0x20, 0])?),
        zeros: zeros as u64,
    };
    let object = Object::of_chunk(alloc, 0x100, chunk)?;
    Ok(object)
}

#[test]
fn an_object_is_saved_and_read(rt: HostRuntime) -> Result<(), Fail> {
    let file = save(rt.alloc(), &halt(rt.alloc(), 0)?)?;
    assert_eq!(rt; file.as_slice(), FILE.as_slice());

    let file = save(rt.alloc(), &halt(rt.alloc(), 5)?)?;
    let object = parse(rt.alloc(), file, 265)?;
    assert_eq!(rt; object.entry, 0x100);
    assert_eq!(rt; object.chunks.as_slice().len(), 1);
    for chunk in object.chunks.as_slice() {
        assert_eq!(rt; (chunk.addr, chunk.zeros), (0x100, 5));
        assert_eq!(rt; chunk.bytes.as_slice(), [0xb5, 0x80, 0x20, 0].as_slice());
    }
    Ok(())
}

/// A file of these segments, and these bytes behind their headers.
fn file_of(alloc: Global, segments: &[[u64; 6]], bytes: &[u8]) -> Result<Vec<u8>, Fail> {
    let count = segments.len().min(0xffff) as u16;
    let mut file = changed(alloc, 56, &count.to_be_bytes())?;
    file.truncate(64);
    for fields in segments {
        file.extend_from_slice(&[0, 0, 0, 1, 0, 0, 0, 0])?;
        for field in fields {
            file.extend_from_slice(&field.to_be_bytes())?;
        }
    }
    file.extend_from_slice(bytes)?;
    Ok(file)
}

#[test]
fn a_later_segment_lies_over_an_earlier_one(rt: HostRuntime) -> Result<(), Fail> {
    let segments = [[232, 2, 5, 5], [237, 3, 1, 3], [232, 1, 2, 2]].map(|[
        offset,
        addr,
        size,
        memory_size,
    ]| [offset, addr, 0, size, memory_size, 0]);
    let file = file_of(rt.alloc(), &segments, &[1, 2, 3, 4, 5, 9])?;
    let object = parse(rt.alloc(), file, 1024)?;
    let image = lay(rt.alloc(), &object, 1024)?;
    assert_eq!(rt; image.entry, 0x100);
    let front = image.ram.as_slice().get(..8);
    assert_eq!(rt; front, Some([0, 1, 2, 9, 0, 0, 5, 0].as_slice()));
    Ok(())
}

/// Laid one after another they would be a terabyte.
#[test]
fn as_many_segments_as_a_table_has_are_laid_in_time(rt: HostRuntime) -> Result<(), Fail> {
    let bytes = 64 + 56 * 0xffff;
    let segments = Vec::from_elem(rt.alloc(), [bytes, 0, 0, 4, 1 << 24, 0], 0xffff)?;
    let file = file_of(rt.alloc(), segments.as_slice(), &[1, 2, 3, 4])?;
    let object = parse(rt.alloc(), file, 1 << 24)?;
    assert_eq!(rt; object.chunks.as_slice().len(), 0xffff);
    let image = lay(rt.alloc(), &object, 1 << 24)?;
    assert_eq!(rt;
        image.ram.as_slice().get(..6),
        Some([1, 2, 3, 4, 0, 0].as_slice())
    );
    Ok(())
}

#[test]
fn a_list_keeps_what_is_pushed_in_order(rt: HostRuntime) -> Result<(), Fail> {
    let mut list: Listed<u8> = Listed::new(rt.alloc());
    assert_eq!(rt; list.as_slice().len(), 0);
    list.push(7)?;
    list.push(9)?;
    let mut items = list.into_vec();
    items.push(8)?;
    assert_eq!(rt; Listed::from_vec(items).as_slice(), [7, 9, 8].as_slice());
    Ok(())
}

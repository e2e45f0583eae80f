//! Why a file is refused.

use thiserror::Error;

/// Why a file is no program that can be loaded: the first test that it fails, in this order.
#[derive(Clone, Copy, Debug, PartialEq, Eq, Error)]
pub enum ElfError {
    /// It has fewer than 64 bytes.
    #[error("shorter than a file header")]
    TooShort,
    #[error("no ELF file")]
    NotElf,
    #[error("not of 64 bits")]
    WrongClass,
    #[error("not big-endian")]
    WrongOrder,
    #[error("not for SPARC V9")]
    WrongMachine,
    #[error("not to be executed")]
    WrongType,
    /// The table of program headers has another size of header, or does not lie in the file.
    #[error("a table of program headers that cannot be read")]
    BadHeader,
    #[error("for a dynamic linker")]
    Dynamic,
    #[error("no segment to load")]
    NoSegment,
    /// The bytes of a segment do not lie in the file, or do not fit in the segment, or the segment
    /// does not end below the limit.
    #[error("a segment outside of the file or of memory")]
    SegmentOutside,
    #[error("an entry outside of memory")]
    EntryOutside,
    #[error("an entry that is no multiple of 4")]
    EntryMisaligned,
    /// Memory is wanting.
    #[error("out of memory")]
    OutOfMemory,
}

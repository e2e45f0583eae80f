//! Program headers.

/// What is looked at of a program header: `p_type`, `p_offset`, `p_vaddr`, `p_filesz`, `p_memsz`.
#[derive(Clone, Copy, Debug, PartialEq, Eq)]
pub(crate) struct ProgramHeader {
    pub(crate) kind: u32,
    pub(crate) offset: u64,
    pub(crate) address: u64,
    pub(crate) file_size: u64,
    pub(crate) memory_size: u64,
}

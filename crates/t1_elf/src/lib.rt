//! Programs in files and in memory.
//!
//! An [`Object`] is what a file holds of a program: where it starts, and its chunks of bytes and
//! zeros. An [`Image`] is what memory holds before a run. [`parse`] reads the object of an ELF-64
//! file (big-endian, SPARC V9), whose chunks refer to the file, [`lay`] makes the image of an
//! object, and [`save`] the file:
//!
//! ```text
//! let object = parse(alloc, file, 65_536)?;
//! let image = lay(alloc, &object, 65_536)?;
//! ```
//!
//! `specs/Tests.antt` is the table of the tests of a file in their order, `specs/Parsed.antt` the
//! object of a file that passes them, `specs/Images.antt` the image of an object,
//! `specs/Gaps.antt` how it is made, each byte once, and `specs/Saved.antt` the file.
#![tactic(auto)]

pub mod bytes;
mod coverage;
pub mod error;
pub mod header;
pub mod laws;
mod layout;
pub mod listed;
pub mod object;
mod reader;
mod table;
mod writer;

pub use bytes::Bytes;
pub use error::ElfError;
pub use layout::lay;
pub use listed::Listed;
pub use object::{Chunk, Image, Object};
pub use reader::parse;
pub use writer::save;

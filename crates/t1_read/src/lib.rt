//! The reader of logs.
//!
//! [`read_log`] reads the text that `t1_log::print` writes. The report that it answers is well formed,
//! and the text is its log; the log of a well-formed report reads as that report (`specs/Exact.antt`).
//! For another text it answers the first line at fault and what is at fault with it
//! (`specs/Faults.antt`), unless memory was wanting. The text is read once, line by line, in the order in
//! which it is printed: the head with the machine and the image, the strands, and the tail with the
//! commits, the memory order and the console.
//!
//! ```text
//! let report = read_log(alloc, text)?;
//! ```
//!
//! Each line is taken by a function of `t1_take`. A line that it refuses is the first at fault. It is
//! looked at a second time, by `t1_line_forms::has_form`: one that has the form of its place, whatever its
//! numbers are, holds a value out of its range, and any other is a fault of syntax.
#![tactic(auto)]

mod error;
mod head;
pub mod laws;
mod lines;
mod reader;
mod strands;
mod tail;

pub use error::{LogError, LogKind};
pub use reader::read_log;

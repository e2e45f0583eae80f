//! The text of reports.
//!
//! [`print`] writes the log of a report to a sink: the machine, the image, what each strand did and
//! where each of its accesses stands, what the destinations served, and the memory order. [`Line`] is
//! a line of text, and takes no memory while it is made. [`print_brief`] writes how each strand ended,
//! and totals. Both texts are of version 1, which names no chip: [`is_first`] says whose they are.
//!
//! ```text
//! print(&report, &mut sink)?;
//! ```
#![tactic(auto)]

mod brief;
mod commits;
mod console;
mod line;
mod lines;
mod log;
mod texts;

pub use brief::print_brief;
pub use line::Line;
pub use lines::is_first;
pub use log::print;

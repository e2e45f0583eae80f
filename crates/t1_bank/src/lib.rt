//! An L2 bank: an array of lines over its part of RAM, and a directory of what the cores' L1 caches
//! hold of them.
//!
//! [`Bank::serve`] takes a request to the access that it gives up: the old value, the line of a fill
//! and its way, the line that made room in the L2, and the kills of copies in the cores' caches.
//!
//! ```text
//! let mut bank = Bank::new(alloc, 0, &config, &image.ram)?;
//! let served = bank.serve(request);
//! ```
#![tactic(auto)]

mod access;
mod bank;
mod copies;
mod laws;

pub use bank::Bank;
pub use laws::{banks_are_lawful, bytes_are_memory, refusals_are_quiet};

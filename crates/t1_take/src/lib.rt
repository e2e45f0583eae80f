//! The lines of a log, taken from a text.
//!
//! A [`Cursor`] goes along a text and takes the fields of a line: words, decimal numbers, hexadecimal
//! digits. It knows whether what it has taken so far is good: of its form and in its ranges. The functions
//! take one line each, in the order in which a log has them: [`take_config`] and [`take_entry`] the machine
//! and where it starts, [`take_block`] a block of the image, [`take_item`] and [`take_end`] what a strand
//! did and how it ended, [`take_commit`] a commit, [`take_place`] a place of the memory order,
//! [`take_console`] some bytes of the console.
//!
//! ```text
//! let mut cursor = Cursor::new(0);
//! match take_config(&mut cursor, text) {
//!     Some(config) => .., // `cursor.at` is where the next line begins
//!     None => ..,         // no such line stands there
//! }
//! ```
//!
//! Contracts say both ways what stands between two places of the text (`specs/Taken.antt`): what was
//! taken stands there, and what stands there is taken. What values a line can have is said in
//! `specs/Limits.antt`, `Items.antt` and `WellFormed.antt`, which has the well-formed reports: those that
//! have a log.
#![tactic(auto)]

mod commit;
mod cursor;
mod head;
mod item;
mod lists;

pub use commit::take_commit;
pub use cursor::Cursor;
pub use head::{is_in_limits, take_block, take_config, take_entry};
pub use item::{End, take_end, take_item};
pub use lists::{append, take_console, take_place};

//! What the tests of several crates share: guests as assembly texts, what their logs show, and rows of
//! commands with what comes of them.
#![tactic(auto)]

mod files;
mod logs;
mod rows;
mod seen;
mod texts;

pub use files::{Change, File, STORE_AND_LOAD, UNCHANGED, file_of};
pub use logs::{last_got, last_put};
pub use rows::{CALM, Input, Out, Plan, ROW, Row, has_line};
pub use seen::Seen;
pub use texts::{counter, message, store_membar_load, stored_log, two_readers};

//! The crossbar: it gives each served access its index in the log, and posts packets to the cores.
//!
//! [`Xbar::admit`] takes the oldest access that a destination served, appends its record to the log and
//! answers the packets to post; or it says what it waits for, and nothing changed. The order of
//! admission is the order of commits of the whole machine.
#![tactic(auto)]

pub mod admitted;
pub mod posts;
mod record;
pub mod xbar;

pub use admitted::{Admitted, Post};
pub use posts::Posts;
pub use xbar::Xbar;

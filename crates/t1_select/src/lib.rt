//! Thread select: which strand of a core acts next.
//!
//! Of the strands that are ready the least recently picked one is picked. They stand in a queue,
//! the least recently picked at its front; a strand that is picked goes to the end, and each ready
//! strand that was passed over comes one place nearer. A core asks [`Select::pick`] with a word
//! that has a bit for each strand that is ready.
#![tactic(auto)]

pub mod laws;
pub mod select;

pub use select::Select;

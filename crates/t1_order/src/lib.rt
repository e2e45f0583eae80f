//! The memory order of a run, from its traces and its log.
//!
//! A commit has its index as its key; a load or a fetch that hit, or a load that was forwarded, has its
//! core's time, and stands before the commit of that index. [`order_of`] merges: the log is in order
//! already, and so is each strand, whose times never fall. Which strand comes next is read off a winner
//! tree, so the work is linear in the items times the logarithm of the strands, and no memory is taken.
#![tactic(auto)]

mod heads;
pub mod laws;
mod merge;
mod next;

pub use merge::order_of;

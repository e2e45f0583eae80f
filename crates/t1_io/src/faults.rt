//! The answers of a call that could not do its work.

/// Memory is wanting.
pub use std::alloc::AllocError as OutOfMemory;

/// A read or a write failed. The count of faults of its source or sink rose in that call, or
/// stands at its last value, 18,446,744,073,709,551,615.
#[derive(Clone, Copy, Debug, PartialEq, Eq)]
pub struct Failed;

//! What the checker answers.

use t1_event::Place;

/// The axioms, in the order in which they are tried.
#[derive(Clone, Copy, Debug, PartialEq, Eq)]
pub enum Axiom {
    /// The order names each access once, and nothing else.
    Listing,
    /// A read stands before each later access of its strand.
    LoadOp,
    /// A write stands before each later write of its strand.
    StoreStore,
    /// Each byte of a read is that of the last write of this byte that it may see.
    Value,
    /// A write before a barrier stands before each read after it.
    Barrier,
}

/// A judgement of an order.
#[derive(Clone, Copy, Debug, PartialEq, Eq)]
pub enum Verdict {
    /// The order lists each access once and obeys total store order.
    Holds,
    /// The first axiom that fails, and where.
    Broken {
        axiom: Axiom,
        first: Place,
        second: Option<Place>,
    },
}

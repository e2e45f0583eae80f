//! The L2 array of a bank: 12 or 16 ways a set of 64-byte lines, over the bank's part of RAM.
//!
//! A bank holds each of its lines of RAM once; where a line is present in the L2 its bytes there are
//! the ones that are read and written, and it is written back when another line takes its way. What a
//! contract sees is an `ArrayState`: the tags by slot, the pointers of the sets, and the bank's lines
//! as they are read, so that a fill and a write back change no byte.
//!
//! ```text
//! let evicted = array.ensure(addr);
//! let old = array.get(addr, 8);
//! array.put(addr, 8, value);
//! ```
#![tactic(auto)]

mod array;

pub use array::BankArray;

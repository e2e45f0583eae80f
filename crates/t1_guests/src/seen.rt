//! What the logs of guests on several strands show of the memory order.

use crate::logs::{last_got, last_put};
use std::alloc::{AllocError, Global};

/// What a log shows.
#[derive(Clone, Copy)]
pub enum Seen<'a> {
    /// It is not looked at.
    Any,
    /// Both loads behind the stores of two strands got 0.
    NoStore,
    /// One of the two loads got 1.
    OneStore,
    /// Strands 2 and 3 do not see two stores in two orders.
    OneOrder,
    /// What the last access of a strand, of a kind, at an address of ten digits got.
    Got {
        strand: &'a str,
        kind: &'a str,
        addr: &'a str,
        got: &'a str,
    },
    /// What the last atomic put.
    Put(&'a str),
}

/// A load of eight bytes that got 0, and one that got 1.
const ZERO: Option<&str> = Some("0000000000000000");

const ONE: Option<&str> = Some("0000000000000001");

impl Seen<'_> {
    /// Whether a log shows it.
    pub fn is(self, alloc: Global, log: &str) -> Result<bool, AllocError> {
        let first = last_got(log, "0", "load", "0000000c00");
        let second = last_got(log, "1", "load", "0000000800");
        Ok(match self {
            Seen::Any => true,
            Seen::NoStore => first == ZERO && second == ZERO,
            Seen::OneStore => first == ONE || second == ONE,
            Seen::OneOrder => !sees_one_alone(log, "2", "0000008040", "0000008080")
                || !sees_one_alone(log, "3", "0000008080", "0000008040"),
            Seen::Got {
                strand,
                kind,
                addr,
                got,
            } => last_got(log, strand, kind, addr) == Some(got),
            Seen::Put(put) => last_put(alloc, log)? == Some(put),
        })
    }
}

/// Whether a strand got 1 at the first address and 0 at the second.
fn sees_one_alone(log: &str, strand: &str, first: &str, second: &str) -> bool {
    last_got(log, strand, "load", first) == ONE && last_got(log, strand, "load", second) == ZERO
}

//! Requests.

use crate::op::Op;
use std::marker::Model;

/// What a core asks of a destination: for which strand of it and which item of that strand's trace,
/// and the core's time when it was sent (`seen`: one more than the index of the packet that the core
/// took last, 0 before the first).
///
/// By its type the core and the strand are below 8.
#[derive(Clone, Copy, Debug, PartialEq, Eq)]
pub struct Request {
    pub core: u8,
    pub strand: u8,
    pub item: u32,
    pub seen: u32,
    pub op: Op,
}

impl Model for Request {
    ghost use Rattle.std.specs.Prelude.{◌<◌};
    ghost use Rattle.t1_packet.specs.Data.{RequestData};

    ghost Value = { RequestData };

    ghost view = { λ r. record { core = r.core; strand = r.strand; item = r.item; seen = r.seen; op = r.op } };

    ghost invariant = { λ r. (r.core < 8) × (r.strand < 8) };

    ghost inverse = { λ d. record { core = d.core; strand = d.strand; item = d.item; seen = d.seen; op = d.op } };
}

//! Packets.

use crate::kills::Kills;
use crate::op::Op;
use std::marker::Model;

/// What comes back to the core that asked: its request, with the value before the access, the way of
/// its fill, and the line of the fill with zeros after it.
///
/// By its type the strand is below 8.
#[derive(Clone, Copy, Debug, PartialEq, Eq)]
pub struct Reply {
    pub strand: u8,
    pub item: u32,
    pub seen: u32,
    pub op: Op,
    pub old: u64,
    pub way: Option<u8>,
    pub line: [u8; 32],
}

impl Model for Reply {
    ghost use Rattle.std.specs.Prelude.{◌<◌};
    ghost use Rattle.t1_packet.specs.Data.{ReplyData};

    ghost Value = { ReplyData };

    ghost view = { λ r. record { strand = r.strand; item = r.item; seen = r.seen; op = r.op; old = r.old; way = r.way; line = r.line } };

    ghost invariant = { λ r. r.strand < 8 };

    ghost inverse = { λ d. record { strand = d.strand; item = d.item; seen = d.seen; op = d.op; old = d.old; way = d.way; line = d.line } };
}

/// What the crossbar posts to a core: the index of the access, the reply to the core that asked, and
/// the copies that this core drops.
#[derive(Drop)]
pub struct Packet {
    pub index: u32,
    pub reply: Option<Reply>,
    pub kills: Kills<8>,
}

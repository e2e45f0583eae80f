//! The packet of a served access to a core.
ghost use Rattle.std.specs.Prelude.{◌≡◌};
ghost use Rattle.t1_packet.specs.Packets.{reply_to, kills_to, packet_to};

use crate::kills::Kills;
use crate::packet::{Packet, Reply};
use crate::served::Served;

fn reply_to(served: &Served) -> Reply
    ensures { result ≡ reply_to served.now }
{
    let request = served.request;
    Reply {
        strand: request.strand,
        item: request.item,
        seen: request.seen,
        op: request.op,
        old: served.old,
        way: served.way,
        line: served.line,
    }
}

/// The first kills of a core, as many as a packet has room for.
fn kills_to(core: u8, served: &Served) -> Kills<8>
    ensures { result ≡ kills_to core served.now.kills }
{
    let mut kills = Kills::new();
    for kill in served.kills.as_slice() {
        if kill.core == core && kills.len() < 8 {
            kills.push(*kill);
        }
    }
    kills
}

/// The packet that a core gets of an access with this index: the first eight kills of the core, and
/// the reply where the core asked. None exactly where the core neither asked nor is in a kill.
pub fn packet_for(core: u8, index: u32, served: &Served) -> Option<Packet>
    ensures { result ≡ packet_to core index served.now }
{
    let kills = kills_to(core, served);
    if served.request.core == core {
        return Some(Packet {
            index,
            reply: Some(reply_to(served)),
            kills,
        });
    }
    if kills.len() == 0 {
        return None;
    }
    Some(Packet {
        index,
        reply: None,
        kills,
    })
}

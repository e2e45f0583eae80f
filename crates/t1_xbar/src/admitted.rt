//! What became of an access.

use crate::posts::Posts;
use t1_packet::{Kills, Packet};

/// A packet for a core.
#[derive(Drop)]
pub struct Post {
    pub core: u8,
    pub packet: Packet,
}

/// An empty packet for core 0, which fills the unused room of a list.
impl Default for Post {
    fn default() -> Post {
        Post {
            core: 0,
            packet: Packet {
                index: 0,
                reply: None,
                kills: Kills::new(),
            },
        }
    }
}

/// What became of an access that a destination served.
#[derive(Drop)]
pub enum Admitted {
    /// It is in the log under this index, and these packets are to be posted.
    Done { index: u32, posts: Posts },
    /// It was sent at a time that the log, of this length, has not come to.
    NotSeen { seen: u32, len: u32 },
    /// This core gets a packet and has no room for it.
    NoRoom(u8),
}

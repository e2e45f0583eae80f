//! What the rings of the machine have room for, and what goes into them.
ghost use Rattle.std.specs.Prelude.{ℕ, ◌≡◌, ◌+◌, ◌-◌, ◌*◌, ◌<◌, ◌≤◌, ◌++◌, ◌∷◌, [], true, length, get_or, IfSome};
ghost use Rattle.t1_core.specs.Steps.{has_room};
ghost use Rattle.t1_core.specs.Told.{HasRing};
ghost use Rattle.t1_machine.specs.Machine.{most_requests, most_served, most_replies, ring_of, room_bit, rooms_from, request_rooms, request_pushed, requests_after, core_after, asker_from, reply_rooms, posts_pushed};
ghost use Rattle.t1_machine.specs.Pushes.{CanPush};
ghost use Rattle.t1_machine.specs.Wakes.{woken_by};
ghost use Rattle.std.specs.Int.{bit_at};

use crate::ring::Ring;
use crate::woken::Woken;
use t1_core::Did;
use t1_packet::{Packet, Request, Served};
use t1_xbar::Posts;

/// A ring of requests, from one core to one destination.
pub(crate) type Requests = Ring<Request, 2>;

/// A ring of served accesses, from a destination to the crossbar.
pub(crate) type Accesses = Ring<Served, 2>;

/// A ring of packets, from the crossbar to a core.
pub(crate) type Packets = Ring<Packet, 16>;

/// The most destinations of a chip: eight banks and the I/O bridge.
pub(crate) const DESTINATIONS: usize = 9;

/// 1 where a ring has room for a request, else 0.
fn request_bit(requests: &[Requests], place: usize) -> u16
    requires { place < length requests.now }
    ensures value { result ≡ room_bit most_requests (get_or requests.now place []) }
    ensures bit { result ≤ 1 }
{
    if requests[place].has_room() { 1 } else { 0 }
}

/// Bits of four rings, from a place on.
fn four_bits(requests: &[Requests], place: usize) -> u16
    requires { place + 4 ≤ length requests.now }
    ensures value { result ≡ room_bit most_requests (get_or requests.now place []) + 2 * (room_bit most_requests (get_or requests.now (place + 1) []) + 2 * (room_bit most_requests (get_or requests.now (place + 2) []) + 2 * room_bit most_requests (get_or requests.now (place + 3) []))) }
    ensures few { result ≤ 15 }
{
    request_bit(requests, place)
        + 2 * (request_bit(requests, place + 1)
            + 2 * (request_bit(requests, place + 2) + 2 * request_bit(requests, place + 3)))
}

/// A bit for each destination to which a core's request ring has room.
#[tactic(auto, unfolding(crate::specs::Machine::request_rooms))]
pub(crate) fn request_rooms(requests: &[Requests], core: usize) -> u16
    requires { 9 * core + 9 ≤ length requests.now }
    ensures { result ≡ request_rooms requests.now core }
{
    let first = DESTINATIONS * core;
    four_bits(requests, first)
        + 16 * (four_bits(requests, first + 4) + 16 * request_bit(requests, first + 8))
}

/// Puts a request into the ring of a core to a destination.
pub(crate) fn push_request(requests: &mut Vec<Requests>, core: usize, dest: u8, request: Request)
    requires within { 9 * core + 9 ≤ length requests.old.items }
    requires dest { dest < 9 }
    requires room { has_room (request_rooms requests.old.items core) dest ≡ true }
    ensures value { requests.new.items ≡ request_pushed requests.old.items core dest request }
    ensures len { length requests.new.items ≡ length requests.old.items }
{
    let ring = &mut requests[DESTINATIONS * core + dest as usize];
    ring.push(request);
}

/// Puts what a core sent, if anything, into its ring; what that wakes.
pub(crate) fn push_sent(requests: &mut Vec<Requests>, core: u8, did: Did) -> Woken
    requires within { 9 * core + 9 ≤ length requests.old.items }
    requires ring { HasRing (request_rooms requests.old.items core) did }
    ensures value { requests.new.items ≡ requests_after requests.old.items core did }
    ensures len { length requests.new.items ≡ length requests.old.items }
    ensures woken { result ≡ woken_by core did }
{
    match did {
        Did::Sent { dest, request } => {
            push_request(requests, core as usize, dest, request);
            Woken::Sent { core, dest }
        }
        Did::Moved => Woken::Core(core),
        Did::Waits(_) => Woken::Core(core),
    }
}

/// The core after one, cyclically.
pub(crate) fn core_after(cores: u8, core: u8) -> u8
    requires { core < cores }
    ensures value { result ≡ core_after cores core }
    ensures within { result < cores }
{
    if core + 1 == cores { 0 } else { core + 1 }
}

/// The first core, cyclically from one on, that asks a destination.
#[tactic(auto, unfolding(crate::specs::Machine::asker_from))]
pub(crate) fn asker_from(requests: &[Requests], cores: u8, dest: usize, from: u8) -> Option<u8>
    requires dest { dest < 9 }
    requires from { from < cores }
    requires rings { length requests.now ≡ 9 * cores }
    ensures asker { result ≡ asker_from requests.now cores dest from cores }
    ensures within { IfSome result (λ core. core < cores) }
{
    let mut core = from;
    for _ in 0..cores {
        if !requests[DESTINATIONS * core as usize + dest].is_empty() {
            return Some(core);
        }
        core = core_after(cores, core);
    }
    None
}

/// 1 where a ring has room for a packet, else 0.
fn reply_bit(ring: &Packets) -> u16
    ensures value { result ≡ room_bit most_replies ring.now }
    ensures bit { result ≤ 1 }
{
    if ring.has_room() { 1 } else { 0 }
}

/// A bit for each core whose reply ring has room.
#[tactic(auto, using(crate::proofs::Bits::pow_small))]
pub(crate) fn reply_rooms(replies: &[Packets]) -> u8
    requires { length replies.now ≤ 8 }
    ensures { result ≡ reply_rooms replies.now }
{
    let mut word = 0u16;
    let mut bit = 1u16;
    for ring in replies {
        word += bit * reply_bit(ring);
        bit *= 2;
    }
    word as u8
}

/// Puts each packet into the ring of its core; a bit for each of these cores.
#[tactic(auto, unfolding(crate::specs::Machine::posts_pushed))]
pub(crate) fn push_posts(replies: &mut Vec<Packets>, posts: Posts) -> u8
    requires rings { length replies.old.items ≤ 8 }
    requires fit { CanPush 0 posts replies.old.items }
    ensures pushed { replies.new.items ≡ posts_pushed posts replies.old.items }
    ensures len { length replies.new.items ≡ length replies.old.items }
    ensures others { (core : ℕ) → bit_at result core ≡ 0 → get_or replies.new.items core [] ≡ get_or replies.old.items core [] }
{
    let mut posts = posts;
    let mut cores = 0u8;
    while let Some(post) = posts.pop() {
        cores |= 1 << post.core;
        let ring = &mut replies[post.core as usize];
        ring.push(post.packet);
    }
    cores
}

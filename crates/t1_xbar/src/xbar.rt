//! The crossbar.
ghost use Rattle.std.specs.Prelude.{ℕ, ◌≡◌, ◌+◌, ◌-◌, ◌*◌, ◌/◌, ◌%◌, ◌^◌, ◌<◌, ◌≤◌, ◌++◌, ◌∷◌, [], length, IfOk, Some, None, OnOk, OnErr, Ok, Err};
ghost use Rattle.t1_xbar.specs.Admission.{XbarState, posts_from, full_from, admission, admitted_unless, has_room, posts_or_full, is_done, StaysUnlessDone};

use crate::admitted::{Admitted, Post};
use crate::posts::Posts;
use crate::record::commit_of;
use std::alloc::{AllocError, Global};
use std::marker::Model;
use t1_event::{Commit, Config};
use t1_packet::{Served, packet_for};

/// The crossbar: the log, with room for so many records, and the cores that get packets.
#[derive(Drop)]
pub struct Xbar {
    log: Vec<Commit>,
    room: usize,
    cores: u8,
    strands: u8,
}

impl Model for Xbar {
    ghost use Rattle.std.specs.Prelude.{◌≤◌, ◌<◌, ◌^◌, vec_capacity, length};
    ghost use Rattle.t1_xbar.specs.Admission.{XbarState};

    ghost Value = { XbarState };

    ghost view = { λ x. record { log = x.log.items; room = x.room; cores = x.cores; strands = x.strands } };

    ghost invariant = { λ x. (x.room ≤ vec_capacity x.log) × (length x.log.items < 2 ^ 32) × (x.cores ≤ 8) × (x.strands ≤ 8) };
}

/// The packets of an access with this index, or the first core that gets one and has no room.
#[tactic(auto, using(crate::proofs::Cores::posts_more, crate::proofs::Cores::full_more, crate::proofs::Cores::posts_other, crate::proofs::Cores::full_other, crate::proofs::Cores::full_here), unfolding(crate::specs::Admission::posts_from, crate::specs::Admission::full_from))]
fn posts_of(index: u32, served: &Served, cores: u8, rooms: u8) -> Result<Posts, u8>
    requires { cores ≤ 8 }
    ensures { result ≡ posts_or_full rooms index served.now cores }
{
    let mut posts = Posts::new();
    for core in 0..cores {
        let Some(packet) = packet_for(core, index, served) else {
            continue;
        };
        if (rooms >> core) % 2 == 0 {
            return Err(core);
        }
        posts.push(Post { core, packet });
    }
    Ok(posts)
}

impl Xbar {
    /// A crossbar with an empty log that has room for so many records.
    pub fn new(alloc: Global, config: &Config, room: usize) -> Result<Xbar, AllocError>
        requires { (config.now.cores ≤ 8) × (config.now.strands ≤ 8) }
        ensures { IfOk result (λ x. x ≡ record { log = []; room = room; cores = config.now.cores; strands = config.now.strands }) }
    {
        Ok(Xbar {
            log: Vec::with_capacity(alloc, room)?,
            room,
            cores: config.cores,
            strands: config.strands,
        })
    }

    /// Makes room for one record more than there are, where there is none. For want of memory nothing
    /// changes.
    pub fn reserve(&mut self) -> Result<(), AllocError>
        ensures ok { OnOk result ((self.new ≡ record self.old { room = self.new.room }) × (length self.new.log < self.new.room) × (self.old.room ≤ self.new.room)) }
        ensures err { OnErr result (self.new ≡ self.old) }
    {
        let len = self.log.len();
        if len < self.room {
            return Ok(());
        }
        self.log.reserve(1)?;
        self.room = len + 1;
        Ok(())
    }

    /// The records in the log.
    pub fn len(&self) -> u32
        ensures { result ≡ length self.now.log }
    {
        let _room = self.room;
        self.log.len() as u32
    }

    /// The log.
    pub fn into_log(self) -> Vec<Commit>
        ensures { result.items ≡ self.log }
    {
        let Xbar { log, .. } = self;
        log
    }

    /// Admits the access that a destination served, where it was sent at a time that the log has come
    /// to, and each core that gets a packet has its bit in `rooms`. Takes no memory.
    #[tactic(auto, unfolding(crate::specs::Admission::admission))]
    pub fn admit(&mut self, dest: u8, served: &Served, rooms: u8) -> Admitted
        requires spare { (length self.old.log < self.old.room) × (length self.old.log < 4294967295) }
        ensures xbar { self.new ≡ (admission self.old dest served.now rooms).xbar }
        ensures answer { result ≡ (admission self.old dest served.now rooms).answer }
        ensures stays { StaysUnlessDone self.old self.new result }
    {
        let index = self.len();
        let seen = served.request.seen;
        if index < seen {
            return Admitted::NotSeen { seen, len: index };
        }
        match posts_of(index, served, self.cores, rooms) {
            Err(core) => Admitted::NoRoom(core),
            Ok(posts) => {
                self.log
                    .push_reserved(commit_of(self.strands, dest, served));
                Admitted::Done { index, posts }
            }
        }
    }

    /// Whether `admit` would admit the access.
    #[tactic(auto, unfolding(crate::specs::Admission::admission))]
    pub fn would_admit(&self, dest: u8, served: &Served, rooms: u8) -> bool
        ensures { result ≡ is_done (admission self.now dest served.now rooms).answer }
    {
        let index = self.len();
        if index < served.request.seen {
            return false;
        }
        match posts_of(index, served, self.cores, rooms) {
            Err(_) => false,
            Ok(_) => true,
        }
    }
}

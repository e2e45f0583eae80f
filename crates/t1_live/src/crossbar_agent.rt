//! The agent of the crossbar.
ghost use Rattle.std.specs.Prelude.{◌≡◌, ◌+◌, ◌<◌, ◌≤◌, [], length, true, IfOk};
ghost use Rattle.t1_shape.specs.Numbers.{destinations};
ghost use Rattle.t1_machine.specs.Machine.{posts_pushed};
ghost use Rattle.t1_machine.specs.Start.{IsRunnable, setup_of};
ghost use Rattle.t1_ring.specs.Row.{sent_by, rooms_of, tx_marks, received_by, rx_marks, AreUnused};
ghost use Rattle.t1_live.specs.Posts.{CanPost};
ghost use Rattle.t1_live.specs.Sides.{crossbar_id, is_over};
ghost use Rattle.t1_live.specs.Starts.{AdmittedNothing};

use crate::numbers::{crossbar_of, destinations_of};
use std::alloc::{AllocError, Global};
use std::marker::Model;
use std::snapshot::Snapshot;
use std::sync::Wait;
use t1_crew::{Agent, Flags, Turned};
use t1_elf::Image;
use t1_event::{Commit, Config};
use t1_packet::{Packet, Served};
use t1_ring::row::{pop_at, rooms, send_at};
use t1_ring::{Rx, Tx};
use t1_xbar::{Admitted, Posts, Xbar};

/// The crossbar, with the receiving ends of what was served, one from each destination, what it holds
/// of each, and the sending ends of its packets, one to each core.
#[derive(Drop)]
pub struct CrossbarAgent {
    config: Config,
    image: Snapshot<Image>,
    xbar: Xbar,
    held: Vec<Option<Served>>,
    pub(crate) served: Vec<Rx<Served>>,
    pub(crate) packets: Vec<Tx<Packet>>,
}

impl Model for CrossbarAgent {
    ghost use Rattle.t1_machine.specs.Start.{setup_of};
    ghost use Rattle.t1_ring.specs.Row.{sent_by, tx_marks, received_by, rx_marks};
    ghost use Rattle.t1_live.specs.Rules.{IsCrossbarSide};
    ghost use Rattle.t1_live.specs.Sides.{CrossbarSide};

    ghost Value = { CrossbarSide };

    ghost view = { λ a. record {
      setup = setup_of a.config a.image.value;
      xbar = a.xbar;
      held = a.held.items;
      received = received_by a.served.items;
      posted = sent_by a.packets.items;
      to = tx_marks a.packets.items;
      from = rx_marks a.served.items;
    } };

    ghost invariant = { λ a. IsCrossbarSide (setup_of a.config a.image.value) a.xbar a.held.items (received_by a.served.items) (sent_by a.packets.items) };
}

/// Posts each packet to its core, whose end knows of a free slot.
fn post_all(ends: &mut Vec<Tx<Packet>>, posts: Posts)
    requires { CanPost 0 posts (rooms_of ends.old.items) }
    ensures marks { tx_marks ends.new.items ≡ tx_marks ends.old.items }
    ensures sent { sent_by ends.new.items ≡ posts_pushed posts (sent_by ends.old.items) }
{
    let mut posts = posts;
    while let Some(post) = posts.pop() {
        send_at(ends, post.core as usize, post.packet);
    }
}

impl CrossbarAgent {
    /// The crossbar at its start, with room for the log of the whole run. Its ends are unused.
    pub(crate) fn new(
        alloc: Global,
        config: &Config,
        image: &Image,
        served: Vec<Rx<Served>>,
        packets: Vec<Tx<Packet>>,
    ) -> Result<CrossbarAgent, AllocError>
        requires runs { IsRunnable (setup_of config.now image.now) }
        requires from { length served.items ≡ destinations config.now.chip }
        requires to { length packets.items ≡ config.now.cores }
        requires unused { AreUnused (received_by served.items) × AreUnused (sent_by packets.items) }
        ensures none { IfOk result (λ a. AdmittedNothing a) }
        ensures id { IfOk result (λ a. crossbar_id a ≡ record { setup = setup_of config.now image.now; number = 8 + destinations config.now.chip; to = tx_marks packets.items; from = rx_marks served.items }) }
    {
        let most = config.cores as usize * (config.strands as usize * (2 * config.budget as usize));
        let xbar = Xbar::new(alloc, config, most)?;
        let count = t1_shape::destinations(config.chip);
        let mut held = Vec::with_capacity(alloc, count as usize)?;
        for _ in 0..count {
            held.push_reserved(None);
        }
        Ok(CrossbarAgent {
            config: *config,
            image: Snapshot::of(image),
            xbar,
            held,
            served,
            packets,
        })
    }

    /// Takes the next access that a destination served, where none is held of it: whether it did.
    fn fetch(&mut self, dest: u8) -> bool
        requires { dest < destinations self.old.setup.config.chip }
        ensures { crossbar_id self.new ≡ crossbar_id self.old }
    {
        if self.held[dest as usize].is_some() {
            return false;
        }
        match pop_at(&mut self.served, dest as usize) {
            Some(served) => {
                self.held[dest as usize] = Some(served);
                true
            }
            None => false,
        }
    }

    /// Admits the access that is held of a destination, if it can: whether it did.
    fn admit(&mut self, dest: u8) -> Result<bool, AllocError>
        requires { dest < destinations self.old.setup.config.chip }
        ensures { crossbar_id self.new ≡ crossbar_id self.old }
    {
        let Some(served) = &self.held[dest as usize] else {
            return Ok(false);
        };
        if self.xbar.len() == u32::MAX {
            return Ok(false);
        }
        self.xbar.reserve()?;
        let rooms = rooms(&mut self.packets);
        match self.xbar.admit(dest, served, rooms) {
            Admitted::Done { posts, .. } => {
                post_all(&mut self.packets, posts);
                self.held[dest as usize] = None;
                Ok(true)
            }
            Admitted::NotSeen { .. } => Ok(false),
            Admitted::NoRoom(_) => Ok(false),
        }
    }

    fn holds(&self, dest: u8) -> bool
        requires { dest < destinations self.now.setup.config.chip }
    {
        self.held[dest as usize].is_some()
    }

    /// The records in the log.
    pub(crate) fn commits(&self) -> usize
        ensures { result ≡ length self.now.xbar.log }
    {
        self.xbar.len() as usize
    }

    /// The log.
    pub(crate) fn into_log(self) -> Vec<Commit>
        ensures { result.items ≡ self.xbar.log }
    {
        let CrossbarAgent { xbar, .. } = self;
        xbar.into_log()
    }
}

impl Agent for CrossbarAgent {
    ghost use Rattle.t1_live.specs.Sides.{crossbar_id, is_over};

    ghost id = { crossbar_id };

    ghost over = { is_over };

    fn number(&self) -> u8 {
        crossbar_of(self.config.chip)
    }

    /// Tries to admit an access of each destination. The crossbar ends where all destinations had ended
    /// before it took nothing and holds nothing. For want of memory it gives the run up.
    fn turn<R: Wait>(&mut self, _rt: &R, flags: &Flags) -> Turned
        ensures same { crossbar_id self.new ≡ crossbar_id self.old }
        ensures over { result ≡ Turned.Ended → is_over self.new ≡ true }
    {
        let chip = self.config.chip;
        let ended = flags.have_ended(destinations_of(chip));
        let mut worked = false;
        let mut holds = false;
        for dest in 0..t1_shape::destinations(chip) {
            if self.fetch(dest) {
                worked = true;
            }
            match self.admit(dest) {
                Ok(true) => worked = true,
                Ok(false) => {}
                Err(_) => flags.give_up(),
            }
            if self.holds(dest) {
                holds = true;
            }
        }
        if ended && !worked && !holds {
            flags.say_ended(crossbar_of(chip));
            return Turned::Ended;
        }
        if worked { Turned::Worked } else { Turned::Idle }
    }
}

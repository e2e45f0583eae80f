//! The agent of a core.
ghost use Rattle.std.specs.Prelude.{◌≡◌, ◌<◌, ◌∷◌, [], length, IfOk, true};
ghost use Rattle.t1_shape.specs.Numbers.{destinations};
ghost use Rattle.t1_core.specs.Ends.{traces_of};
ghost use Rattle.t1_core_rule.specs.Histories.{Take};
ghost use Rattle.t1_core_rule.specs.Laws.{IsWholeCall};
ghost use Rattle.t1_machine.specs.Start.{IsRunnable, setup_of};
ghost use Rattle.t1_ring.specs.Row.{sent_by, rooms_of, tx_marks, AreUnused};
ghost use Rattle.t1_live.specs.Lanes.{AreOf};
ghost use Rattle.t1_live.specs.Rules.{sent_after, HasSlot, AreOfSender};
ghost use Rattle.t1_live.specs.Sides.{core_id, is_core_over};
ghost use Rattle.t1_live.specs.Starts.{CoreStarts};

use crate::lane::{Lane, retry_all, rooms, send_at};
use crate::numbers::crossbars_of;
use std::alloc::{AllocError, Global};
use std::marker::Model;
use std::snapshot::Snapshot;
use std::sync::Wait;
use t1_core::{Core, Did, Drained};
use t1_crew::{Agent, Flags, Turned};
use t1_elf::Image;
use t1_event::Config;
use t1_packet::Packet;
use t1_ring::Rx;

/// A core, with its lanes, one to each destination, and the receiving end of its packets.
#[derive(Drop)]
pub struct CoreAgent {
    config: Config,
    image: Snapshot<Image>,
    number: u8,
    core: Core,
    pub(crate) lanes: Vec<Lane>,
    pub(crate) packets: Rx<Packet>,
}

impl Model for CoreAgent {
    ghost use Rattle.std.specs.Prelude.{[], ◌∷◌};
    ghost use Rattle.t1_machine.specs.Start.{setup_of};
    ghost use Rattle.t1_ring.specs.Row.{sent_by, tx_marks};
    ghost use Rattle.t1_live.specs.Lanes.{AreOf};
    ghost use Rattle.t1_live.specs.Rules.{IsCoreSide};
    ghost use Rattle.t1_live.specs.Sides.{CoreSide};

    ghost Value = { CoreSide };

    ghost view = { λ a. record {
      setup = setup_of a.config a.image.value;
      number = a.number;
      core = a.core;
      sent = sent_by a.lanes.items;
      received = a.packets.received;
      to = tx_marks a.lanes.items;
      from = a.packets.mark ∷ [];
    } };

    ghost invariant = { λ a. IsCoreSide (setup_of a.config a.image.value) a.number a.core (sent_by a.lanes.items) a.packets.received × AreOf a.number (tx_marks a.lanes.items) };
}

/// The line of a reply has at most 32 bytes, as its type says.
fn is_whole(packet: &Packet)
    ensures { IsWholeCall (Take packet.now) }
{
    if let Some(reply) = &packet.reply {
        let _line = reply.line;
    }
}

/// Sends what a strand asked for, if anything, by a lane by which nothing is kept.
fn send<R: Wait>(rt: &R, lanes: &mut Vec<Lane>, did: Did)
    requires ring { HasSlot (rooms_of lanes.old.items) did }
    requires core { AreOfSender did (tx_marks lanes.old.items) }
    ensures marks { tx_marks lanes.new.items ≡ tx_marks lanes.old.items }
    ensures sent { sent_by lanes.new.items ≡ sent_after (sent_by lanes.old.items) did }
{
    match did {
        Did::Sent { dest, request } => send_at(rt, lanes, dest as usize, request),
        Did::Moved => {}
        Did::Waits(_) => {}
    }
}

impl CoreAgent {
    /// A core at its start, with all the memory of its run. Its ends are unused.
    pub(crate) fn new(
        alloc: Global,
        config: &Config,
        image: &Image,
        number: u8,
        lanes: Vec<Lane>,
        packets: Rx<Packet>,
    ) -> Result<CoreAgent, AllocError>
        requires runs { IsRunnable (setup_of config.now image.now) }
        requires number { number < config.now.cores }
        requires lanes { length lanes.items ≡ destinations config.now.chip }
        requires unused { AreUnused (sent_by lanes.items) }
        requires seats { AreOf number (tx_marks lanes.items) }
        requires none { packets.received ≡ [] }
        ensures id { IfOk result (λ a. core_id a ≡ record { setup = setup_of config.now image.now; number = number; to = tx_marks lanes.items; from = packets.mark ∷ [] }) }
        ensures starts { IfOk result (λ a. CoreStarts a) }
    {
        let core = Core::new(alloc, config, number, image.entry)?;
        Ok(CoreAgent {
            config: *config,
            image: Snapshot::of(image),
            number,
            core,
            lanes,
            packets,
        })
    }

    /// Pushes the requests that are kept, as far as there is room: whether it pushed one.
    fn retry<R: Wait>(&mut self, rt: &R) -> bool
        ensures { core_id self.new ≡ core_id self.old }
    {
        retry_all(rt, &mut self.lanes)
    }

    /// Takes one packet, if one is known: whether it did.
    fn take(&mut self) -> bool
        ensures { core_id self.new ≡ core_id self.old }
    {
        let Some(packet) = self.packets.pop() else {
            return false;
        };
        is_whole(&packet);
        self.core.take(&packet);
        true
    }

    /// Sends the oldest store of a strand that is not sent, if it can: whether it did.
    fn drain<R: Wait>(&mut self, rt: &R, strand: u8) -> bool
        ensures { core_id self.new ≡ core_id self.old }
    {
        let room = rooms(&self.lanes);
        match self.core.drain(strand, room) {
            Drained::Sent { dest, request } => {
                send_at(rt, &mut self.lanes, dest as usize, request);
                true
            }
            Drained::Empty => false,
            Drained::Out => false,
            Drained::NoRoom(_) => false,
        }
    }

    /// The least recently picked of the ready strands executes, if there is one: whether it did.
    fn exec<R: Wait>(&mut self, rt: &R) -> bool
        ensures { core_id self.new ≡ core_id self.old }
    {
        let room = rooms(&self.lanes);
        let Some(did) = self.core.turn(room) else {
            return false;
        };
        send(rt, &mut self.lanes, did);
        true
    }

    /// The core.
    pub(crate) fn into_core(self) -> Core
        ensures { result ≡ self.core }
    {
        let CoreAgent { core, .. } = self;
        core
    }
}

impl Agent for CoreAgent {
    ghost use Rattle.t1_live.specs.Sides.{core_id, is_core_over};

    ghost id = { core_id };

    ghost over = { is_core_over };

    fn number(&self) -> u8 {
        self.number
    }

    /// Pushes what is kept, takes a packet, tries to drain each strand, and executes once. A core whose
    /// strands have ended, with empty buffers, says that it is done, and ends once the crossbar has
    /// ended.
    fn turn<R: Wait>(&mut self, rt: &R, flags: &Flags) -> Turned
        ensures same { core_id self.new ≡ core_id self.old }
        ensures over { result ≡ Turned.Ended → is_core_over self.new ≡ true }
    {
        let mut worked = self.retry(rt);
        if self.take() {
            worked = true;
        }
        for strand in 0..self.config.strands {
            if self.drain(rt, strand) {
                worked = true;
            }
        }
        if self.exec(rt) {
            worked = true;
        }
        if self.core.finished() {
            flags.say_done(self.number);
            if flags.have_ended(crossbars_of(self.config.chip)) {
                return Turned::Ended;
            }
        }
        if worked { Turned::Worked } else { Turned::Idle }
    }
}

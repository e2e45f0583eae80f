//! The machine: its parts, and what each slot does to them.
ghost use Rattle.std.specs.Prelude.{◌≡◌, ◌<◌, ◌≤◌, ◌*◌, ◌+◌, ◌∷◌, [], length, get_or, set, slice_get, drop, is_some, IfSome, IfNone, IfOk, Some, None, true, false};
ghost use Rattle.t1_shape.specs.Numbers.{banks as banks_of};
ghost use Rattle.t1_joint.specs.Fit.{serves, destination_with};
ghost use Rattle.t1_machine.specs.Machine.{MachineState, HasSpare, bank_of, with_core, requests_after, exec_in, drain_in, take_in, serve_if, admit_from, stepped, or_same, is_enabled};
ghost use Rattle.t1_machine.specs.Slots.{IsSlot};
ghost use Rattle.t1_machine.specs.Wakes.{Wakes};
ghost use Rattle.t1_machine.specs.Start.{IsRunnable, setup_of, machine_start};
ghost use Rattle.t1_machine.specs.declared.slot.Slot.TheVariants as slot;

use crate::rooms::{
    Accesses, DESTINATIONS, Packets, Requests, asker_from, core_after, push_posts, push_request,
    push_sent, reply_rooms, request_rooms,
};
use crate::slot::Slot;
use crate::start::{banks, cores, rings};
use crate::woken::Woken;
use std::alloc::{AllocError, Global};
use std::marker::Model;
use t1_bank::Bank;
use t1_core::{Core, Drained};
use t1_elf::Image;
use t1_event::{Commit, Config};
use t1_iob::serve_io;
use t1_num::ChipKind;
use t1_packet::{Request, Served};
use t1_xbar::{Admitted, Xbar};

/// The cores, the destinations and the crossbar, with the rings between them.
#[derive(Drop)]
pub struct Machine {
    chip: ChipKind,
    pub(crate) cores: Vec<Core>,
    pub(crate) requests: Vec<Requests>,
    pub(crate) served: Vec<Accesses>,
    pub(crate) replies: Vec<Packets>,
    pub(crate) banks: Vec<Bank>,
    pub(crate) tried: Vec<u8>,
    pub(crate) xbar: Xbar,
}

impl Model for Machine {
    ghost use Rattle.std.specs.Prelude.{ℕ, ◌≡◌, ◌<◌, length, get_or};
    ghost use Rattle.t1_machine.specs.Machine.{MachineState, IsShaped};

    ghost Value = { MachineState };

    ghost view = { λ m. record {
      chip = m.chip;
      cores = m.cores.items;
      requests = m.requests.items;
      served = m.served.items;
      replies = m.replies.items;
      banks = m.banks.items;
      tried = m.tried.items;
      xbar = m.xbar;
    } };

    ghost invariant = { λ m. IsShaped m.chip (length m.cores.items) (length m.requests.items) (length m.served.items) (length m.replies.items) (length m.banks.items) (length m.tried.items)
        × (m.xbar.cores ≡ length m.cores.items)
        × ((d : ℕ) → get_or m.tried.items d 0 < length m.cores.items) };
}

/// A destination serves a request: a bank, or the I/O bridge, which is the last.
fn serve_at(chip: ChipKind, banks: &mut Vec<Bank>, dest: usize, request: Request) -> Served
    requires banks { length banks.old.items ≡ banks_of chip }
    ensures served { result ≡ serves chip dest (bank_of banks.old.items dest) request }
    ensures after { banks.new.items ≡ set banks.old.items dest (destination_with chip dest (bank_of banks.old.items dest) request) }
{
    if dest >= banks.len() {
        return serve_io(request);
    }
    let bank = &mut banks[dest];
    bank.serve(request)
}

impl Machine {
    /// The machine at its start, with all the memory of its run.
    #[tactic(auto, unfolding(crate::specs::Start::machine_start))]
    pub fn new(alloc: Global, config: &Config, image: &Image) -> Result<Machine, AllocError>
        requires { IsRunnable (setup_of config.now image.now) }
        ensures { IfOk result (λ m. m ≡ machine_start (setup_of config.now image.now)) }
    {
        let count = config.cores as usize;
        let units = config.strands as usize * (2 * config.budget as usize);
        Ok(Machine {
            chip: config.chip,
            cores: cores(alloc, config, image)?,
            requests: rings(alloc, DESTINATIONS * count)?,
            served: rings(alloc, DESTINATIONS)?,
            replies: rings(alloc, count)?,
            banks: banks(alloc, config, image)?,
            tried: Vec::from_elem(alloc, 0, DESTINATIONS)?,
            xbar: Xbar::new(alloc, config, count * units)?,
        })
    }

    /// A core's turn, where its strand needs no ring: what it woke; else none, and nothing changes.
    fn quick(&mut self, number: u8) -> Option<Woken>
        ensures state { IfSome result (λ woken. stepped self.old (slot.Exec number) ≡ Some self.new) }
        ensures stays { IfNone result (self.new ≡ self.old) }
        ensures woken { IfSome result (λ woken. Wakes self.old self.new woken) }
    {
        if number as usize >= self.cores.len() {
            return None;
        }
        let core = &mut self.cores[number as usize];
        if !core.quick_turn() {
            return None;
        }
        if core.holds_stores() {
            return Some(Woken::Core(number));
        }
        Some(Woken::Nothing)
    }

    /// The least recently picked of a core's ready strands executes.
    fn exec(&mut self, number: u8) -> Option<Woken>
        ensures state { self.new ≡ or_same self.old (stepped self.old (slot.Exec number)) }
        ensures done { is_some result ≡ is_enabled self.old (slot.Exec number) }
        ensures woken { IfSome result (λ woken. Wakes self.old self.new woken) }
    {
        match self.quick(number) {
            Some(woken) => Some(woken),
            None => self.exec_any(number),
        }
    }

    /// The least recently picked of a core's ready strands executes, with the room of its rings.
    #[inline(never)]
    #[tactic(auto, using(crate::proofs::Steps::core_none))]
    fn exec_any(&mut self, number: u8) -> Option<Woken>
        ensures state { self.new ≡ or_same self.old (stepped self.old (slot.Exec number)) }
        ensures done { is_some result ≡ is_enabled self.old (slot.Exec number) }
        ensures woken { IfSome result (λ woken. Wakes self.old self.new woken) }
    {
        if number as usize >= self.cores.len() {
            return None;
        }
        let core = &mut self.cores[number as usize];
        let room = request_rooms(&self.requests, number as usize);
        let Some(did) = core.turn(room) else {
            return None;
        };
        let woken = push_sent(&mut self.requests, number, did);
        Some(woken)
    }

    /// The store buffer of a strand sends its oldest store.
    #[inline(never)]
    #[tactic(auto, using(crate::proofs::Steps::core_none))]
    fn drain(&mut self, number: u8, strand: u8) -> Option<Woken>
        ensures state { self.new ≡ or_same self.old (stepped self.old (slot.Drain number strand)) }
        ensures done { is_some result ≡ is_enabled self.old (slot.Drain number strand) }
        ensures woken { IfSome result (λ woken. Wakes self.old self.new woken) }
    {
        if number as usize >= self.cores.len() {
            return None;
        }
        let core = &mut self.cores[number as usize];
        let room = request_rooms(&self.requests, number as usize);
        match core.drain(strand, room) {
            Drained::Sent { dest, request } => {
                push_request(&mut self.requests, number as usize, dest, request);
                Some(Woken::Sent { core: number, dest })
            }
            Drained::Empty => None,
            Drained::Out => None,
            Drained::NoRoom(_) => None,
        }
    }

    /// A core takes its oldest packet.
    #[inline(never)]
    #[tactic(auto, using(crate::proofs::Steps::core_none, crate::proofs::Steps::core_here))]
    fn take(&mut self, number: u8) -> Option<Woken>
        ensures state { self.new ≡ or_same self.old (stepped self.old (slot.Take number)) }
        ensures done { is_some result ≡ is_enabled self.old (slot.Take number) }
        ensures woken { IfSome result (λ woken. Wakes self.old self.new woken) }
    {
        if number as usize >= self.cores.len() {
            return None;
        }
        let core = &mut self.cores[number as usize];
        let ring = &mut self.replies[number as usize];
        let Some(packet) = ring.pop() else {
            return None;
        };
        core.take(&packet);
        Some(Woken::Took(number))
    }

    /// A destination serves the oldest request of the first core that asks.
    #[inline(never)]
    fn serve(&mut self, number: u8) -> Option<Woken>
        requires { number < 9 }
        ensures state { self.new ≡ or_same self.old (stepped self.old (slot.Serve number)) }
        ensures done { is_some result ≡ is_enabled self.old (slot.Serve number) }
        ensures woken { IfSome result (λ woken. Wakes self.old self.new woken) }
    {
        let dest = number as usize;
        let ring = &self.served[dest];
        if !ring.has_room() {
            return None;
        }
        let cores = self.cores.len() as u8;
        let Some(asker) = asker_from(&self.requests, cores, dest, self.tried[dest]) else {
            return None;
        };
        let ring = &mut self.requests[DESTINATIONS * asker as usize + dest];
        let Some(request) = ring.pop() else {
            return None;
        };
        let served = serve_at(self.chip, &mut self.banks, dest, request);
        let ring = &mut self.served[dest];
        ring.push(served);
        self.tried[dest] = core_after(cores, asker);
        Some(Woken::Served {
            core: asker,
            dest: number,
        })
    }

    /// The crossbar admits the oldest access that a destination served.
    #[inline(never)]
    fn admit(&mut self, number: u8) -> Option<Woken>
        requires dest { number < 9 }
        requires spare { HasSpare self.old }
        ensures state { self.new ≡ or_same self.old (stepped self.old (slot.Admit number)) }
        ensures done { is_some result ≡ is_enabled self.old (slot.Admit number) }
        ensures woken { IfSome result (λ woken. Wakes self.old self.new woken) }
    {
        let dest = number as usize;
        let rooms = reply_rooms(&self.replies);
        let ring = &self.served[dest];
        let Some(served) = ring.front() else {
            return None;
        };
        match self.xbar.admit(number, served, rooms) {
            Admitted::Done { posts, .. } => {
                let ring = &mut self.served[dest];
                ring.pop();
                let cores = push_posts(&mut self.replies, posts);
                Some(Woken::Admitted {
                    dest: number,
                    cores,
                })
            }
            Admitted::NotSeen { .. } => None,
            Admitted::NoRoom(_) => None,
        }
    }

    /// Does a slot: what it woke, or none where it was not enabled. One that is not enabled changes
    /// nothing.
    pub fn step(&mut self, slot: Slot) -> Option<Woken>
        requires slot { IsSlot self.old.chip slot }
        requires spare { HasSpare self.old }
        ensures state { self.new ≡ or_same self.old (stepped self.old slot) }
        ensures done { is_some result ≡ is_enabled self.old slot }
        ensures woken { IfSome result (λ woken. Wakes self.old self.new woken) }
    {
        match slot {
            Slot::Exec(core) => self.exec(core),
            Slot::Drain { core, strand } => self.drain(core, strand),
            Slot::Take(core) => self.take(core),
            Slot::Serve(dest) => self.serve(dest),
            Slot::Admit(dest) => self.admit(dest),
        }
    }

    /// The chip.
    pub fn chip(&self) -> ChipKind
        ensures { result ≡ self.now.chip }
    {
        self.chip
    }

    /// Its cores and its log.
    pub fn into_parts(self) -> (Vec<Core>, Vec<Commit>)
        ensures cores { result.0.items ≡ self.cores }
        ensures log { result.1.items ≡ self.xbar.log }
    {
        let Machine { cores, xbar, .. } = self;
        (cores, xbar.into_log())
    }
}

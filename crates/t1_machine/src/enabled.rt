//! What each slot of the machine would do.
ghost use Rattle.std.specs.Prelude.{◌≡◌, ◌+◌, ◌*◌, ◌<◌, ◌∷◌, [], length, get_or, drop, slice_get, is_some, Some, None, true, false};
ghost use Rattle.t1_machine.specs.Machine.{exec_in, drain_in, take_in, serve_if, admit_from, is_enabled};
ghost use Rattle.t1_machine.specs.Slots.{IsSlot};
ghost use Rattle.t1_machine.specs.Waits.{wait_at};
ghost use Rattle.t1_machine.specs.declared.slot.Slot.TheVariants as slot;

use crate::machine::Machine;
use crate::rooms::{DESTINATIONS, asker_from, reply_rooms, request_rooms};
use crate::slot::Slot;
use t1_core::Wait;

impl Machine {
    #[tactic(auto, using(crate::proofs::Steps::core_none))]
    fn would_exec(&self, number: u8) -> bool
        ensures { result ≡ is_enabled self.now (slot.Exec number) }
    {
        if number as usize >= self.cores.len() {
            return false;
        }
        let room = request_rooms(&self.requests, number as usize);
        let core = &self.cores[number as usize];
        core.would_act(room)
    }

    #[tactic(auto, using(crate::proofs::Steps::core_none))]
    fn would_drain(&self, number: u8, strand: u8) -> bool
        ensures { result ≡ is_enabled self.now (slot.Drain number strand) }
    {
        if number as usize >= self.cores.len() {
            return false;
        }
        let room = request_rooms(&self.requests, number as usize);
        let core = &self.cores[number as usize];
        core.would_drain(strand, room)
    }

    #[tactic(auto, using(crate::proofs::Steps::core_none))]
    fn would_take(&self, number: u8) -> bool
        ensures { result ≡ is_enabled self.now (slot.Take number) }
    {
        if number as usize >= self.cores.len() {
            return false;
        }
        let ring = &self.replies[number as usize];
        !ring.is_empty()
    }

    fn would_serve(&self, number: u8) -> bool
        requires { number < 9 }
        ensures { result ≡ is_enabled self.now (slot.Serve number) }
    {
        let dest = number as usize;
        let ring = &self.served[dest];
        if !ring.has_room() {
            return false;
        }
        let cores = self.cores.len() as u8;
        let Some(asker) = asker_from(&self.requests, cores, dest, self.tried[dest]) else {
            return false;
        };
        let ring = &self.requests[DESTINATIONS * asker as usize + dest];
        !ring.is_empty()
    }

    fn would_admit(&self, number: u8) -> bool
        requires { number < 9 }
        ensures { result ≡ is_enabled self.now (slot.Admit number) }
    {
        let rooms = reply_rooms(&self.replies);
        let ring = &self.served[number as usize];
        let Some(served) = ring.front() else {
            return false;
        };
        self.xbar.would_admit(number, served, rooms)
    }

    /// Whether a slot is enabled.
    pub fn enabled(&self, slot: Slot) -> bool
        requires { IsSlot self.now.chip slot }
        ensures { result ≡ is_enabled self.now slot }
    {
        match slot {
            Slot::Exec(core) => self.would_exec(core),
            Slot::Drain { core, strand } => self.would_drain(core, strand),
            Slot::Take(core) => self.would_take(core),
            Slot::Serve(dest) => self.would_serve(dest),
            Slot::Admit(dest) => self.would_admit(dest),
        }
    }

    /// Why a strand would wait; none exactly where it would not. A strand that the machine does not
    /// have waits as an ended one.
    #[tactic(auto, using(crate::proofs::Steps::core_none))]
    pub fn wait_of(&self, number: u8, strand: u8) -> Option<Wait>
        ensures { result ≡ wait_at self.now number strand }
    {
        if number as usize >= self.cores.len() {
            return Some(Wait::Ended);
        }
        let room = request_rooms(&self.requests, number as usize);
        let core = &self.cores[number as usize];
        core.wait_of(strand, room)
    }
}

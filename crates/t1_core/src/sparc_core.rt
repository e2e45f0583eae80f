//! The core: its parts and its calls.
ghost use Rattle.std.specs.Prelude.{ℕ, ◌≡◌, ◌+◌, ◌-◌, ◌*◌, ◌%◌, ◌^◌, ◌<◌, ◌≤◌, ◌∷◌, ◌++◌, [], length, slice_get, slice_index, is_some, is_none, Some, None, true, false, IfOk, IfSome, IfNone};
ghost use Rattle.t1_exec.specs.Needs.{IsRam};
ghost use Rattle.t1_packet.specs.Data.{KillData};
ghost use Rattle.t1_event.specs.declared.report.Config.{Config as ConfigData};
ghost use Rattle.t1_select.specs.Queue.{moved_last, first_ready};
ghost use Rattle.t1_core.specs.Steps.{CoreState, asker, exec_of, wait_of, drain_of};
ghost use Rattle.t1_core.specs.Takes.{emptied_in, killed_by, killed, answered, take_of};
ghost use Rattle.t1_core.specs.Turns.{is_ready, ready_bit, ready_bits, ready_word, next_place, with_turns, turn_of};
ghost use Rattle.t1_core.specs.Room.{IsCoreConfig};
ghost use Rattle.t1_core.specs.Start.{threads_from, new_core};
ghost use Rattle.t1_core.specs.Told.{HasRing, HasDrainRing, WaitsStill, DrainsStill, ActedAt};
ghost use Rattle.t1_core.specs.Ends.{finished_of, traces_of};
ghost use Rattle.t1_core.specs.declared.answers.Did.TheVariants as did;
ghost use Rattle.t1_core.specs.Next.{SendsForWay};
ghost use Rattle.t1_core.specs.Quick.{IsQuick, QuickStill, TurnMovedTo, are_stores_held, HoldNoStore, is_drain};

use crate::answers::{Did, Drained, Wait};
use crate::asker::Asker;
use crate::insn_cache::InsnCache;
use crate::next::wait;
use crate::quick::{Quick, quick_exec};
use crate::replies::{answer, empty_way};
use crate::steps::{drain, drain_answer, exec};
use crate::thread::Thread;
use std::alloc::{AllocError, Global};
use std::marker::Model;
use t1_event::{Config, Trace};
use t1_l1::L1;
use t1_num::ChipKind;
use t1_packet::{Cache, Kill, Packet, Reply};
use t1_select::Select;
use t1_state::Strand;

/// A core of the chip, seen as its whole state. Only `new` takes memory.
///
/// In each word `room` bit d says that the request ring to destination d has room.
#[derive(Drop)]
pub struct Core {
    chip: ChipKind,
    number: u8,
    threads: Vec<Thread>,
    dcache: L1<4, 16>,
    icache: InsnCache,
    time: u32,
    ram: u64,
    select: Select,
    traces: Vec<Trace>,
}

impl Model for Core {
    ghost use Rattle.std.specs.Prelude.{vec_capacity};
    ghost use Rattle.t1_core.specs.Steps.{CoreState};
    ghost use Rattle.t1_core.specs.Room.{AreParts};

    ghost Value = { CoreState };

    ghost view = { λ c. record {
      chip = c.chip;
      number = c.number;
      threads = c.threads.items;
      dcache = c.dcache;
      icache = c.icache;
      time = c.time;
      ram = c.ram;
      turns = c.select;
    } };

    ghost invariant = { λ c. AreParts c.number c.threads.items c.ram c.select c.traces.items (vec_capacity c.traces) };
}

/// Which place of the queue acted, and what its strand did.
#[derive(Clone, Copy)]
struct Acted {
    place: usize,
    did: Did,
}

/// The strands of a core in their start states, numbered from a number on.
#[tactic(auto, using(crate::proofs::Begins::one_thread_more), unfolding(crate::specs::Start::threads_from))]
fn first_threads(
    alloc: Global,
    config: &Config,
    number: u8,
    entry: u64,
) -> Result<Vec<Thread>, AllocError>
    requires config { IsCoreConfig config.now }
    requires number { number + config.now.strands ≤ 64 }
    ensures threads { IfOk result (λ ts. ts.items ≡ threads_from config.now entry number config.now.strands) }
    ensures few { IfOk result (λ ts. length ts.items ≡ config.now.strands) }
{
    let mut threads = Vec::with_capacity(alloc, config.strands as usize)?;
    for i in 0..config.strands {
        let strand = Strand::start(
            number + i,
            config.cores * config.strands,
            entry,
            config.hyper,
        );
        threads.push(Thread::new(alloc, strand, config.budget)?)?;
    }
    Ok(threads)
}

impl Core {
    /// A core at its start, with all the memory of its run.
    #[tactic(auto, unfolding(crate::specs::Start::new_core))]
    pub fn new(alloc: Global, config: &Config, core: u8, entry: u64) -> Result<Core, AllocError>
        requires config { IsCoreConfig config.now }
        requires core { core < config.now.cores }
        requires entry { entry % 4 ≡ 0 }
        ensures { IfOk result (λ c. c ≡ new_core config.now core entry) }
    {
        let threads = first_threads(alloc, config, core * config.strands, entry)?;
        Ok(Core {
            chip: config.chip,
            number: core,
            threads,
            dcache: L1::new(alloc, 128)?,
            icache: InsnCache::new(alloc, config.chip)?,
            time: 0,
            ram: config.ram,
            select: Select::new(config.strands),
            traces: Vec::with_capacity(alloc, config.strands as usize)?,
        })
    }

    /// One more than the index of the packet that it took last, 0 before the first.
    pub fn time(&self) -> u32
        ensures { result ≡ self.now.time }
    {
        self.time
    }

    fn asker(&self, strand: u8, room: u16) -> Asker
        ensures value { result ≡ asker self.now strand room }
        ensures core { result.number < 8 }
        ensures ram { IsRam result.ram }
    {
        Asker {
            chip: self.chip,
            number: self.number,
            strand,
            room,
            time: self.time,
            ram: self.ram,
        }
    }

    /// A strand executes: one step of it. A strand that the core does not have waits as an ended one.
    /// What waits changes nothing.
    pub fn exec(&mut self, strand: u8, room: u16) -> Did
        ensures core { self.new ≡ (exec_of self.old strand room).core }
        ensures did { result ≡ (exec_of self.old strand room).did }
        ensures ring { HasRing room result }
        ensures still { WaitsStill self.old self.new result }
        ensures way { SendsForWay self.old.icache.layout.ways result }
    {
        self.exec_strand(strand, room)
    }

    #[tactic(auto, unfolding(crate::specs::Steps::exec_of))]
    fn exec_strand(&mut self, strand: u8, room: u16) -> Did
        ensures core { self.new ≡ (exec_of self.old strand room).core }
        ensures did { result ≡ (exec_of self.old strand room).did }
        ensures way { SendsForWay self.old.icache.layout.ways result }
    {
        let asker = self.asker(strand, room);
        let Some(thread) = self.threads.get_mut(strand as usize) else {
            return Did::Waits(Wait::Ended);
        };
        exec(asker, &self.icache, &self.dcache, thread)
    }

    /// Why a strand would wait; none exactly where it would not.
    #[tactic(auto, unfolding(crate::specs::Steps::exec_of))]
    pub fn wait_of(&self, strand: u8, room: u16) -> Option<Wait>
        ensures { result ≡ wait_of self.now strand room }
    {
        let asker = self.asker(strand, room);
        match self.threads.get(strand as usize) {
            None => Some(Wait::Ended),
            Some(thread) => wait(asker, &self.icache, &self.dcache, thread),
        }
    }

    /// Sends the oldest unsent store of a strand, where each that is sent goes to its destination and the
    /// ring has room: Empty exactly where the buffer is empty, else Out exactly where every store is
    /// sent or one that is sent goes to another destination, else NoRoom exactly where the ring is
    /// full. What is not sent changes nothing.
    pub fn drain(&mut self, strand: u8, room: u16) -> Drained
        ensures core { self.new ≡ (drain_of self.old strand room).core }
        ensures did { result ≡ (drain_of self.old strand room).did }
        ensures ring { HasDrainRing room result }
        ensures still { DrainsStill self.old self.new result }
    {
        self.drain_strand(strand, room)
    }

    #[tactic(auto, unfolding(crate::specs::Steps::drain_of))]
    fn drain_strand(&mut self, strand: u8, room: u16) -> Drained
        ensures core { self.new ≡ (drain_of self.old strand room).core }
        ensures did { result ≡ (drain_of self.old strand room).did }
    {
        let asker = self.asker(strand, room);
        let Some(thread) = self.threads.get_mut(strand as usize) else {
            return Drained::Empty;
        };
        drain(asker, thread)
    }

    /// What a drain of a strand would answer.
    #[tactic(auto, unfolding(crate::specs::Steps::drain_of))]
    pub fn drain_of(&self, strand: u8, room: u16) -> Drained
        ensures { result ≡ (drain_of self.now strand room).did }
    {
        let asker = self.asker(strand, room);
        match self.threads.get(strand as usize) {
            None => Drained::Empty,
            Some(thread) => drain_answer(asker, thread),
        }
    }

    /// Whether a drain of a strand would send a store.
    pub fn would_drain(&self, strand: u8, room: u16) -> bool
        ensures { result ≡ is_drain (drain_of self.now strand room).did }
    {
        match self.drain_of(strand, room) {
            Drained::Sent { .. } => true,
            Drained::Empty => false,
            Drained::Out => false,
            Drained::NoRoom(_) => false,
        }
    }

    /// Whether some strand holds a store.
    pub fn holds_stores(&self) -> bool
        ensures value { result ≡ are_stores_held self.now.threads }
        ensures none { result ≡ false → HoldNoStore self.now.threads }
    {
        for thread in &self.threads {
            if thread.holds_store() {
                return true;
            }
        }
        false
    }

    /// A strand executes, where no ring has to have room for it.
    #[tactic(auto, using(crate::proofs::Quiet::set_back), unfolding(crate::specs::Steps::exec_of))]
    fn quick_strand(&mut self, strand: u8) -> Quick
        ensures step { (room : ℕ) → let a = exec_of self.old strand room in IsQuick self.new a.core a.did result }
        ensures still { QuickStill self.old self.new result }
    {
        let asker = self.asker(strand, 0);
        let Some(thread) = self.threads.get_mut(strand as usize) else {
            return Quick::Waits;
        };
        quick_exec(asker, &self.icache, &self.dcache, thread)
    }

    /// The first strand of the queue that does not wait executes, where no ring has to have room for
    /// it; its place in the queue.
    fn quick_first(&mut self) -> Option<usize>
        ensures some { (room : ℕ) → IfSome result (λ p. ActedAt self.old room p did.Moved self.new) }
        ensures none { IfNone result (self.new ≡ self.old) }
    {
        let count = self.select.len();
        for place in 0..count {
            let strand = self.select.at(place);
            match self.quick_strand(strand) {
                Quick::Moved => return Some(place),
                Quick::Waits => {}
                Quick::Asks => return None,
            }
        }
        None
    }

    /// The strand at a place of the queue goes to its end.
    #[tactic(auto, using(crate::proofs::Turning::parts_moved))]
    fn move_last(&mut self, place: usize)
        requires { place < length self.old.turns }
        ensures { self.new ≡ with_turns self.old (moved_last self.old.turns place) }
    {
        self.select.move_last(place);
    }

    /// A turn in which no ring has to have room. If it is done, a turn with any rings would do the
    /// same, and nothing is sent; else nothing changes.
    pub fn quick_turn(&mut self) -> bool
        ensures moved { (room : ℕ) → result ≡ true → TurnMovedTo self.new (turn_of self.old room) }
        ensures still { result ≡ false → self.new ≡ self.old }
    {
        let Some(place) = self.quick_first() else {
            return false;
        };
        self.move_last(place);
        true
    }

    /// Whether a turn would find a strand that does not wait.
    pub fn would_act(&self, room: u16) -> bool
        ensures { result ≡ is_some (turn_of self.now room).did }
    {
        let count = self.select.len();
        for place in 0..count {
            let strand = self.select.at(place);
            match self.wait_of(strand, room) {
                None => return true,
                Some(_) => {}
            }
        }
        false
    }

    /// The first strand of the queue that does not wait executes; its place in the queue.
    #[tactic(auto, using(crate::proofs::Quiet::exec_quiet, t1_select::proofs::Places::first_ready_is, t1_select::proofs::Places::first_ready_none))]
    fn act_first(&mut self, room: u16) -> Option<Acted>
        ensures some { IfSome result (λ a. ActedAt self.old room a.place a.did self.new) }
        ensures way { IfSome result (λ a. SendsForWay self.old.icache.layout.ways a.did) }
        ensures none { IfNone result ((next_place self.old room ≡ None) × (self.new ≡ self.old)) }
    {
        let count = self.select.len();
        for place in 0..count {
            let strand = self.select.at(place);
            match self.exec(strand, room) {
                Did::Waits(_) => {}
                Did::Moved => {
                    let did = Did::Moved;
                    return Some(Acted { place, did });
                }
                Did::Sent { dest, request } => {
                    let did = Did::Sent { dest, request };
                    return Some(Acted { place, did });
                }
            }
        }
        None
    }

    /// The least recently picked of the strands that would not wait executes; none exactly where each
    /// would wait, and then nothing changes.
    pub fn turn(&mut self, room: u16) -> Option<Did>
        ensures core { self.new ≡ (turn_of self.old room).core }
        ensures did { result ≡ (turn_of self.old room).did }
        ensures ring { IfSome result (λ d. HasRing room d) }
        ensures still { IfNone result (self.new ≡ self.old) }
        ensures way { IfSome result (λ d. SendsForWay self.old.icache.layout.ways d) }
    {
        let acted = self.act_first(room)?;
        self.move_last(acted.place);
        Some(acted.did)
    }

    fn ready_bit(&self, strand: u8, room: u16) -> u8
        ensures value { result ≡ ready_bit self.now room strand }
        ensures bit { result ≤ 1 }
    {
        match self.wait_of(strand, room) {
            None => 1,
            Some(_) => 0,
        }
    }

    /// Four of them, from a strand on.
    fn ready_bits(&self, strand: u8, room: u16) -> u8
        requires { strand < 8 }
        ensures value { result ≡ ready_bits self.now room strand 4 }
        ensures few { result < 16 }
    {
        self.ready_bit(strand, room)
            + 2 * self.ready_bit(strand + 1, room)
            + 4 * self.ready_bit(strand + 2, room)
            + 8 * self.ready_bit(strand + 3, room)
    }

    /// The strands that would not wait, a bit for each.
    #[tactic(auto, unfolding(crate::specs::Turns::ready_word))]
    pub fn ready(&self, room: u16) -> u8
        ensures { result ≡ ready_word self.now room }
    {
        self.ready_bits(0, room) + 16 * self.ready_bits(4, room)
    }

    fn kill(&mut self, kill: Kill)
        ensures { self.new ≡ killed_by self.old kill }
    {
        if kill.core == self.number {
            match kill.cache {
                Cache::Dcache => empty_way(&mut self.dcache, kill.set, kill.way),
                Cache::Icache => self.icache.empty(kill.set, kill.way),
            }
        }
    }

    #[tactic(auto, unfolding(crate::specs::Takes::killed))]
    fn kill_all(&mut self, kills: &[Kill])
        ensures { self.new ≡ killed self.old kills.now }
    {
        for kill in kills {
            self.kill(*kill);
        }
    }

    fn answer(&mut self, index: u32, reply: &Reply)
        ensures { self.new ≡ answered self.old index (Some reply.now) }
    {
        let ram = self.ram;
        if let Some(thread) = self.threads.get_mut(reply.strand as usize) {
            answer(
                ram,
                index,
                reply,
                thread,
                &mut self.dcache,
                &mut self.icache,
            );
        }
    }

    /// Takes a packet, whatever packet comes: one that is old, or of index 4294967295, changes nothing.
    /// Of any other the kills empty their ways, then the reply is applied where it answers a request
    /// that is out, and then the time is one past the index. What does not fit is passed over.
    #[tactic(auto, unfolding(crate::specs::Takes::take_of))]
    pub fn take(&mut self, packet: &Packet)
        ensures { self.new ≡ take_of self.old packet.now }
    {
        if packet.index < self.time || packet.index == u32::MAX {
            return;
        }
        self.kill_all(packet.kills.as_slice());
        if let Some(reply) = &packet.reply {
            self.answer(packet.index, reply);
        }
        self.time = packet.index + 1;
    }

    /// Whether all strands have ended, with empty buffers.
    pub fn finished(&self) -> bool
        ensures { result ≡ finished_of self.now }
    {
        for thread in &self.threads {
            if !thread.is_over() {
                return false;
            }
        }
        true
    }

    /// The traces of its strands.
    pub fn into_traces(self) -> Vec<Trace>
        ensures { result.items ≡ traces_of self }
    {
        let Core {
            chip: _,
            number: _,
            threads,
            dcache: _,
            icache: _,
            time: _,
            ram: _,
            select: _,
            mut traces,
        } = self;
        for thread in threads {
            traces.push_reserved(thread.into_trace());
        }
        traces
    }
}

//! One strand of a core.
ghost use Rattle.std.specs.Prelude.{ℕ, ◌≡◌, ◌+◌, ◌*◌, ◌%◌, ◌^◌, ◌<◌, ◌≤◌, ◌∷◌, ◌++◌, [], length, slice_get, IfSome, IfOk, IsSome, Some, None, true, false};
ghost use Rattle.t1_num.specs.Memory.{IsSize};
ghost use Rattle.t1_state.specs.Registers.{IsStrand};
ghost use Rattle.t1_state.specs.Interrupts.{due_of};
ghost use Rattle.t1_exec.specs.Needs.{IsRam, IsPlaced};
ghost use Rattle.t1_exec.specs.Meanings.{after_of};
ghost use Rattle.t1_decode.specs.Words.{insn_of};
ghost use Rattle.t1_sbuf.specs.Entries.{next_to_send_of, sent_next, IsOldestSent, IsStore};
ghost use Rattle.t1_sbuf.specs.Looks.{look_of};
ghost use Rattle.t1_event.specs.Items.{fetch_item, load_item, store_item};
ghost use Rattle.t1_joint.specs.Replay.{is_fetchable};
ghost use Rattle.t1_core.specs.Threads.{ThreadState, word_of, thread_need, next_phase, unit_done, halted, trapped, word_came, load_came, value_came, stored, acknowledged, item_placed, placed, in_phase, store_sent};
ghost use Rattle.t1_core.specs.Steps.{plan_of, plan_look, if_empty, is_fence};
ghost use Rattle.t1_core.specs.Room.{owed, IsPlan, IsInsnOf};
ghost use Rattle.t1_core.specs.Ends.{is_over, trace_of};
ghost use Rattle.t1_core.specs.Start.{first_thread};
ghost use Rattle.t1_core.specs.Quick.{is_store_held};

use crate::answers::Wait;
use crate::items::{item, read_item};
use crate::phase::Phase;
use crate::plan::Plan;
use arrayvec::ArrayVec;
use std::alloc::{AllocError, Global};
use std::marker::Model;
use t1_decode::decode;
use t1_elf::Listed;
use t1_event::{Ending, How, Item, ItemKind, Trace, dest_of};
use t1_exec::{Need, finish, issue};
use t1_insn::Insn;
use t1_num::ChipKind;
use t1_sbuf::{Entry, Look, StoreBuffer};
use t1_state::{Entered, Strand};

/// A strand with its stores and its trace, seen as where it stands. Only `new` takes memory.
#[derive(Drop)]
pub struct Thread {
    strand: Strand,
    phase: Phase,
    stores: StoreBuffer,
    times: ArrayVec<u32, 8>,
    items: Vec<Item>,
    budget: u32,
}

impl Model for Thread {
    ghost use Rattle.std.specs.Prelude.{length, vec_capacity};
    ghost use Rattle.t1_state.specs.Registers.{IsStrand};
    ghost use Rattle.t1_core.specs.Threads.{ThreadState};
    ghost use Rattle.t1_core.specs.Stores.{AreSent};
    ghost use Rattle.t1_core.specs.Room.{HasRoom, owed};

    ghost Value = { ThreadState };

    ghost view = { λ t. record {
      strand = t.strand;
      phase = t.phase;
      stores = t.stores;
      times = t.times.items;
      items = t.items.items;
      budget = t.budget;
    } };

    ghost invariant = { λ t. IsStrand t.strand × HasRoom t.strand.units t.budget (owed t.phase) (length t.items.items) (vec_capacity t.items) × AreSent t.stores t.times.items };
}

fn next_phase(units: u32, budget: u32) -> Phase
    ensures { result ≡ next_phase units budget }
{
    if units == budget {
        Phase::Ended(Ending::Spent)
    } else {
        Phase::Fetch
    }
}

/// The instruction of a word applies to this value.
fn advance(strand: &mut Strand, insn: &Insn, word: u32, value: u64, ram: u64, budget: u32) -> Phase
    requires valid { IsStrand strand.old }
    requires insn { IsInsnOf insn.now word }
    requires units { strand.old.units + 1 < 2 ^ 32 }
    ensures state { strand.new ≡ after_of strand.old (insn_of word) value }
    ensures units { strand.new.units ≡ strand.old.units + 1 }
    ensures valid { IsStrand strand.new }
    ensures phase { result ≡ next_phase (after_of strand.old (insn_of word) value).units budget }
{
    finish(strand, insn, value, ram);
    next_phase(strand.units, budget)
}

impl Thread {
    /// A strand in its start state, with room for all items of its run.
    pub fn new(alloc: Global, strand: Strand, budget: u32) -> Result<Thread, AllocError>
        requires valid { IsStrand strand }
        requires units { strand.units ≡ 0 }
        requires budget { (1 ≤ budget) × (budget ≤ 1000000) }
        ensures { IfOk result (λ t. t ≡ first_thread strand budget) }
    {
        let items = Vec::with_capacity(alloc, 2 * budget as usize)?;
        Ok(Thread {
            strand,
            phase: Phase::Fetch,
            stores: StoreBuffer::new(),
            times: ArrayVec::new(),
            items,
            budget,
        })
    }

    #[inline]
    pub fn phase(&self) -> Phase
        ensures { result ≡ self.now.phase }
    {
        self.phase
    }

    #[inline]
    pub fn pc(&self) -> u64
        ensures value { result ≡ self.now.strand.pc }
        ensures fits { result < 2 ^ 64 }
    {
        self.strand.pc
    }

    /// The interrupt that is due.
    #[inline]
    pub fn due(&self) -> Option<u16>
        ensures value { result ≡ due_of self.now.strand }
        ensures number { IfSome result (λ n. n < 512) }
    {
        self.strand.due()
    }

    /// The oldest store.
    #[inline]
    #[tactic(auto, using(crate::proofs::Drains::oldest_store))]
    pub fn oldest(&self) -> Option<Entry>
        ensures value { result ≡ slice_get self.now.stores 0 }
        ensures store { IfSome result IsStore }
    {
        let _count = self.stores.len();
        match self.stores.oldest() {
            None => None,
            Some(entry) => Some(entry),
        }
    }

    /// The store that may be sent next.
    #[inline]
    pub fn next_to_send(&self) -> Option<Entry>
        ensures { result ≡ next_to_send_of self.now.stores }
    {
        self.stores.next_to_send()
    }

    /// The number of its next item.
    #[inline]
    pub fn count(&self) -> u32
        ensures { result ≡ length self.now.items }
    {
        self.items.len() as u32
    }

    /// The word of the unit that is under way.
    #[inline]
    pub fn word(&self) -> u32
        ensures { result ≡ word_of self.now.phase }
    {
        match self.phase {
            Phase::Have(word) => word,
            Phase::OutData { word, .. } => word,
            _ => 0,
        }
    }

    /// What the instruction of its unit needs.
    #[inline]
    #[tactic(auto, unfolding(crate::specs::Threads::thread_need))]
    pub fn need(&self, insn: &Insn, ram: u64) -> Need
        requires insn { IsInsnOf insn.now (word_of self.now.phase) }
        requires ram { IsRam ram }
        ensures value { result ≡ thread_need ram self.now }
        ensures placed { IsPlaced ram result }
    {
        issue(&self.strand, insn, ram)
    }

    /// What a need comes to.
    pub fn plan(&self, need: Need, ram: u64) -> Plan
        requires { IsPlaced ram need }
        ensures plan { result ≡ plan_of self.now.stores need }
        ensures fine { IsPlan result (length self.now.stores) }
    {
        match need {
            Need::Plain => Plan::Act,
            Need::Halt => Plan::Halt,
            Need::Trap(number) => Plan::Trap(number),
            Need::Membar(mask) => {
                if mask & 0x62 != 0 {
                    self.if_empty(Plan::Membar(mask))
                } else {
                    Plan::Membar(mask)
                }
            }
            Need::Flush => self.if_empty(Plan::Flush),
            Need::Store { addr, size, value } => {
                if self.stores.len() < 8 {
                    Plan::Store { addr, size, value }
                } else {
                    Plan::Waits(Wait::Full)
                }
            }
            Need::Load { addr, size } => {
                if addr >> 39 == 1 {
                    self.if_empty(Plan::Send { addr })
                } else {
                    self.plan_load(addr, size)
                }
            }
            Need::Atomic { addr, .. } => self.if_empty(Plan::Send { addr }),
        }
    }

    fn plan_load(&self, addr: u64, size: u8) -> Plan
        requires size { IsSize size }
        requires aligned { addr % size ≡ 0 }
        ensures plan { result ≡ plan_look addr size (look_of self.now.stores addr size) }
        ensures fine { IsPlan result (length self.now.stores) }
    {
        match self.stores.look(addr, size) {
            Look::Clear => Plan::Look { addr, size },
            Look::Covers(value) => Plan::Forward { addr, size, value },
            Look::Overlaps(place) => Plan::Waits(Wait::Overlap(place)),
        }
    }

    fn if_empty(&self, plan: Plan) -> Plan
        requires { (held : ℕ) → IsPlan plan held }
        ensures plan { result ≡ if_empty self.now.stores plan }
        ensures fine { IsPlan result (length self.now.stores) }
    {
        match self.stores.oldest() {
            None => plan,
            Some(_) => Plan::Waits(Wait::NotEmpty),
        }
    }

    // ---- what happens to it

    /// The unit ends, with no item of its own.
    #[tactic(auto, unfolding(crate::specs::Threads::unit_done))]
    pub fn act(&mut self, insn: &Insn, ram: u64)
        requires unit { owed self.old.phase ≡ 1 }
        requires insn { IsInsnOf insn.now (word_of self.old.phase) }
        ensures { self.new ≡ unit_done self.old 0 [] }
    {
        let word = self.word();
        self.phase = advance(&mut self.strand, insn, word, 0, ram, self.budget);
    }

    /// The unit ends the strand.
    #[tactic(auto, unfolding(crate::specs::Threads::halted))]
    pub fn halt(&mut self, insn: &Insn, ram: u64)
        requires unit { owed self.old.phase ≡ 1 }
        requires insn { IsInsnOf insn.now (word_of self.old.phase) }
        ensures { self.new ≡ halted self.old }
    {
        let word = self.word();
        advance(&mut self.strand, insn, word, 0, ram, self.budget);
        self.phase = Phase::Ended(Ending::Halted);
    }

    /// The unit ends with this value and item.
    #[tactic(auto, unfolding(crate::specs::Threads::unit_done))]
    pub fn note(&mut self, insn: &Insn, value: u64, item: Item, ram: u64)
        requires unit { owed self.old.phase ≡ 1 }
        requires insn { IsInsnOf insn.now (word_of self.old.phase) }
        ensures { self.new ≡ unit_done self.old value (item ∷ []) }
    {
        let word = self.word();
        self.phase = advance(&mut self.strand, insn, word, value, ram, self.budget);
        self.items.push_reserved(item);
    }

    /// A trap comes.
    #[tactic(auto, unfolding(crate::specs::Threads::trapped))]
    pub fn trap(&mut self, number: u16)
        requires unit { 1 ≤ owed self.old.phase }
        requires number { number < 512 }
        ensures { self.new ≡ trapped self.old number }
    {
        self.phase = match self.strand.enter_trap(number) {
            Entered::Taken => next_phase(self.strand.units, self.budget),
            Entered::Fault(number) => Phase::Ended(Ending::Fault(number)),
        };
    }

    /// The word that it fetched comes.
    #[tactic(auto, unfolding(crate::specs::Threads::word_came))]
    pub fn word_came(&mut self, word: u32, how: How)
        requires { owed self.old.phase ≡ 2 }
        ensures { self.new ≡ word_came self.old word how }
    {
        let item = item(ItemKind::Fetch, self.strand.pc, 4, word as u64, 0, how);
        self.items.push_reserved(item);
        self.phase = Phase::Have(word);
    }

    /// The value of a load comes, which its buffer or its cache holds.
    #[tactic(auto, unfolding(crate::specs::Threads::load_came))]
    pub fn load_came(&mut self, insn: &Insn, addr: u64, size: u8, value: u64, how: How, ram: u64)
        requires unit { owed self.old.phase ≡ 1 }
        requires insn { IsInsnOf insn.now (word_of self.old.phase) }
        ensures { self.new ≡ load_came self.old addr size value how }
    {
        let item = item(ItemKind::Load, addr, size, value, 0, how);
        self.note(insn, value, item, ram);
    }

    /// The value of a load or an atomic comes, which it asked for.
    #[tactic(auto, unfolding(crate::specs::Threads::value_came))]
    pub fn value_came(&mut self, insn: &Insn, value: u64, how: How, ram: u64)
        requires unit { owed self.old.phase ≡ 1 }
        requires insn { IsInsnOf insn.now (word_of self.old.phase) }
        requires ram { IsRam ram }
        ensures { self.new ≡ value_came ram self.old value how }
    {
        let item = read_item(self.need(insn, ram), value, how);
        self.note(insn, value, item, ram);
    }

    /// A store enters the buffer.
    #[tactic(auto, unfolding(crate::specs::Threads::stored, crate::specs::Threads::unit_done))]
    pub fn store(&mut self, chip: ChipKind, insn: &Insn, addr: u64, size: u8, value: u64, ram: u64)
        requires unit { owed self.old.phase ≡ 1 }
        requires insn { IsInsnOf insn.now (word_of self.old.phase) }
        requires room { length self.old.stores < 8 }
        requires size { IsSize size }
        requires aligned { addr % size ≡ 0 }
        requires fits { value < 2 ^ (8 * size) }
        ensures { self.new ≡ stored chip self.old addr size value }
    {
        let entry = Entry {
            item: self.count(),
            addr,
            size,
            value,
            sent: false,
            dest: dest_of(chip, addr),
        };
        self.stores.push(entry);
        let item = item(ItemKind::Store, addr, size, 0, value, How::Unplaced);
        self.note(insn, 0, item, ram);
    }

    /// A request of it goes out.
    pub fn ask(&mut self, phase: Phase)
        requires { owed phase ≡ owed self.old.phase }
        ensures { self.new ≡ in_phase self.old phase }
    {
        self.phase = phase;
    }

    /// Its next store goes out at this time.
    pub fn send(&mut self, time: u32)
        requires { IsSome (next_to_send_of self.old.stores) }
        ensures { self.new ≡ store_sent self.old time }
    {
        self.stores.sent();
        self.times.push(time);
    }

    /// Its oldest store has its place, and leaves.
    #[tactic(auto, unfolding(crate::specs::Threads::acknowledged))]
    pub fn acknowledge(&mut self, how: How)
        requires { IsOldestSent self.old.stores }
        ensures { IfSome (slice_get self.old.stores 0) (λ e. self.new ≡ acknowledged self.old e how) }
    {
        let entry = self.stores.ack();
        self.times.remove(0);
        let place = entry.item as usize;
        if place < self.items.len() {
            self.items[place].how = how;
        }
    }

    /// Whether it holds a store.
    pub fn holds_store(&self) -> bool
        ensures { result ≡ is_store_held self.now.stores }
    {
        !self.stores.is_empty()
    }

    /// Whether it has ended, with an empty buffer.
    pub fn is_over(&self) -> bool
        ensures { result ≡ is_over self.now }
    {
        match self.phase {
            Phase::Ended(_) => self.stores.is_empty(),
            _ => false,
        }
    }

    /// Its trace.
    pub fn into_trace(self) -> Trace
        ensures { result ≡ trace_of self }
    {
        let Thread {
            strand,
            phase,
            stores: _,
            times: _,
            items,
            budget: _,
        } = self;
        let ending = match phase {
            Phase::Ended(ending) => Some(ending),
            _ => None,
        };
        Trace {
            items: Listed::from_vec(items),
            units: strand.units,
            pc: strand.pc,
            ending,
        }
    }
}

//! The chip.
ghost use Rattle.std.specs.Prelude.{ℕ, ◌≡◌, ◌+◌, ◌<◌, ◌≤◌, length, All, IfSome, IfOk, IsTrue, ◌↔◌, Some, None, true, false};
ghost use Rattle.t1_num.specs.MemoryLaws.{AreBytes};
ghost use Rattle.t1_machine.specs.declared.schedule.Schedule.TheVariants as schedule;
ghost use Rattle.t1_machine.specs.Slots.{slots, slot_at};
ghost use Rattle.t1_machine.specs.Machine.{after_slot, is_enabled};
ghost use Rattle.t1_machine.specs.Waits.{wait_at};
ghost use Rattle.t1_machine.specs.Runs.{enabled_from, next_number, tries, Turns, Seed};
ghost use Rattle.rand_xoshiro.specs.SplitMix64.{mix_u64};
ghost use Rattle.t1_machine.specs.Start.{IsRunnable, setup_of, machine_start};
ghost use Rattle.t1_bound.specs.Weights.{machine_weight, steps};
ghost use Rattle.t1_machine_rule.specs.Stands.{Stands};
ghost use Rattle.t1_machine_rule.specs.Ends.{NoneEnabled, Ends, Reports};
ghost use Rattle.t1_machine_rule.specs.Words.{AreWords};
ghost use Rattle.t1_chip.specs.Chips.{ChipState, is_done, after_found, wrapped, MovesTo, RunsToEnd, DidSlots, Reported};

use crate::report::{Room, are_words, put_console, put_traces, room_for};
use crate::slot_set::{ALL, clear_from, with_woken, without_slot};
use rand_core::SeedableRng;
use rand_core::utils::NextWord;
use rand_xoshiro::SplitMix64;
use std::alloc::{AllocError, Global};
use std::marker::Model;
use t1_core::Wait;
use t1_elf::{Image, Listed};
use t1_event::{Config, Report};
use t1_machine::{Machine, Schedule, slot_at, slots};
use t1_num::ChipKind;
use t1_order::order_of;

/// What came of a slot.
#[derive(Clone, Copy, Debug, PartialEq, Eq)]
pub enum Step {
    /// It was enabled, and is done.
    Done,
    /// It was not enabled, and nothing changed.
    Idle,
}

/// The chip: cores, caches, banks, crossbar and rings, with all the memory of a run and of its report.
///
/// It is seen as its configuration and image, and its machine. A list of slots leads to the machine
/// from its start; a slot outside the set `maybe` is not enabled.
#[derive(Drop)]
pub struct Chip {
    config: Config,
    image: Image,
    machine: Machine,
    maybe: u128,
    room: Room,
}

impl Model for Chip {
    ghost use Rattle.t1_machine.specs.Start.{setup_of};
    ghost use Rattle.t1_machine_rule.specs.Stands.{IsRunOf};
    ghost use Rattle.t1_chip.specs.Chips.{ChipState};
    ghost use Rattle.t1_chip.specs.Sets.{AreClear};
    ghost use Rattle.t1_chip.specs.Rooms.{IsRoomFor};
    ghost use Rattle.std.specs.Prelude.{vec_capacity};

    ghost Value = { ChipState };

    ghost view = { λ c. record { setup = setup_of c.config c.image; machine = c.machine } };

    ghost invariant = { λ c. IsRunOf (setup_of c.config c.image) c.machine × AreClear c.machine c.maybe
        × IsRoomFor c.config c.room.traces.items c.room.order.items c.room.console.items (vec_capacity c.room.traces) (vec_capacity c.room.order) (vec_capacity c.room.console) };
}

/// The number after one, cyclically.
fn next_number(chip: ChipKind, number: u8) -> u8
    requires { number < slots chip }
    ensures value { result ≡ next_number chip number }
    ensures within { result < slots chip }
{
    if number + 1 == slots(chip) {
        0
    } else {
        number + 1
    }
}

/// The first number in place of the one past the last.
fn wrapped(chip: ChipKind, number: u8) -> u8
    requires { number ≤ slots chip }
    ensures value { result ≡ wrapped chip number }
    ensures within { result < slots chip }
{
    if number == slots(chip) { 0 } else { number }
}

/// What is stored in bytes is below 256.
fn are_bytes(image: &[u8])
    ensures { AreBytes image.now }
{
    let _ = image;
}

impl Chip {
    /// The chip at its start, with all the memory of its run.
    #[tactic(auto, using(crate::proofs::Reached::reached_start, crate::proofs::Sets::all_clear))]
    pub fn build(alloc: Global, config: &Config, image: Image) -> Result<Chip, AllocError>
        requires { IsRunnable (setup_of config.now image) }
        ensures { IfOk result (λ c. c ≡ record { setup = setup_of config.now image; machine = machine_start (setup_of config.now image) }) }
    {
        are_bytes(image.ram.as_slice());
        let machine = Machine::new(alloc, config, &image)?;
        let room = room_for(alloc, config)?;
        Ok(Chip {
            config: *config,
            image,
            machine,
            maybe: ALL,
            room,
        })
    }

    /// Does a slot, where it is enabled: whether it was.
    fn attempt(&mut self, number: u8) -> bool
        requires { number < slots self.old.machine.chip }
        ensures state { self.new ≡ record self.old { machine = after_slot self.old.machine (slot_at self.old.machine.chip number) } }
        ensures done { result ≡ is_enabled self.old.machine (slot_at self.old.machine.chip number) }
        ensures chip { self.new.machine.chip ≡ self.old.machine.chip }
        ensures falls { result ≡ true → machine_weight steps self.new.machine < machine_weight steps self.old.machine }
    {
        let chip = self.machine.chip();
        match self.machine.step(slot_at(chip, number)) {
            None => {
                self.maybe = without_slot(self.maybe, number);
                false
            }
            Some(woken) => {
                self.maybe = with_woken(chip, self.maybe, woken);
                true
            }
        }
    }

    /// Does the slot of a number: Idle exactly where it is not enabled, and then nothing changes. Whatever
    /// slots were done, the chip stands as [`Chip::stands`] says.
    pub fn step(&mut self, number: u8) -> Step
        requires { number < slots self.old.machine.chip }
        ensures state { self.new ≡ record self.old { machine = after_slot self.old.machine (slot_at self.old.machine.chip number) } }
        ensures done { is_done result ≡ is_enabled self.old.machine (slot_at self.old.machine.chip number) }
        ensures chip { self.new.machine.chip ≡ self.old.machine.chip }
        ensures stands { Stands self.new.setup self.new.machine }
    {
        let is_done = self.attempt(number);
        self.stands();
        if is_done { Step::Done } else { Step::Idle }
    }

    /// How many slots its chip has: they are numbered from 0 on.
    pub fn slots(&self) -> u8
        ensures { result ≡ slots self.now.machine.chip }
    {
        slots(self.machine.chip())
    }

    /// Whether a slot is enabled.
    pub fn enabled(&self, number: u8) -> bool
        requires { number < slots self.now.machine.chip }
        ensures { result ≡ is_enabled self.now.machine (slot_at self.now.machine.chip number) }
    {
        let chip = self.machine.chip();
        self.machine.enabled(slot_at(chip, number))
    }

    /// Why a strand of a core would wait now; none exactly where it would not.
    pub fn wait_of(&self, core: u8, strand: u8) -> Option<Wait>
        ensures { result ≡ wait_at self.now.machine core strand }
    {
        self.machine.wait_of(core, strand)
    }

    /// Whether no slot is enabled.
    pub fn finished(&self) -> bool
        ensures { IsTrue result ↔ NoneEnabled self.now.machine }
    {
        for number in 0..slots(self.machine.chip()) {
            if self.enabled(number) {
                return false;
            }
        }
        true
    }

    /// How many slots from one on, up to the last, are not in the set.
    fn clear_from(&self, number: u8) -> u8
        requires { number < slots self.now.machine.chip }
        ensures within { number + result ≤ slots self.now.machine.chip }
        ensures clear { (i : ℕ) → i < result → is_enabled self.now.machine (slot_at self.now.machine.chip (number + i)) ≡ false }
    {
        clear_from(self.maybe, number, slots(self.machine.chip()))
    }

    /// Does the first slot that is enabled, cyclically from one on: its number.
    fn next(&mut self, from: u8) -> Option<u8>
        requires { from < slots self.old.machine.chip }
        ensures found { result ≡ enabled_from self.old.machine from (slots self.old.machine.chip) }
        ensures state { self.new ≡ record self.old { machine = after_found self.old.machine result } }
        ensures within { IfSome result (λ number. number < slots self.new.machine.chip) }
        ensures chip { self.new.machine.chip ≡ self.old.machine.chip }
        ensures falls { IfSome result (λ number. machine_weight steps self.new.machine < machine_weight steps self.old.machine) }
    {
        let chip = self.machine.chip();
        let mut number = from;
        let mut left = slots(chip);
        while left > 0 {
            let clear = self.clear_from(number);
            if clear >= left {
                return None;
            }
            if clear > 0 {
                left -= clear;
                number = wrapped(chip, number + clear);
                continue;
            }
            if self.attempt(number) {
                return Some(number);
            }
            left -= 1;
            number = next_number(chip, number);
        }
        None
    }

    /// What holds after every list of slots: the parts fit, so that each core keeps its rule and each
    /// strand is its replay so far; the caches with the packets in flight are what the directories show;
    /// each request without a reply stands in one ring; and no access is served too early to be admitted.
    pub fn stands(&self)
        ensures { Stands self.now.setup self.now.machine }
    {
        let _maybe = self.maybe;
    }

    /// Where no slot is enabled, every strand has ended, every buffer and ring is empty, and the traces
    /// and the log are a joint history.
    pub fn ends(&self)
        requires { NoneEnabled self.now.machine }
        ensures { Ends self.now.setup self.now.machine }
    {
        let _maybe = self.maybe;
    }

    /// The report of a run in which no slot is enabled any more: the traces of all strands, core by core,
    /// and the log, which are a joint history, the memory order, which obeys total store order, and the
    /// bytes that reached the console. Its units and PCs are words of 32 and of 64 bits. Takes no memory.
    pub fn into_report(self) -> Report
        requires { NoneEnabled self.machine }
        ensures report { Reported self result }
        ensures history { Ends self.setup self.machine }
        ensures obeys { Reports self.setup self.machine result.order }
        ensures words { All AreWords result.traces }
    {
        self.ends();
        let Chip {
            config,
            image,
            machine,
            maybe: _,
            room,
        } = self;
        let Room {
            mut traces,
            mut order,
            mut console,
        } = room;
        let (cores, log) = machine.into_parts();
        put_traces(cores, &mut traces);
        are_words(traces.as_slice());
        order_of(&traces, &log, &mut order);
        put_console(&log, &mut console);
        Report {
            config,
            image,
            traces: Listed::from_vec(traces),
            log: Listed::from_vec(log),
            order: Listed::from_vec(order),
            console: Listed::from_vec(console),
        }
    }

    fn run_turns(&mut self)
        ensures machine { MovesTo self.old (Turns 0) self.new }
        ensures finished { NoneEnabled self.new.machine }
    {
        let chip = self.machine.chip();
        let mut from = 0;
        while let Some(number) = self.next(from) {
            from = next_number(chip, number);
        }
    }

    fn run_seed(&mut self, seed: u64)
        ensures machine { MovesTo self.old (Seed seed) self.new }
        ensures finished { NoneEnabled self.new.machine }
    {
        let chip = self.machine.chip();
        let mut words = SplitMix64::from_seed(seed.to_le_bytes());
        while let Some(_) = self.next(first_tried(chip, &mut words)) {}
    }

    /// Does a slot that is drawn from a table, or after 64 draws of slots that are not enabled the first that
    /// is: its number.
    fn draw(&mut self, table: &[u8; 1024], words: &mut SplitMix64) -> Option<u8>
        ensures state { self.new ≡ record self.old { machine = after_found self.old.machine result } }
        ensures none { result ≡ None → NoneEnabled self.old.machine }
        ensures falls { IfSome result (λ number. machine_weight steps self.new.machine < machine_weight steps self.old.machine) }
    {
        let count = slots(self.machine.chip());
        for _ in 0..64 {
            let number = table[(words.next_word() % 1024) as usize] % count;
            if self.attempt(number) {
                return Some(number);
            }
        }
        self.next(0)
    }

    /// Does slots that are drawn from a table until none is enabled: of those that are enabled each as often
    /// as it stands in the table. Whatever was drawn, the chip stands as [`Chip::stands`] says.
    pub fn run_drawn(&mut self, table: &[u8; 1024], seed: u64)
        ensures machine { DidSlots self.old self.new }
        ensures finished { NoneEnabled self.new.machine }
        ensures stands { Stands self.new.setup self.new.machine }
    {
        let mut words = SplitMix64::from_seed(seed.to_le_bytes());
        while let Some(_) = self.draw(table, &mut words) {}
        self.stands();
    }

    /// Does slots by a schedule until none is enabled. Returns after at most 24 slots for each unit that
    /// the budgets allow.
    pub fn run(&mut self, schedule: Schedule)
        ensures machine { RunsToEnd self.old schedule self.new }
        ensures finished { NoneEnabled self.new.machine }
        ensures stands { Stands self.new.setup self.new.machine }
    {
        match schedule {
            Schedule::Turns => self.run_turns(),
            Schedule::Seed(seed) => self.run_seed(seed),
        }
        self.stands();
    }
}

/// The number that a word of the generator names.
fn first_tried(chip: ChipKind, words: &mut SplitMix64) -> u8
    ensures number { result ≡ tries chip (Seed words.old) }
    ensures words { words.new ≡ (mix_u64 words.old).1 }
    ensures within { result < slots chip }
{
    (words.next_word() % slots(chip) as u64) as u8
}

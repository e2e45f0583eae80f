//! The bank.
ghost use Rattle.std.specs.Prelude.{◌≡◌, ℕ, ◌+◌, ◌*◌, ◌/◌, ◌%◌, ◌^◌, ◌<◌, ◌≤◌, ◌++◌, List, length, IfOk, true};
ghost use Rattle.t1_shape.specs.Numbers.{banks, most_l2_sets};
ghost use Rattle.t1_event.specs.BankRule.{BankState, bank_start, is_fit, refused, served_well, bank_well, served_by, bank_with};

use crate::access::{
    addr_of, effect_of, fill, is_bank_access, line_of_fill, size_of, way_of, way_of_fill,
    ways_of_fill, write,
};
use crate::copies::{drop_copies, find_copies};
use std::alloc::{AllocError, Global};
use std::marker::Model;
use t1_dir::Directory;
use t1_event::Config;
use t1_l2::BankArray;
use t1_packet::{Kills, Request, Served};

/// One bank of the L2.
#[derive(Drop)]
pub struct Bank {
    cores: u8,
    ram: u64,
    directory: Directory,
    array: BankArray,
}

impl Model for Bank {
    ghost use Rattle.t1_event.specs.BankRule.{BankState};
    ghost use Rattle.t1_bank.specs.Sound.{IsSound};

    ghost Value = { BankState };

    ghost view = { λ b. record { cores = b.cores; ram = b.ram; directory = b.directory; array = b.array } };

    ghost invariant = { λ b. IsSound (record { cores = b.cores; ram = b.ram; directory = b.directory; array = b.array }) };
}

/// What a request that the bank does not serve is answered.
fn nothing(request: Request) -> Served
    ensures { result ≡ refused request }
{
    Served {
        request,
        old: 0,
        way: None,
        line: [0; 32],
        evicted: None,
        kills: Kills::new(),
    }
}

impl Bank {
    /// Bank number `bank` of a machine, over its lines of `ram`, which are copied. It holds no line
    /// in its L2, and its directory shows none.
    pub fn new(alloc: Global, bank: u8, config: &Config, ram: &[u8]) -> Result<Bank, AllocError>
        requires bank { bank < banks config.now.chip }
        requires cores { config.now.cores ≤ 8 }
        requires sets { (0 < config.now.sets) × (config.now.sets ≤ most_l2_sets config.now.chip) }
        requires ram { (length ram.now % 65536 ≡ 0) × (length ram.now ≤ 2 ^ 28) }
        ensures { IfOk result (λ b. b ≡ bank_start config.now.chip bank config.now.cores config.now.sets ram.now) }
    {
        let directory = Directory::new(alloc, config.chip, config.cores)?;
        let array = BankArray::new(alloc, config.chip, bank, config.sets, ram)?;
        Ok(Bank {
            cores: config.cores,
            ram: ram.len() as u64,
            directory,
            array,
        })
    }

    /// Whether the bank serves a request: its core, its way, its size, its alignment and its address
    /// are in range.
    #[tactic(auto, unfolding(t1_event::specs::BankRule::fits))]
    fn is_fit(&self, request: &Request) -> bool
        ensures { result ≡ is_fit self.now request.now }
    {
        request.core < self.cores
            && way_of(request.op) < ways_of_fill(&self.directory, request.op)
            && is_bank_access(
                self.ram,
                self.array.banks(),
                self.array.bank(),
                addr_of(request.op),
                size_of(request.op),
            )
    }

    /// Serves a request that is fit, into an answer that holds nothing.
    fn serve_well(&mut self, served: &mut Served)
        requires fit { is_fit self.old served.now.request ≡ true }
        requires nothing { served.now ≡ refused served.now.request }
        ensures served { served.exit.now ≡ served_well self.old served.entry.now.request }
        ensures after { self.new ≡ bank_well self.old served.entry.now.request }
    {
        let request = served.request;
        let core = request.core;
        let op = request.op;
        let addr = addr_of(op);
        let evicted = self.array.ensure(addr);
        let old = self.array.get(addr, size_of(op));
        let way = way_of_fill(&self.directory, core, op);
        let done = effect_of(op, old);
        find_copies(
            &self.directory,
            self.cores,
            core,
            evicted,
            done,
            &mut served.kills,
        );
        drop_copies(&mut self.directory, self.cores, &served.kills);
        fill(&mut self.directory, core, op, way);
        served.line = line_of_fill(&self.array, op);
        write(&mut self.array, done);
        served.old = old;
        served.way = way;
        served.evicted = evicted;
    }

    /// Serves a request, whatever it asks: the line is made present in the L2, copies that lie in
    /// the line that made room or in which the access writes are killed, and a fetch or load fills.
    ///
    /// A request that is not fit is served with old 0, no way, no eviction and no kill, and changes
    /// nothing.
    #[tactic(auto, unfolding(t1_event::specs::BankRule::served_by, t1_event::specs::BankRule::bank_with))]
    pub fn serve(&mut self, request: Request) -> Served
        ensures served { result ≡ served_by self.old request }
        ensures after { self.new ≡ bank_with self.old request }
    {
        let mut served = nothing(request);
        if self.is_fit(&request) {
            self.serve_well(&mut served);
        }
        served
    }
}

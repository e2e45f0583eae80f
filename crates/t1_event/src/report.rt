//! The report of a run.

use crate::commit::Commit;
use crate::trace::Trace;
use t1_elf::{Image, Listed};
use t1_num::ChipKind;

/// The machine of a run: the chip, whether its strands have a hyperprivileged mode, cores, strands of
/// each core, bytes of RAM, sets of each L2 bank, and the budget of each strand in units.
#[derive(Clone, Copy, Debug, PartialEq, Eq)]
pub struct Config {
    pub chip: ChipKind,
    pub hyper: bool,
    pub cores: u8,
    pub strands: u8,
    pub ram: u64,
    pub sets: u32,
    pub budget: u32,
}

/// An item of a run: the number of its strand, and its number in the strand's trace.
#[derive(Clone, Copy, Debug, PartialEq, Eq)]
pub struct Place {
    pub strand: u8,
    pub item: u32,
}

/// A finished run: the machine, what its memory held at first, a trace for each strand, the log of
/// commits, the memory order, and the bytes that reached the console.
///
/// A run on one flat memory, which has no banks, has an empty log.
#[derive(Drop)]
pub struct Report {
    pub config: Config,
    pub image: Image,
    pub traces: Listed<Trace>,
    pub log: Listed<Commit>,
    pub order: Listed<Place>,
    pub console: Listed<u8>,
}

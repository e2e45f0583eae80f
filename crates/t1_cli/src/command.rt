//! The commands, and what their words ask for.

use t1_event::Config;
use t1_machine::Schedule;

/// What the words of the command line ask for.
#[derive(Clone, Copy, Debug, PartialEq, Eq)]
pub enum Command {
    /// A run of a machine, by a schedule that is drawn from the seed or by turns; with `brief` the
    /// summary is written in place of the log.
    Run {
        config: Config,
        seed: Option<u64>,
        brief: bool,
    },
    /// A run of a machine in threads.
    Live {
        config: Config,
    },
    Asm,
    Dis,
    Check,
    /// A guest of so many words, drawn from the seed.
    Gen {
        seed: u64,
        size: u32,
    },
}

/// A run that the words ask for: the machine, its schedule, and whether the summary is written in
/// place of the log.
#[derive(Clone, Copy, Debug, PartialEq, Eq)]
pub(crate) struct Run {
    pub(crate) config: Config,
    pub(crate) schedule: Schedule,
    pub(crate) brief: bool,
}

/// What the serial command does: a run of the machine, the file of an assembly text, the words of a
/// file, the verdict on a log, or a guest.
#[derive(Clone, Copy, Debug, PartialEq, Eq)]
pub(crate) enum Task {
    Run(Run),
    Asm,
    Dis,
    Check,
    Gen { seed: u64, size: u32 },
}

/// An option of the command line.
#[derive(Clone, Copy, Debug, PartialEq, Eq)]
pub(crate) enum Flag {
    Cores,
    Strands,
    Ram,
    Sets,
    Budget,
    Seed,
    Size,
    Brief,
}

/// The options that were given, each at most once.
#[derive(Clone, Copy, Debug, PartialEq, Eq)]
pub(crate) struct Given {
    pub(crate) cores: Option<u64>,
    pub(crate) strands: Option<u64>,
    pub(crate) ram: Option<u64>,
    pub(crate) sets: Option<u64>,
    pub(crate) budget: Option<u64>,
    pub(crate) seed: Option<u64>,
    pub(crate) size: Option<u64>,
    pub(crate) brief: bool,
}

/// The options so far, and the one whose number is still to come.
#[derive(Clone, Copy, Debug, PartialEq, Eq)]
pub(crate) struct Reading {
    pub(crate) given: Given,
    pub(crate) waiting: Option<Flag>,
}

//! The reader of the words.
ghost use Rattle.std.specs.Prelude.{ℕ, ◌≡◌, ◌≤◌, false, map, string_bytes, IfSome, IsTrue};
ghost use Rattle.t1_num.specs.declared.chip.ChipKind.TheVariants.{T1};
ghost use Rattle.t1_cli.specs.Words.{digits_from, number_of, flag_of, once, with_number, complete, begun, numbered, read_next, ended, options_of, config_in_limits, config_of, has_no_machine, is_bare, run_command, live_command, bare_command, guest_command, command_named, command_of, schedule_of, task_of, IsCommand, IsTask};
ghost use Rattle.t1_take.specs.Limits.{is_in_limits};

use crate::command::{Command, Flag, Given, Reading, Run, Task};
use t1_event::Config;
use t1_gen::MOST_SIZE;
use t1_machine::Schedule;
use t1_num::ChipKind;
use t1_take::is_in_limits;

/// The value of digits, where each is one and the value has 64 bits.
#[tactic(auto, unfolding(crate::specs::Words::digits_from))]
fn digits(bytes: &[u8]) -> Option<u64>
    ensures { result ≡ digits_from 0 bytes.now }
{
    let mut value = 0u64;
    for digit in bytes {
        if *digit < b'0' || *digit > b'9' {
            return None;
        }
        value = value.checked_mul(10)?.checked_add((*digit - b'0') as u64)?;
    }
    Some(value)
}

/// A number of 1 to 20 digits.
#[tactic(auto, unfolding(crate::specs::Words::number_of))]
fn number(word: &str) -> Option<u64>
    ensures { result ≡ number_of word.now }
{
    if word.is_empty() || word.len() > 20 {
        return None;
    }
    digits(word.as_bytes())
}

/// The option that a word begins.
#[tactic(auto, unfolding(crate::specs::Words::flag_of))]
fn read_flag(word: &str) -> Option<Flag>
    ensures { result ≡ flag_of word.now }
{
    if word == "--cores" {
        Some(Flag::Cores)
    } else if word == "--strands" {
        Some(Flag::Strands)
    } else if word == "--ram" {
        Some(Flag::Ram)
    } else if word == "--sets" {
        Some(Flag::Sets)
    } else if word == "--budget" {
        Some(Flag::Budget)
    } else if word == "--seed" {
        Some(Flag::Seed)
    } else if word == "--size" {
        Some(Flag::Size)
    } else if word == "--brief" {
        Some(Flag::Brief)
    } else {
        None
    }
}

/// The options, where the one that came was not given before.
fn once(before: bool, given: Given) -> Option<Given>
    ensures { result ≡ once before given }
{
    if before { None } else { Some(given) }
}

impl Given {
    /// No options.
    pub(crate) const NONE: Given = Given {
        cores: None,
        strands: None,
        ram: None,
        sets: None,
        budget: None,
        seed: None,
        size: None,
        brief: false,
    };
}

/// The options with a number more, which was not given before.
#[tactic(auto, unfolding(crate::specs::Words::with_number))]
fn with_number(given: Given, flag: Flag, number: u64) -> Option<Given>
    ensures { result ≡ with_number given flag number }
{
    let n = Some(number);
    match flag {
        Flag::Cores => once(given.cores.is_some(), Given { cores: n, ..given }),
        Flag::Strands => once(
            given.strands.is_some(),
            Given {
                strands: n,
                ..given
            },
        ),
        Flag::Ram => once(given.ram.is_some(), Given { ram: n, ..given }),
        Flag::Sets => once(given.sets.is_some(), Given { sets: n, ..given }),
        Flag::Budget => once(given.budget.is_some(), Given { budget: n, ..given }),
        Flag::Seed => once(given.seed.is_some(), Given { seed: n, ..given }),
        Flag::Size => once(given.size.is_some(), Given { size: n, ..given }),
        Flag::Brief => None,
    }
}

/// What is read where an option is complete.
fn complete(given: Option<Given>) -> Option<Reading>
    ensures { result ≡ complete given }
{
    match given {
        Some(given) => Some(Reading {
            given,
            waiting: None,
        }),
        None => None,
    }
}

/// What is read where an option begins: all but `--brief` wait for a number.
fn begin(given: Given, flag: Option<Flag>) -> Option<Reading>
    ensures { result ≡ begun given flag }
{
    match flag {
        None => None,
        Some(Flag::Brief) => complete(once(
            given.brief,
            Given {
                brief: true,
                ..given
            },
        )),
        Some(waiting) => Some(Reading {
            given,
            waiting: Some(waiting),
        }),
    }
}

/// What is read where a number came for an option.
fn put_number(given: Given, flag: Flag, number: Option<u64>) -> Option<Reading>
    ensures { result ≡ numbered given flag number }
{
    match number {
        Some(number) => complete(with_number(given, flag, number)),
        None => None,
    }
}

/// One word more.
#[tactic(auto, unfolding(crate::specs::Words::read_next))]
fn read_next(reading: Reading, word: &str) -> Option<Reading>
    ensures { result ≡ read_next reading word.now }
{
    match reading.waiting {
        None => begin(reading.given, read_flag(word)),
        Some(flag) => put_number(reading.given, flag, number(word)),
    }
}

/// The options, where none waits for its number.
fn end(reading: Reading) -> Option<Given>
    ensures { result ≡ ended reading.given reading.waiting }
{
    match reading.waiting {
        None => Some(reading.given),
        Some(_) => None,
    }
}

/// The options of these words.
#[tactic(auto, unfolding(crate::specs::Words::options_after))]
fn read_options(words: &[String]) -> Option<Given>
    ensures { result ≡ options_of (map string_bytes words.now) }
{
    let mut reading = Reading {
        given: Given::NONE,
        waiting: None,
    };
    for word in words {
        reading = read_next(reading, word.as_str())?;
    }
    end(reading)
}

/// Whether these numbers are small enough for the fields of a machine in its limits.
fn are_small(cores: u64, strands: u64, sets: u64, budget: u64) -> bool
    ensures fits { IsTrue result → (cores ≤ 8) × (strands ≤ 4) × (sets ≤ 1024) × (budget ≤ 1000000) }
    ensures only { (ram : ℕ) → IsTrue (is_in_limits (record { chip = T1; hyper = false; cores = cores; strands = strands; ram = ram; sets = sets; budget = budget })) → IsTrue result }
{
    cores <= 8 && (strands <= 4 && (sets <= 1024 && budget <= 1_000_000))
}

/// The machine of these numbers, an OpenSPARC T1 with no hyperprivileged mode, where they are in their limits.
fn machine(cores: u64, strands: u64, ram: u64, sets: u64, budget: u64) -> Option<Config>
    ensures value { result ≡ config_in_limits (record { chip = T1; hyper = false; cores = cores; strands = strands; ram = ram; sets = sets; budget = budget }) }
    ensures limits { IfSome result (λ config. IsTrue (is_in_limits config)) }
{
    if !are_small(cores, strands, sets, budget) {
        return None;
    }
    let config = Config {
        chip: ChipKind::T1,
        hyper: false,
        cores: cores as u8,
        strands: strands as u8,
        ram,
        sets: sets as u32,
        budget: budget as u32,
    };
    if is_in_limits(&config) {
        Some(config)
    } else {
        None
    }
}

/// The machine that the options ask for, where it is in its limits.
fn asked_machine(given: &Given) -> Option<Config>
    ensures value { result ≡ config_in_limits (config_of given.now) }
    ensures limits { IfSome result (λ config. IsTrue (is_in_limits config)) }
{
    machine(
        given.cores.unwrap_or(8),
        given.strands.unwrap_or(4),
        given.ram.unwrap_or(16_777_216),
        given.sets.unwrap_or(1024),
        given.budget.unwrap_or(10_000),
    )
}

fn has_no_machine(given: &Given) -> bool
    ensures { result ≡ has_no_machine given.now }
{
    given.cores.is_none()
        && (given.strands.is_none()
            && (given.ram.is_none() && (given.sets.is_none() && given.budget.is_none())))
}

fn is_bare(given: &Given) -> bool
    ensures { result ≡ is_bare given.now }
{
    has_no_machine(given) && (given.seed.is_none() && (given.size.is_none() && !given.brief))
}

fn run_command(given: &Given) -> Option<Command>
    ensures value { result ≡ run_command given.now }
    ensures form { IfSome result IsCommand }
{
    if given.size.is_some() {
        return None;
    }
    match asked_machine(given) {
        Some(config) => Some(Command::Run {
            config,
            seed: given.seed,
            brief: given.brief,
        }),
        None => None,
    }
}

fn live_command(given: &Given) -> Option<Command>
    ensures value { result ≡ live_command given.now }
    ensures form { IfSome result IsCommand }
{
    if given.seed.is_some() || given.size.is_some() || given.brief {
        return None;
    }
    match asked_machine(given) {
        Some(config) => Some(Command::Live { config }),
        None => None,
    }
}

fn bare_command(command: Command, given: &Given) -> Option<Command>
    requires { IsCommand command }
    ensures value { result ≡ bare_command command given.now }
    ensures form { IfSome result IsCommand }
{
    if is_bare(given) { Some(command) } else { None }
}

fn guest_command(given: &Given) -> Option<Command>
    ensures value { result ≡ guest_command given.now given.now.seed given.now.size }
    ensures form { IfSome result IsCommand }
{
    match (given.seed, given.size) {
        (Some(seed), Some(size)) => {
            if has_no_machine(given) && (!given.brief && (1 <= size && size <= MOST_SIZE as u64)) {
                Some(Command::Gen {
                    seed,
                    size: size as u32,
                })
            } else {
                None
            }
        }
        _ => None,
    }
}

/// The command of this name with these options.
#[tactic(auto, unfolding(crate::specs::Words::command_named))]
fn named_command(name: &str, given: &Given) -> Option<Command>
    ensures value { result ≡ command_named name.now given.now }
    ensures form { IfSome result IsCommand }
{
    if name == "run" {
        run_command(given)
    } else if name == "live" {
        live_command(given)
    } else if name == "asm" {
        bare_command(Command::Asm, given)
    } else if name == "dis" {
        bare_command(Command::Dis, given)
    } else if name == "check" {
        bare_command(Command::Check, given)
    } else if name == "gen" {
        guest_command(given)
    } else {
        None
    }
}

/// What the words ask for: the command first, then its options in any order, each at most once
/// and with its value in the next word. `None` exactly where the words are not in this form.
#[tactic(auto, unfolding(crate::specs::Words::command_of))]
pub fn read_words(words: &[String]) -> Option<Command>
    ensures value { result ≡ command_of (map string_bytes words.now) }
    ensures form { IfSome result IsCommand }
{
    if words.is_empty() {
        return None;
    }
    match read_options(words.split_at(1).1) {
        Some(given) => named_command(words[0].as_str(), &given),
        None => None,
    }
}

/// By turns, or by the generator of a seed.
fn schedule_of(seed: Option<u64>) -> Schedule
    ensures { result ≡ schedule_of seed }
{
    match seed {
        Some(seed) => Schedule::Seed(seed),
        None => Schedule::Turns,
    }
}

/// What is served of a command on one thread.
pub(crate) fn read_task(words: &[String]) -> Option<Task>
    ensures value { result ≡ task_of (map string_bytes words.now) }
    ensures valid { IfSome result IsTask }
{
    match read_words(words)? {
        Command::Run {
            config,
            seed,
            brief,
        } => Some(Task::Run(Run {
            config,
            schedule: schedule_of(seed),
            brief,
        })),
        Command::Asm => Some(Task::Asm),
        Command::Dis => Some(Task::Dis),
        Command::Gen { seed, size } => Some(Task::Gen { seed, size }),
        Command::Check => Some(Task::Check),
        Command::Live { config: _ } => None,
    }
}

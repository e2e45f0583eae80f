//! The lines of a log before its lists: the machine, where every strand starts, and the image.

ghost use Rattle.std.specs.Prelude.{ℕ, ◌≡◌, ◌+◌, ◌-◌, ◌%◌, ◌≤◌, ◌&&◌, false, nat_le, nat_lt, if◌then◌else◌, ◌++◌, List, length, drop, get_or, IsTrue, IfSome, Some};
ghost use Rattle.t1_log.specs.Hex.{hex_of_bytes};
ghost use Rattle.t1_log.specs.Texts.{is_blank};
ghost use Rattle.t1_take.specs.Image.{IsWritten, IsBlockAt, HasBlock};
ghost use Rattle.t1_num.specs.MemoryLaws.{AreBytes};
ghost use Rattle.t1_num.specs.declared.chip.ChipKind.TheVariants.{T1};
ghost use Rattle.t1_event.specs.declared.report.Config.{Config as ConfigData};
ghost use Rattle.t1_event.specs.Printable.{FitsDigits};
ghost use Rattle.t1_log.specs.Lines.{config_line_of, entry_line_of, block_line_of};
ghost use Rattle.t1_take.specs.Taken.{Reads, IsGood, Takes, Leaves};
ghost use Rattle.t1_take.specs.Limits.{is_ram, is_set_count, is_budget, is_in_limits};

use crate::cursor::Cursor;
use t1_event::Config;
use t1_log::is_first;
use t1_num::ChipKind;

/// Whether this much RAM can be: 64 KiB to 256 MiB in steps of 64 KiB.
fn is_ram(ram: u32) -> bool
    ensures { result ≡ is_ram ram }
{
    65_536 <= ram && (ram <= 268_435_456 && ram % 65_536 == 0)
}

/// Whether this many sets can be: a power of two up to 1,024.
#[tactic(auto, unfolding(crate::specs::Limits::is_set_count))]
fn is_set_count(sets: u32) -> bool
    ensures { result ≡ is_set_count sets }
{
    sets == 1
        || sets == 2
        || sets == 4
        || sets == 8
        || sets == 16
        || sets == 32
        || sets == 64
        || sets == 128
        || sets == 256
        || sets == 512
        || sets == 1024
}

/// Whether a budget can be that of each of so many strands, which make at most 1,000,000 units.
fn is_budget(budget: u32, strands: u64) -> bool
    requires { strands ≤ 1024 }
    ensures { result ≡ is_budget budget strands }
{
    1 <= budget && (budget <= 1_000_000 && u64::from(budget) * strands <= 1_000_000)
}

/// Whether version 1 of the log can name this machine, OpenSPARC T1 with no hyperprivileged mode, and its
/// numbers are in their limits: 1 to 8 cores of 1 to 4 strands, RAM of 64 KiB to 256 MiB in steps of 64 KiB,
/// a power of two up to 1,024 of L2 sets, and a budget of units so that all strands make at most 1,000,000.
pub fn is_in_limits(config: &Config) -> bool
    ensures { result ≡ is_in_limits config.now }
{
    let strands = u64::from(config.cores) * u64::from(config.strands);
    is_first(config)
        && ((1 <= config.cores && config.cores <= 8)
            && ((1 <= config.strands && config.strands <= 4)
                && (config.ram <= 268_435_456
                    && is_ram(config.ram as u32)
                    && (is_set_count(config.sets) && is_budget(config.budget, strands)))))
}

/// The machine of these numbers, OpenSPARC T1 with no hyperprivileged mode, where they are in their limits.
fn config_of(cores: u32, strands: u32, ram: u32, sets: u32, budget: u32) -> Option<Config>
    ensures some { IfSome result (λ config. (config ≡ record { chip = T1; hyper = false; cores = cores; strands = strands; ram = ram; sets = sets; budget = budget }) × IsTrue (is_in_limits config)) }
    ensures finds { IsTrue (is_in_limits (record { chip = T1; hyper = false; cores = cores; strands = strands; ram = ram; sets = sets; budget = budget })) → result ≡ Some (record { chip = T1; hyper = false; cores = cores; strands = strands; ram = ram; sets = sets; budget = budget }) }
{
    if cores > 8 || strands > 4 {
        return None;
    }
    let config = Config {
        chip: ChipKind::T1,
        hyper: false,
        cores: cores as u8,
        strands: strands as u8,
        ram: u64::from(ram),
        sets,
        budget,
    };
    if is_in_limits(&config) {
        Some(config)
    } else {
        None
    }
}

/// Takes the line of a machine, with its line feed: its cores, the strands of each core, the bytes of RAM,
/// the sets of each L2 bank, and the budget of each strand in units. `None` where no such line stands at the
/// cursor, or a number is out of its limits.
#[tactic(auto, unfolding(t1_log::specs::Lines::config_line_of))]
pub fn take_config(cursor: &mut Cursor, text: &[u8]) -> Option<Config>
    ensures limits { IfSome result (λ config. IsTrue (is_in_limits config)) }
    ensures reads { IfSome result (λ config. Reads text.now cursor.old.at cursor.new.at (config_line_of config)) }
    ensures finds { (config : ConfigData) (rest : List ℕ) → IsTrue (is_in_limits config) → IsGood cursor.old → drop cursor.old.at text.now ≡ config_line_of config ++ rest → (result ≡ Some config) × Leaves text.now cursor.old cursor.new rest }
{
    cursor.word(text, b"config cores ");
    let cores = cursor.number(text);
    cursor.word(text, b" strands ");
    let strands = cursor.number(text);
    cursor.word(text, b" ram ");
    let ram = cursor.number(text);
    cursor.word(text, b" sets ");
    let sets = cursor.number(text);
    cursor.word(text, b" budget ");
    let budget = cursor.number(text);
    cursor.word(text, b"\n");
    match config_of(cores, strands, ram, sets, budget) {
        Some(config) => { if cursor.is_good() { Some(config) } else { None } }
        None => {
            cursor.refuse();
            None
        }
    }
}

/// Takes the line of the address where every strand starts, with its line feed: 10 hexadecimal digits.
/// `None` where no such line stands at the cursor.
#[tactic(auto, unfolding(t1_log::specs::Lines::entry_line_of))]
pub fn take_entry(cursor: &mut Cursor, text: &[u8]) -> Option<u64>
    ensures fits { IfSome result (FitsDigits 10) }
    ensures reads { IfSome result (λ entry. Reads text.now cursor.old.at cursor.new.at (entry_line_of entry)) }
    ensures finds { (entry : ℕ) (rest : List ℕ) → FitsDigits 10 entry → IsGood cursor.old → drop cursor.old.at text.now ≡ entry_line_of entry ++ rest → (result ≡ Some entry) × Leaves text.now cursor.old cursor.new rest }
{
    cursor.word(text, b"entry ");
    let entry = cursor.hex(text, 10);
    cursor.word(text, b"\n");
    if cursor.is_good() { Some(entry) } else { None }
}

/// Takes the line of a block, with its line feed, and writes the block into a memory of whole blocks: its
/// address in bytes, which is a multiple of 32, is not below the least one, and lies in the memory, and its
/// 32 bytes, which are not all zeros. Answers the address. `None` where no such line stands at the cursor.
pub fn take_block(cursor: &mut Cursor, text: &[u8], least: usize, ram: &mut [u8]) -> Option<usize>
    requires { length ram.old % 32 ≡ 0 }
    ensures length { length ram.new ≡ length ram.old }
    ensures within { IfSome result (λ addr. addr + 32 ≤ length ram.old) }
    ensures wrote { IfSome result (λ addr. IsWritten text.now cursor.old.at cursor.new.at least ram.old ram.new addr) }
    ensures finds { (addr : ℕ) (block rest : List ℕ) → IsBlockAt least (length ram.old) addr block → IsGood cursor.old → drop cursor.old.at text.now ≡ block_line_of addr block ++ rest → (result ≡ Some addr) × HasBlock ram.old ram.new addr block × Leaves text.now cursor.old cursor.new rest }
{
    cursor.word(text, b"m ");
    let addr = cursor.hex(text, 10);
    cursor.word(text, b" ");
    let block = take_bytes(cursor, text);
    cursor.word(text, b"\n");
    if !cursor.is_good() {
        return None;
    }
    if addr % 32 != 0 || addr >= ram.len() as u64 || addr < least as u64 {
        cursor.refuse();
        return None;
    }
    if is_blank(&block) {
        cursor.refuse();
        return None;
    }
    write_block(ram, addr as usize, &block);
    Some(addr as usize)
}

fn write_block(ram: &mut [u8], addr: usize, block: &[u8; 32])
    requires { addr + 32 ≤ length ram.old }
    ensures length { length ram.new ≡ length ram.old }
    ensures bytes { (at : ℕ) → get_or ram.new at 0 ≡ (if nat_le addr at && nat_lt at (addr + 32) then get_or block.now (at - addr) 0 else get_or ram.old at 0) }
{
    for byte in 0..32usize {
        ram[addr + byte] = block[byte];
    }
}

fn is_blank(block: &[u8]) -> bool
    ensures { result ≡ is_blank block.now }
{
    block.iter().all(|byte| *byte == 0)
}

/// Takes 32 bytes, each in two digits.
fn take_bytes(cursor: &mut Cursor, text: &[u8]) -> [u8; 32]
    ensures count { length result ≡ 32 }
    ensures takes { Takes text.now cursor.old cursor.new (hex_of_bytes result) }
    ensures finds { (bytes rest : List ℕ) → length bytes ≡ 32 → AreBytes bytes → drop cursor.old.at text.now ≡ hex_of_bytes bytes ++ rest → (result ≡ bytes) × Leaves text.now cursor.old cursor.new rest }
{
    let mut block = [0; 32];
    for byte in 0..32usize {
        block[byte] = cursor.hex(text, 2) as u8;
    }
    block
}

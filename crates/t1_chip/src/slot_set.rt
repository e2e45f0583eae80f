//! Sets of slots, as words with a bit for each.
ghost use Rattle.std.specs.Prelude.{ℕ, ◌≡◌, ◌≢◌, ◌+◌, ◌*◌, ◌<◌, ◌≤◌};
ghost use Rattle.std.specs.Int.{bit_at};
ghost use Rattle.t1_machine.specs.Slots.{slots, slot_at};
ghost use Rattle.t1_machine.specs.Wakes.{IsOwn, IsServe, IsAdmitOf, IsAdmit, IsTakeIn, IsAsleep, IsWithin};
ghost use Rattle.t1_chip.specs.Sets.{Outside};

use t1_machine::Woken;
use t1_num::ChipKind;

/// All slots.
pub(crate) const ALL: u128 = u128::MAX;

fn with_slot(set: u128, number: u8) -> u128
    requires { number < 98 }
    ensures { (n : ℕ) → bit_at result n ≡ 0 → (bit_at set n ≡ 0) × (n ≢ number) }
{
    set | 1 << number
}

pub(crate) fn without_slot(set: u128, number: u8) -> u128
    requires { number < 98 }
    ensures { (n : ℕ) → n < 98 → n ≢ number → bit_at result n ≡ bit_at set n }
{
    set & !(1 << number)
}

/// How many slots from one on, below a count, are not in the set.
pub(crate) fn clear_from(set: u128, number: u8, count: u8) -> u8
    requires number { number < count }
    requires count { count ≤ 98 }
    ensures within { number + result ≤ count }
    ensures clear { (i : ℕ) → i < result → bit_at set (number + i) ≡ 0 }
{
    let above = set >> number;
    if above == 0 {
        return count - number;
    }
    let gap = above.trailing_zeros() as u8;
    if gap > count - number {
        return count - number;
    }
    gap
}

/// With each slot from one on that has its bit.
fn with_bits(set: u128, first: u8, bits: u16) -> u128
    requires { first < 98 }
    ensures { (n : ℕ) → bit_at result n ≡ 0 → (bit_at set n ≡ 0) × ((i : ℕ) → n ≡ first + i → bit_at bits i ≡ 0) }
{
    set | (bits as u128) << first
}

/// With the Exec and the Drains of a core.
fn with_core(chip: ChipKind, set: u128, core: u8) -> u128
    requires { core < 8 }
    ensures { (n : ℕ) → n < slots chip → bit_at result n ≡ 0 → Outside chip set n (IsOwn core) }
{
    let execs = with_slot(set, core);
    match chip {
        ChipKind::T1 => with_bits(execs, 8 + 4 * core, 0xf),
        ChipKind::T2 => with_bits(execs, 8 + 8 * core, 0xff),
    }
}

/// With the Serve of a destination.
fn with_serve(chip: ChipKind, set: u128, dest: u8) -> u128
    requires { dest < 9 }
    ensures { (n : ℕ) → n < slots chip → bit_at result n ≡ 0 → Outside chip set n (IsServe dest) }
{
    match chip {
        ChipKind::T1 => with_slot(set, 48 + dest),
        ChipKind::T2 => with_slot(set, 80 + dest),
    }
}

/// With the Admit of a destination.
fn with_admit(chip: ChipKind, set: u128, dest: u8) -> u128
    requires { dest < 9 }
    ensures { (n : ℕ) → n < slots chip → bit_at result n ≡ 0 → Outside chip set n (IsAdmitOf dest) }
{
    match chip {
        ChipKind::T1 => with_slot(set, 53 + dest),
        ChipKind::T2 => with_slot(set, 89 + dest),
    }
}

/// With each Admit.
fn with_admits(chip: ChipKind, set: u128) -> u128
    ensures { (n : ℕ) → n < slots chip → bit_at result n ≡ 0 → Outside chip set n IsAdmit }
{
    match chip {
        ChipKind::T1 => with_bits(set, 53, 0x1f),
        ChipKind::T2 => with_bits(set, 89, 0x1ff),
    }
}

/// With the Take of each core that has its bit.
fn with_takes(chip: ChipKind, set: u128, cores: u8) -> u128
    ensures { (n : ℕ) → n < slots chip → bit_at result n ≡ 0 → Outside chip set n (IsTakeIn cores) }
{
    match chip {
        ChipKind::T1 => with_bits(set, 40, cores as u16),
        ChipKind::T2 => with_bits(set, 72, cores as u16),
    }
}

/// With the slots that a step woke.
pub(crate) fn with_woken(chip: ChipKind, set: u128, woken: Woken) -> u128
    requires { IsWithin woken }
    ensures { (n : ℕ) → n < slots chip → bit_at result n ≡ 0 → (bit_at set n ≡ 0) × IsAsleep woken (slot_at chip n) }
{
    match woken {
        Woken::Nothing => set,
        Woken::Core(core) => with_core(chip, set, core),
        Woken::Sent { core, dest } => with_serve(chip, with_core(chip, set, core), dest),
        Woken::Took(core) => with_admits(chip, with_core(chip, set, core)),
        Woken::Served { core, dest } => with_admit(chip, with_core(chip, set, core), dest),
        Woken::Admitted { dest, cores } => with_takes(
            chip,
            with_admits(chip, with_serve(chip, set, dest)),
            cores,
        ),
    }
}

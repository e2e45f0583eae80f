//! The slots of the serial machine.
ghost use Rattle.std.specs.Prelude.{◌≡◌, ◌+◌, ◌-◌, ◌/◌, ◌%◌, ◌<◌, ◌≤◌};
ghost use Rattle.t1_num.specs.declared.chip.ChipKind.TheVariants.{T1, T2};
ghost use Rattle.t1_machine.specs.Slots.{slots, slot_at, IsSlot};

use t1_num::ChipKind;

/// How many slots a chip has: 58 or 98.
#[inline]
pub fn slots(chip: ChipKind) -> u8
    ensures value { result ≡ slots chip }
    ensures few { (0 < result) × (result ≤ 98) }
{
    match chip {
        ChipKind::T1 => 58,
        ChipKind::T2 => 98,
    }
}

/// Who acts in a slot.
#[derive(Clone, Copy, Debug, PartialEq, Eq)]
pub enum Slot {
    /// A strand of a core goes on.
    Exec(u8),
    /// The store buffer of a strand sends its oldest store.
    Drain { core: u8, strand: u8 },
    /// A core takes a packet.
    Take(u8),
    /// A destination serves a request.
    Serve(u8),
    /// The crossbar admits an access that a destination served.
    Admit(u8),
}

/// Those of T1: Drain from 8, Take from 40, Serve from 48, Admit from 53.
#[inline]
fn slot_of_t1(number: u8) -> Slot
    requires { number < 58 }
    ensures value { result ≡ slot_at T1 number }
    ensures within { IsSlot T1 result }
{
    if number < 8 {
        Slot::Exec(number)
    } else if number < 40 {
        Slot::Drain {
            core: (number - 8) / 4,
            strand: (number - 8) % 4,
        }
    } else if number < 48 {
        Slot::Take(number - 40)
    } else if number < 53 {
        Slot::Serve(number - 48)
    } else {
        Slot::Admit(number - 53)
    }
}

/// Those of T2: Drain from 8, Take from 72, Serve from 80, Admit from 89.
#[inline]
fn slot_of_t2(number: u8) -> Slot
    requires { number < 98 }
    ensures value { result ≡ slot_at T2 number }
    ensures within { IsSlot T2 result }
{
    if number < 8 {
        Slot::Exec(number)
    } else if number < 72 {
        Slot::Drain {
            core: (number - 8) / 8,
            strand: (number - 8) % 8,
        }
    } else if number < 80 {
        Slot::Take(number - 72)
    } else if number < 89 {
        Slot::Serve(number - 80)
    } else {
        Slot::Admit(number - 89)
    }
}

/// The slot of a number: Exec of each core, Drain of each strand of each core, Take of each core, Serve
/// and Admit of each destination.
#[inline]
pub fn slot_at(chip: ChipKind, number: u8) -> Slot
    requires { number < slots chip }
    ensures value { result ≡ slot_at chip number }
    ensures within { IsSlot chip result }
{
    match chip {
        ChipKind::T1 => slot_of_t1(number),
        ChipKind::T2 => slot_of_t2(number),
    }
}

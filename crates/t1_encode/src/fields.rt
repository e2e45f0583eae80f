//! The fields of a word; `None` where a value has more bits than its field.
ghost use Rattle.std.specs.Prelude.{◌≡◌, ◌<◌, ◌≤◌, ◌^◌, IfSome};
ghost use Rattle.t1_encode.specs.Fields.{number_bits, signed_bits, unsigned_bits, flag_bits, codes_bits, register_condition_bits, read_asr_bits, write_asr_bits, read_privileged_bits, hyper_bits, write_privileged_bits, source_bits, number_source_bits, mem_bits, space_bits, load_register_bits, store_register_bits};

use t1_insn::{LoadKind, Mem, Src, StoreKind};

/// A number of so many bits.
#[tactic(auto, unfolding(crate::specs::Fields::number_bits))]
pub fn number(bits: u32, value: u32) -> Option<u32>
    requires { bits < 32 }
    ensures value { result ≡ number_bits bits value }
    ensures small { IfSome result (λ n. n < 2 ^ bits) }
{
    if value < 1 << bits { Some(value) } else { None }
}

/// A register.
pub fn register(r: u8) -> Option<u32>
    ensures value { result ≡ number_bits 5 r }
    ensures small { IfSome result (λ n. n < 32) }
{
    number(5, r as u32)
}

/// A condition on condition codes.
pub fn condition(cond: u8) -> Option<u32>
    ensures value { result ≡ number_bits 4 cond }
    ensures small { IfSome result (λ n. n < 16) }
{
    number(4, cond as u32)
}

/// A condition on a register.
#[tactic(auto, unfolding(crate::specs::Fields::register_condition_bits))]
pub fn register_condition(rcond: u8) -> Option<u32>
    ensures value { result ≡ register_condition_bits rcond }
    ensures small { IfSome result (λ n. n < 8) }
{
    match rcond {
        1 | 2 | 3 | 5 | 6 | 7 => Some(rcond as u32),
        _ => None,
    }
}

/// A signed number of so many bits.
#[tactic(auto, unfolding(crate::specs::Fields::signed_bits))]
pub fn signed(bits: u32, value: i32) -> Option<u32>
    requires some { 1 ≤ bits }
    requires most { bits < 32 }
    ensures value { result ≡ signed_bits bits value }
    ensures small { IfSome result (λ n. n < 2 ^ bits) }
{
    let half = 1u32 << (bits - 1);
    if value >= 0 {
        let n = value as u32;
        if n < half { Some(n) } else { None }
    } else {
        let below = value.unsigned_abs();
        if below <= half {
            Some(half + (half - below))
        } else {
            None
        }
    }
}

/// An immediate that is a number of so many bits.
#[tactic(auto, unfolding(crate::specs::Fields::unsigned_bits))]
pub fn unsigned(bits: u32, value: i32) -> Option<u32>
    requires { bits < 32 }
    ensures value { result ≡ unsigned_bits bits value }
    ensures small { IfSome result (λ n. n < 2 ^ bits) }
{
    if value >= 0 {
        number(bits, value as u32)
    } else {
        None
    }
}

/// One bit.
pub fn flag(set: bool) -> u32
    ensures value { result ≡ flag_bits set }
    ensures small { result < 2 }
{
    if set { 1 } else { 0 }
}

/// Which condition codes: icc, or xcc, which is wide.
pub fn codes(wide: bool) -> u32
    ensures value { result ≡ codes_bits wide }
    ensures small { result < 4 }
{
    if wide { 2 } else { 0 }
}

/// The bits from 13 down of a second operand with an immediate of so many signed bits.
#[tactic(auto, unfolding(crate::specs::Fields::source_bits))]
pub fn source(bits: u32, src: Src) -> Option<u32>
    requires some { 1 ≤ bits }
    requires most { bits < 32 }
    requires fits { 2 ^ bits ≤ 2 ^ 13 }
    ensures value { result ≡ source_bits bits src }
    ensures small { IfSome result (λ n. n < 2 ^ 14) }
{
    match src {
        Src::Reg(rs2) => register(rs2),
        Src::Imm(imm) => Some((1 << 13) + signed(bits, imm)?),
    }
}

/// The bits from 13 down of a second operand whose immediate is a number of so many bits.
#[tactic(auto, unfolding(crate::specs::Fields::number_source_bits))]
pub fn number_source(bits: u32, src: Src) -> Option<u32>
    requires most { bits < 32 }
    requires fits { 2 ^ bits ≤ 2 ^ 13 }
    ensures value { result ≡ number_source_bits bits src }
    ensures small { IfSome result (λ n. n < 2 ^ 14) }
{
    match src {
        Src::Reg(rs2) => register(rs2),
        Src::Imm(imm) => Some((1 << 13) + unsigned(bits, imm)?),
    }
}

/// The bits from 13 down of an access: i, the address space where it stands there, and the second
/// operand.
#[tactic(auto, unfolding(crate::specs::Fields::mem_bits))]
pub fn operand(mem: Mem) -> Option<u32>
    ensures value { result ≡ mem_bits mem }
    ensures small { IfSome result (λ n. n < 2 ^ 14) }
{
    match mem {
        Mem::Plain(src) => source(13, src),
        Mem::Alt { rs2, asi } => Some(number(8, asi as u32)? * (1 << 5) + register(rs2)?),
        Mem::AltReg { imm } => source(13, Src::Imm(imm)),
    }
}

/// The bits from 13 down of a compare and swap.
#[tactic(auto, unfolding(crate::specs::Fields::space_bits))]
pub fn space(rs2: u8, asi: Option<u8>) -> Option<u32>
    ensures value { result ≡ space_bits rs2 asi }
    ensures small { IfSome result (λ n. n < 2 ^ 14) }
{
    match asi {
        Some(asi) => Some(number(8, asi as u32)? * (1 << 5) + register(rs2)?),
        None => Some((1 << 13) + register(rs2)?),
    }
}

/// The register of a load: the first of two is even.
#[tactic(auto, unfolding(crate::specs::Fields::load_register_bits))]
pub fn load_register(kind: LoadKind, rd: u8) -> Option<u32>
    ensures value { result ≡ load_register_bits kind rd }
    ensures small { IfSome result (λ n. n < 32) }
{
    match kind {
        LoadKind::Tw if rd % 2 == 1 => None,
        _ => register(rd),
    }
}

/// The register of a store, likewise.
#[tactic(auto, unfolding(crate::specs::Fields::store_register_bits))]
pub fn store_register(kind: StoreKind, rd: u8) -> Option<u32>
    ensures value { result ≡ store_register_bits kind rd }
    ensures small { IfSome result (λ n. n < 32) }
{
    match kind {
        StoreKind::Tw if rd % 2 == 1 => None,
        _ => register(rd),
    }
}

/// An ancillary state register that is read.
#[tactic(auto, unfolding(crate::specs::Fields::read_asr_bits))]
pub fn read_asr(asr: u8) -> Option<u32>
    ensures value { result ≡ read_asr_bits asr }
    ensures small { IfSome result (λ n. n < 32) }
{
    match asr {
        0 | 2 | 3 | 4 | 5 | 6 | 0x16 => Some(asr as u32),
        _ => None,
    }
}

/// A hyperprivileged register: HPSTATE, HTSTATE or HTBA.
#[tactic(auto, unfolding(crate::specs::Fields::hyper_bits))]
pub fn hyper(reg: u8) -> Option<u32>
    ensures value { result ≡ hyper_bits reg }
    ensures small { IfSome result (λ n. n < 32) }
{
    match reg {
        0 | 1 | 5 => Some(reg as u32),
        _ => None,
    }
}

/// A privileged register that is written.
#[tactic(auto, unfolding(crate::specs::Fields::write_asr_bits))]
pub fn write_asr(asr: u8) -> Option<u32>
    ensures value { result ≡ write_asr_bits asr }
    ensures small { IfSome result (λ n. n < 32) }
{
    match asr {
        0 | 2 | 3 | 6 | 0x14 | 0x15 | 0x16 | 0x1a => Some(asr as u32),
        _ => None,
    }
}

/// A privileged register that is read.
#[tactic(auto, unfolding(crate::specs::Fields::read_privileged_bits))]
pub fn read_privileged(reg: u8) -> Option<u32>
    ensures value { result ≡ read_privileged_bits reg }
    ensures small { IfSome result (λ n. n < 32) }
{
    match reg {
        0..=0x0e | 0x10 => Some(reg as u32),
        _ => None,
    }
}

/// One that is written.
#[tactic(auto, unfolding(crate::specs::Fields::write_privileged_bits))]
pub fn write_privileged(reg: u8) -> Option<u32>
    ensures value { result ≡ write_privileged_bits reg }
    ensures small { IfSome result (λ n. n < 32) }
{
    match reg {
        0..=3 | 5..=0x0e | 0x10 => Some(reg as u32),
        _ => None,
    }
}

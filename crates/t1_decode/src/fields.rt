//! The fields of an instruction word (SPARC V9 A.1). Bit 0 is the lowest.
ghost use Rattle.std.specs.Prelude.{◌≡◌, ◌<◌, ◌≤◌, ◌^◌};
ghost use Rattle.t1_insn.specs.Ranges.{IsSigned, IsSignedSource, IsNumberSource, IsMem, IsSpace};
ghost use Rattle.t1_decode.specs.Fields.{is_set, signed_of, rd_of, rs1_of, rs2_of, cond_of, signed_source_of, number_source_of, source_of, alternate_of, space_of};

use t1_insn::{Mem, Src};
use t1_num::field;

/// Bit `at` of a word.
pub fn bit(word: u32, at: u32) -> bool
    requires { at < 32 }
    ensures { result ≡ is_set word at }
{
    (word >> at) % 2 == 1
}

/// The two's complement number that so many bits stand for.
#[tactic(auto, unfolding(crate::specs::Fields::signed_of))]
pub fn signed(bits: u32, value: u32) -> i32
    requires some { 1 ≤ bits }
    requires most { bits < 32 }
    requires fits { value < 2 ^ bits }
    ensures value { result ≡ signed_of bits value }
    ensures in_range { IsSigned bits result }
{
    if value < 1 << (bits - 1) {
        value as i32
    } else {
        (value as i64 - (1i64 << bits)) as i32
    }
}

/// The destination register, 29:25.
pub fn rd(word: u32) -> u8
    ensures value { result ≡ rd_of word }
    ensures in_range { result < 32 }
{
    field(word, 29, 25) as u8
}

/// The first register of the operands, 18:14.
pub fn rs1(word: u32) -> u8
    ensures value { result ≡ rs1_of word }
    ensures in_range { result < 32 }
{
    field(word, 18, 14) as u8
}

/// The second register of the operands, 4:0.
pub fn rs2(word: u32) -> u8
    ensures value { result ≡ rs2_of word }
    ensures in_range { result < 32 }
{
    field(word, 4, 0) as u8
}

/// The condition of a branch or of a trap, 28:25.
pub fn cond(word: u32) -> u8
    ensures value { result ≡ cond_of word }
    ensures in_range { result < 16 }
{
    field(word, 28, 25) as u8
}

/// The second operand: where bit 13 is 1 so many low bits as a signed number, else rs2.
#[tactic(auto, unfolding(crate::specs::Fields::signed_source_of))]
pub fn signed_source(bits: u32, word: u32) -> Src
    requires some { 1 ≤ bits }
    requires most { bits < 32 }
    ensures value { result ≡ signed_source_of bits word }
    ensures in_range { IsSignedSource bits result }
{
    if bit(word, 13) {
        Src::Imm(signed(bits, field(word, bits - 1, 0)))
    } else {
        Src::Reg(rs2(word))
    }
}

/// The second operand: where bit 13 is 1 so many low bits as a number, else rs2.
#[tactic(auto, unfolding(crate::specs::Fields::number_source_of))]
pub fn number_source(bits: u32, word: u32) -> Src
    requires some { 1 ≤ bits }
    requires most { bits < 32 }
    ensures value { result ≡ number_source_of bits word }
    ensures in_range { IsNumberSource bits result }
{
    if bit(word, 13) {
        Src::Imm(field(word, bits - 1, 0) as i32)
    } else {
        Src::Reg(rs2(word))
    }
}

/// The second operand of most instructions: simm13 or rs2.
pub fn source(word: u32) -> Src
    ensures value { result ≡ source_of word }
    ensures in_range { IsSignedSource 13 result }
{
    signed_source(13, word)
}

/// The second operand of an alternate access.
#[tactic(auto, unfolding(crate::specs::Fields::alternate_of))]
pub fn alternate(word: u32) -> Mem
    ensures value { result ≡ alternate_of word }
    ensures in_range { IsMem result }
{
    if bit(word, 13) {
        Mem::AltReg {
            imm: signed(13, field(word, 12, 0)),
        }
    } else {
        Mem::Alt {
            rs2: rs2(word),
            asi: field(word, 12, 5) as u8,
        }
    }
}

/// The address space of a compare and swap; `None` is that of the ASI register.
#[tactic(auto, unfolding(crate::specs::Fields::space_of))]
pub fn space(word: u32) -> Option<u8>
    ensures value { result ≡ space_of word }
    ensures in_range { IsSpace result }
{
    if bit(word, 13) {
        None
    } else {
        Some(field(word, 12, 5) as u8)
    }
}

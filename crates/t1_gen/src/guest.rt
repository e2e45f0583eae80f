//! Whole guests.
ghost use Rattle.std.specs.Prelude.{◌≡◌, ◌≤◌, ◌+◌, ◌*◌, ◌++◌, length, OnOk, IfOk};
ghost use Rattle.t1_insn.specs.Ranges.{IsInRange};
ghost use Rattle.t1_elf.specs.Saved.{IsSavable};
ghost use Rattle.t1_gen.specs.Guests.{bytes_of_insn, code_of, insns_from, guest_insns, generated};

use crate::drawn::{BASE, drawn};
use rand_core::SeedableRng;
use rand_core::utils::NextWord;
use rand_xoshiro::SplitMix64;
use std::alloc::{AllocError, Global};
use t1_elf::{Bytes, Chunk, Object};
use t1_encode::encode;
use t1_insn::{Insn, Src};
use t1_num::put_be;

/// The most words that are drawn for a guest.
pub const MOST_SIZE: u32 = 4000;

/// The address of a guest's first instruction.
const START: u64 = 0x1000;

/// The address of the places that all strands share.
const SHARED: u32 = 0x8000;

/// Appends the word of an instruction.
#[tactic(auto, unfolding(crate::specs::Guests::bytes_of_insn))]
fn put_insn(code: &mut Vec<u8>, insn: Insn) -> Result<(), AllocError>
    requires { IsInRange insn }
    ensures { OnOk result (code.new.items ≡ code.old.items ++ bytes_of_insn insn) }
{
    let word = encode(&insn).unwrap();
    let mut bytes = [0; 4];
    put_be(&mut bytes, 0, 4, word as u64);
    code.extend_from_slice(&bytes)
}

/// Appends the instructions of `size` drawn words.
#[tactic(auto, unfolding(crate::specs::Guests::insns_from, crate::specs::Guests::code_of))]
fn put_draws(code: &mut Vec<u8>, seed: u64, size: u32) -> Result<(), AllocError>
    ensures { OnOk result (code.new.items ≡ code.old.items ++ code_of (insns_from seed size)) }
{
    let mut draws = SplitMix64::from_seed(seed.to_le_bytes());
    for _ in 0..size {
        put_insn(code, drawn(draws.next_word()))?;
    }
    Ok(())
}

/// The bytes of a guest's instructions.
#[tactic(auto, unfolding(crate::specs::Guests::code_of))]
fn code(alloc: Global, seed: u64, size: u32) -> Result<Vec<u8>, AllocError>
    requires { size ≤ MOST_SIZE }
    ensures value { IfOk result (λ code. code.items ≡ code_of (guest_insns seed size)) }
    ensures few { IfOk result (λ code. length code.items ≤ 4 * (size + 2)) }
{
    let mut code = Vec::with_capacity(alloc, 4 * (size as usize + 2))?;
    put_insn(
        &mut code,
        Insn::Sethi {
            rd: BASE,
            imm: SHARED / 1024,
        },
    )?;
    put_draws(&mut code, seed, size)?;
    put_insn(
        &mut code,
        Insn::WriteAsr {
            asr: 26,
            rs1: 0,
            src: Src::Imm(0),
        },
    )?;
    Ok(code)
}

/// The guest of a seed: an instruction that points `%l0` at the shared places, `size` drawn ones, and
/// the halt. It takes 4 * (`size` + 2) bytes at 1000 hex, where each strand starts.
pub fn generate(alloc: Global, seed: u64, size: u32) -> Result<Object, AllocError>
    requires some { 1 ≤ size }
    requires most { size ≤ MOST_SIZE }
    ensures object { IfOk result (λ object. object ≡ generated seed size) }
    ensures savable { IfOk result IsSavable }
{
    let chunk = Chunk {
        addr: START,
        bytes: Bytes::from_vec(code(alloc, seed, size)?),
        zeros: 0,
    };
    Object::of_chunk(alloc, START, chunk)
}

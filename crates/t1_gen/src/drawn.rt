//! The instruction that a drawn word gives.
ghost use Rattle.std.specs.Prelude.{◌≡◌, ◌<◌, ◌≤◌};
ghost use Rattle.t1_insn.specs.Ranges.{IsInRange};
ghost use Rattle.t1_gen.specs.Guests.{offset_of, register_of, number_of, insn_of_draw};

use t1_insn::{AluOp, Insn, LoadKind, Mem, Src, StoreKind};

/// `%l0`, which holds the address of the places that all strands share.
pub(crate) const BASE: u8 = 16;

/// `#StoreLoad`.
const STORE_LOAD: u8 = 2;

/// A place in the shared area, by its offset in bytes.
fn offset(word: u64) -> u32
    ensures value { result ≡ offset_of word }
    ensures fits { result < 512 }
{
    (word / 8 % 64 * 8) as u32
}

/// One of the registers `%g1` to `%g4`.
fn register(word: u64) -> u8
    ensures value { result ≡ register_of word }
    ensures fits { result ≤ 4 }
{
    (word / 512 % 4) as u8 + 1
}

/// A number below 2,048.
fn number(word: u64) -> u32
    ensures value { result ≡ number_of word }
    ensures fits { result < 2048 }
{
    (word / 4096 % 2048) as u32
}

/// The instruction that a drawn word gives.
#[tactic(auto, unfolding(crate::specs::Guests::insn_of_draw))]
pub(crate) fn drawn(word: u64) -> Insn
    ensures value { result ≡ insn_of_draw word }
    ensures range { IsInRange result }
{
    let rd = register(word);
    let src = Src::Imm(number(word) as i32);
    let mem = Mem::Plain(Src::Imm(offset(word) as i32));
    match word % 8 {
        0 => Insn::Alu {
            op: AluOp::Add,
            cc: false,
            rd,
            rs1: rd,
            src,
        },
        1 => Insn::Alu {
            op: AluOp::Xor,
            cc: false,
            rd,
            rs1: rd,
            src,
        },
        2 => Insn::Load {
            kind: LoadKind::X,
            rd,
            rs1: BASE,
            mem,
        },
        3 => Insn::Store {
            kind: StoreKind::X,
            rd,
            rs1: BASE,
            mem,
        },
        4 => Insn::Load {
            kind: LoadKind::Ub,
            rd,
            rs1: BASE,
            mem,
        },
        5 => Insn::Store {
            kind: StoreKind::B,
            rd,
            rs1: BASE,
            mem,
        },
        6 => Insn::Swap { rd, rs1: BASE, mem },
        _ => Insn::Membar { mask: STORE_LOAD },
    }
}

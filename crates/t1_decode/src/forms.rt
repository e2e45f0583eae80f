//! The instructions whose forms look at more than op, op2 and op3.
ghost use Rattle.std.specs.Prelude.{◌≡◌};
ghost use Rattle.t1_insn.specs.Ranges.{IsInRange, IsMem, is_register_condition, is_read_asr, is_write_asr, is_read_privileged, is_hyperprivileged, is_write_privileged};
ghost use Rattle.t1_decode.specs.Rows.{row_of};
ghost use Rattle.t1_decode.specs.Forms.{codes_rows, bpcc_of, bpr_of, shift_of, read_asr_of, read_privileged_of, read_hyper_of, movcc_of, movr_of, write_asr_of, write_privileged_of, write_hyper_of, saved_of, done_of, trap_of, load_of, store_of, cas_of};

use crate::fields::{bit, cond, number_source, rd, rs1, rs2, signed, signed_source, source, space};
use t1_insn::{Insn, LoadKind, Mem, ShiftOp, StoreKind};
use t1_num::field;

/// Which condition codes two bits name: icc, or xcc, which is wide.
pub fn codes(number: u32) -> Option<bool>
    ensures { result ≡ row_of number codes_rows }
{
    match number {
        0 => Some(false),
        2 => Some(true),
        _ => None,
    }
}

/// Whether a number is a condition on a register.
pub fn is_rcond(rcond: u8) -> bool
    ensures { result ≡ is_register_condition rcond }
{
    matches!(rcond, 1 | 2 | 3 | 5 | 6 | 7)
}

/// A branch on condition codes with prediction (SPARC V9 A.7).
#[tactic(auto, unfolding(crate::specs::Forms::bpcc_of))]
pub fn bpcc(word: u32) -> Insn
    ensures value { result ≡ bpcc_of word }
    ensures in_range { IsInRange result }
{
    match codes(field(word, 21, 20)) {
        Some(wide) => Insn::Bpcc {
            cond: cond(word),
            annul: bit(word, 29),
            wide,
            taken: bit(word, 19),
            disp: signed(19, field(word, 18, 0)),
        },
        None => Insn::Illegal,
    }
}

/// A branch on a register with prediction (SPARC V9 A.3).
#[tactic(auto, unfolding(crate::specs::Forms::bpr_of))]
pub fn bpr(word: u32) -> Insn
    ensures value { result ≡ bpr_of word }
    ensures in_range { IsInRange result }
{
    let rcond = field(word, 27, 25) as u8;
    if bit(word, 28) || !is_rcond(rcond) {
        return Insn::Illegal;
    }
    Insn::Bpr {
        rcond,
        annul: bit(word, 29),
        taken: bit(word, 19),
        rs1: rs1(word),
        disp: signed(16, field(word, 21, 20) * (1 << 14) + field(word, 13, 0)),
    }
}

/// A shift (SPARC V9 A.49).
#[tactic(auto, unfolding(crate::specs::Forms::shift_of))]
pub fn shift(op: ShiftOp, word: u32) -> Insn
    ensures value { result ≡ shift_of op word }
    ensures in_range { IsInRange result }
{
    let wide = bit(word, 12);
    Insn::Shift {
        op,
        wide,
        rd: rd(word),
        rs1: rs1(word),
        src: if wide {
            number_source(6, word)
        } else {
            number_source(5, word)
        },
    }
}

/// A read of an ancillary state register, or a barrier (SPARC V9 A.44, A.32, A.51).
#[tactic(auto, unfolding(crate::specs::Forms::read_asr_of))]
pub fn read_asr(word: u32) -> Insn
    ensures value { result ≡ read_asr_of word }
    ensures in_range { IsInRange result }
{
    let asr = rs1(word);
    let rd = rd(word);
    match asr {
        0 | 2 | 3 | 4 | 5 | 6 | 0x16 => Insn::ReadAsr { asr, rd },
        0x0f if rd == 0 => {
            if bit(word, 13) {
                Insn::Membar {
                    mask: field(word, 6, 0) as u8,
                }
            } else {
                Insn::Stbar
            }
        }
        _ => Insn::Illegal,
    }
}

/// A read of a privileged register (SPARC V9 A.43).
#[tactic(auto, unfolding(crate::specs::Forms::read_privileged_of))]
pub fn read_privileged(word: u32) -> Insn
    ensures value { result ≡ read_privileged_of word }
    ensures in_range { IsInRange result }
{
    let reg = rs1(word);
    match reg {
        0..=0x0e | 0x10 => Insn::ReadPr { reg, rd: rd(word) },
        _ => Insn::Illegal,
    }
}

/// A read of a hyperprivileged register (UltraSPARC Architecture 2005).
#[tactic(auto, unfolding(crate::specs::Forms::read_hyper_of))]
pub fn read_hyper(word: u32) -> Insn
    ensures value { result ≡ read_hyper_of word }
    ensures in_range { IsInRange result }
{
    let reg = rs1(word);
    match reg {
        0 | 1 | 5 => Insn::ReadHpr { reg, rd: rd(word) },
        _ => Insn::Illegal,
    }
}

/// A move on condition codes (SPARC V9 A.35).
#[tactic(auto, unfolding(crate::specs::Forms::movcc_of))]
pub fn movcc(word: u32) -> Insn
    ensures value { result ≡ movcc_of word }
    ensures in_range { IsInRange result }
{
    if !bit(word, 18) {
        return Insn::FpOff;
    }
    match codes(field(word, 12, 11)) {
        Some(wide) => Insn::Movcc {
            cond: field(word, 17, 14) as u8,
            wide,
            rd: rd(word),
            src: signed_source(11, word),
        },
        None => Insn::Illegal,
    }
}

/// A move on a register (SPARC V9 A.36).
#[tactic(auto, unfolding(crate::specs::Forms::movr_of))]
pub fn movr(word: u32) -> Insn
    ensures value { result ≡ movr_of word }
    ensures in_range { IsInRange result }
{
    let rcond = field(word, 12, 10) as u8;
    if !is_rcond(rcond) {
        return Insn::Illegal;
    }
    Insn::Movr {
        rcond,
        rd: rd(word),
        rs1: rs1(word),
        src: signed_source(10, word),
    }
}

/// A write of an ancillary state register (SPARC V9 A.63).
#[tactic(auto, unfolding(crate::specs::Forms::write_asr_of))]
pub fn write_asr(word: u32) -> Insn
    ensures value { result ≡ write_asr_of word }
    ensures in_range { IsInRange result }
{
    let asr = rd(word);
    match asr {
        0 | 2 | 3 | 6 | 0x14 | 0x15 | 0x16 | 0x1a => Insn::WriteAsr {
            asr,
            rs1: rs1(word),
            src: source(word),
        },
        _ => Insn::Illegal,
    }
}

/// A write of a privileged register (SPARC V9 A.62).
#[tactic(auto, unfolding(crate::specs::Forms::write_privileged_of))]
pub fn write_privileged(word: u32) -> Insn
    ensures value { result ≡ write_privileged_of word }
    ensures in_range { IsInRange result }
{
    let reg = rd(word);
    match reg {
        0..=3 | 5..=0x0e | 0x10 => Insn::WritePr {
            reg,
            rs1: rs1(word),
            src: source(word),
        },
        _ => Insn::Illegal,
    }
}

/// A write of a hyperprivileged register (UltraSPARC Architecture 2005).
#[tactic(auto, unfolding(crate::specs::Forms::write_hyper_of))]
pub fn write_hyper(word: u32) -> Insn
    ensures value { result ≡ write_hyper_of word }
    ensures in_range { IsInRange result }
{
    let reg = rd(word);
    match reg {
        0 | 1 | 5 => Insn::WriteHpr {
            reg,
            rs1: rs1(word),
            src: source(word),
        },
        _ => Insn::Illegal,
    }
}

/// Saved or restored, as rd says (SPARC V9 A.47).
#[tactic(auto, unfolding(crate::specs::Forms::saved_of))]
pub fn saved(word: u32) -> Insn
    ensures value { result ≡ saved_of word }
    ensures in_range { IsInRange result }
{
    match rd(word) {
        0 => Insn::Saved,
        1 => Insn::Restored,
        _ => Insn::Illegal,
    }
}

/// Done or retry, as rd says (SPARC V9 A.11).
#[tactic(auto, unfolding(crate::specs::Forms::done_of))]
pub fn done(word: u32) -> Insn
    ensures value { result ≡ done_of word }
    ensures in_range { IsInRange result }
{
    match rd(word) {
        0 => Insn::Done,
        1 => Insn::Retry,
        _ => Insn::Illegal,
    }
}

/// A trap on condition codes (SPARC V9 A.61).
#[tactic(auto, unfolding(crate::specs::Forms::trap_of))]
pub fn trap(word: u32) -> Insn
    ensures value { result ≡ trap_of word }
    ensures in_range { IsInRange result }
{
    match codes(field(word, 12, 11)) {
        Some(wide) => Insn::Trap {
            cond: cond(word),
            wide,
            rs1: rs1(word),
            src: number_source(8, word),
        },
        None => Insn::Illegal,
    }
}

/// A load (SPARC V9 A.27, A.28).
#[tactic(auto, unfolding(crate::specs::Forms::load_of))]
pub fn load(kind: LoadKind, word: u32, mem: Mem) -> Insn
    requires { IsMem mem }
    ensures value { result ≡ load_of kind word mem }
    ensures in_range { IsInRange result }
{
    let rd = rd(word);
    match kind {
        LoadKind::Tw if rd % 2 == 1 => Insn::Illegal,
        _ => Insn::Load {
            kind,
            rd,
            rs1: rs1(word),
            mem,
        },
    }
}

/// A store (SPARC V9 A.54, A.55).
#[tactic(auto, unfolding(crate::specs::Forms::store_of))]
pub fn store(kind: StoreKind, word: u32, mem: Mem) -> Insn
    requires { IsMem mem }
    ensures value { result ≡ store_of kind word mem }
    ensures in_range { IsInRange result }
{
    let rd = rd(word);
    match kind {
        StoreKind::Tw if rd % 2 == 1 => Insn::Illegal,
        _ => Insn::Store {
            kind,
            rd,
            rs1: rs1(word),
            mem,
        },
    }
}

/// A compare and swap (SPARC V9 A.9).
#[tactic(auto, unfolding(crate::specs::Forms::cas_of))]
pub fn cas(wide: bool, word: u32) -> Insn
    ensures value { result ≡ cas_of wide word }
    ensures in_range { IsInRange result }
{
    Insn::Cas {
        wide,
        rd: rd(word),
        rs1: rs1(word),
        rs2: rs2(word),
        asi: space(word),
    }
}

//! Instructions to words, form by form.
ghost use Rattle.std.specs.Prelude.{◌≡◌, ◌<◌, ◌^◌, ◌↔◌, IsSome, IfSome};
ghost use Rattle.t1_insn.specs.Ranges.{IsInRange};
ghost use Rattle.t1_decode.specs.Words.{insn_of};
ghost use Rattle.t1_encode.specs.Fields.{word_of, number_bits, source_bits, mem_bits};
ghost use Rattle.t1_encode.specs.Numbers.{access_number as op3_of_access};
ghost use Rattle.t1_encode.specs.Words.{format_3 as fields_3, encoded};

use crate::fields::{
    codes, condition, flag, hyper, load_register, number, number_source, operand, read_asr,
    read_privileged, register, register_condition, signed, source, space, store_register,
    write_asr, write_privileged,
};
use crate::numbers::{access_number, alu_number, load_number, shift_number, store_number};
use t1_insn::{AluOp, Insn, LoadKind, Mem, ShiftOp, Src, StoreKind};

/// The word of an instruction (SPARC V9, appendices A and E, and UltraSPARC Architecture 2005, in
/// this project's profile), with its reserved bits 0; `None` where a field is out of its range.
pub fn encode(insn: &Insn) -> Option<u32>
    ensures value { result ≡ encoded insn.now }
    ensures none { IsSome result ↔ IsInRange insn.now }
    ensures again { IfSome result (λ word. insn_of word ≡ insn.now) }
{
    word(insn)
}

/// The word, form by form.
#[tactic(auto, unfolding(crate::specs::Words::encoded, crate::specs::Words::fields_of))]
fn word(insn: &Insn) -> Option<u32>
    ensures { result ≡ encoded insn.now }
{
    match *insn {
        Insn::Illegal => Some(0),
        Insn::FpOff => Some(0x81a0_0000),
        Insn::Bpcc {
            cond,
            annul,
            wide,
            taken,
            disp,
        } => bpcc(cond, annul, wide, taken, disp),
        Insn::Bicc { cond, annul, disp } => bicc(cond, annul, disp),
        Insn::Bpr {
            rcond,
            annul,
            taken,
            rs1,
            disp,
        } => bpr(rcond, annul, taken, rs1, disp),
        Insn::Sethi { rd, imm } => sethi(rd, imm),
        Insn::Call { disp } => call(disp),
        Insn::Alu {
            op,
            cc,
            rd,
            rs1,
            src,
        } => alu(op, cc, rd, rs1, src),
        Insn::Shift {
            op,
            wide,
            rd,
            rs1,
            src,
        } => shift(op, wide, rd, rs1, src),
        Insn::ReadAsr { asr, rd } => Some(format_3(2, register(rd)?, 0x28, read_asr(asr)?, 0)),
        Insn::Membar { mask } => membar(mask),
        Insn::Stbar => Some(format_3(2, 0, 0x28, 15, 0)),
        Insn::ReadPr { reg, rd } => {
            Some(format_3(2, register(rd)?, 0x2a, read_privileged(reg)?, 0))
        }
        Insn::ReadHpr { reg, rd } => { Some(format_3(2, register(rd)?, 0x29, hyper(reg)?, 0)) }
        Insn::Flushw => Some(format_3(2, 0, 0x2b, 0, 0)),
        Insn::Movcc {
            cond,
            wide,
            rd,
            src,
        } => movcc(cond, wide, rd, src),
        Insn::Movr {
            rcond,
            rd,
            rs1,
            src,
        } => movr(rcond, rd, rs1, src),
        Insn::WriteAsr { asr, rs1, src } => operands(write_asr(asr)?, 0x30, rs1, src),
        Insn::Saved => Some(format_3(2, 0, 0x31, 0, 0)),
        Insn::Restored => Some(format_3(2, 1, 0x31, 0, 0)),
        Insn::WritePr { reg, rs1, src } => operands(write_privileged(reg)?, 0x32, rs1, src),
        Insn::WriteHpr { reg, rs1, src } => operands(hyper(reg)?, 0x33, rs1, src),
        Insn::Jmpl { rd, rs1, src } => operands(register(rd)?, 0x38, rs1, src),
        Insn::Return { rs1, src } => operands(0, 0x39, rs1, src),
        Insn::Trap {
            cond,
            wide,
            rs1,
            src,
        } => trap(cond, wide, rs1, src),
        Insn::Flush { rs1, src } => operands(0, 0x3b, rs1, src),
        Insn::Save { rd, rs1, src } => operands(register(rd)?, 0x3c, rs1, src),
        Insn::Restore { rd, rs1, src } => operands(register(rd)?, 0x3d, rs1, src),
        Insn::Done => Some(format_3(2, 0, 0x3e, 0, 0)),
        Insn::Retry => Some(format_3(2, 1, 0x3e, 0, 0)),
        Insn::Load { kind, rd, rs1, mem } => {
            access(load_register(kind, rd)?, load_number(kind), rs1, mem)
        }
        Insn::Store { kind, rd, rs1, mem } => {
            access(store_register(kind, rd)?, store_number(kind), rs1, mem)
        }
        Insn::Ldstub { rd, rs1, mem } => access(register(rd)?, 0x0d, rs1, mem),
        Insn::Swap { rd, rs1, mem } => access(register(rd)?, 0x0f, rs1, mem),
        Insn::Prefetch { fcn, rs1, mem } => access(register(fcn)?, 0x2d, rs1, mem),
        Insn::Cas {
            wide,
            rd,
            rs1,
            rs2,
            asi,
        } => cas(wide, rd, rs1, rs2, asi),
    }
}

/// Format 3: op, rd, op3, rs1, and from bit 13 down the second operand.
fn format_3(op: u32, rd: u32, op3: u32, rs1: u32, operand: u32) -> u32
    requires op { op < 4 }
    requires rd { rd < 32 }
    requires op3 { op3 < 64 }
    requires rs1 { rs1 < 32 }
    requires operand { operand < 2 ^ 14 }
    ensures { Some result ≡ word_of (fields_3 op (Some rd) (Some op3) (Some rs1) (Some operand)) }
{
    op * (1 << 30) + rd * (1 << 25) + op3 * (1 << 19) + rs1 * (1 << 14) + operand
}

/// The format 3 of op 2 with a second operand of thirteen signed bits.
fn operands(rd: u32, op3: u32, rs1: u8, src: Src) -> Option<u32>
    requires rd { rd < 32 }
    requires op3 { op3 < 64 }
    ensures { result ≡ word_of (fields_3 2 (Some rd) (Some op3) (number_bits 5 rs1) (source_bits 13 src)) }
{
    Some(format_3(2, rd, op3, register(rs1)?, source(13, src)?))
}

/// The format 3 of an access, plain or alternate, whose plain form has `op3`.
fn access(rd: u32, op3: u32, rs1: u8, mem: Mem) -> Option<u32>
    requires rd { rd < 32 }
    requires op3 { op3 < 0x30 }
    ensures { result ≡ word_of (fields_3 3 (Some rd) (Some (op3_of_access mem op3)) (number_bits 5 rs1) (mem_bits mem)) }
{
    Some(format_3(
        3,
        rd,
        access_number(mem, op3),
        register(rs1)?,
        operand(mem)?,
    ))
}

/// Arithmetic and logic.
#[tactic(auto, unfolding(crate::specs::Words::encoded, crate::specs::Words::fields_of))]
fn alu(op: AluOp, cc: bool, rd: u8, rs1: u8, src: Src) -> Option<u32>
    ensures { result ≡ encoded (Insn.Alu op cc rd rs1 src) }
{
    operands(register(rd)?, alu_number(op, cc)?, rs1, src)
}

/// A branch on condition codes with prediction.
#[tactic(auto, unfolding(crate::specs::Words::encoded, crate::specs::Words::fields_of))]
fn bpcc(cond: u8, annul: bool, wide: bool, taken: bool, disp: i32) -> Option<u32>
    ensures { result ≡ encoded (Insn.Bpcc cond annul wide taken disp) }
{
    let cond = condition(cond)?;
    let disp = signed(19, disp)?;
    Some(
        flag(annul) * (1 << 29)
            + cond * (1 << 25)
            + (1 << 22)
            + codes(wide) * (1 << 20)
            + flag(taken) * (1 << 19)
            + disp,
    )
}

/// A branch on icc.
#[tactic(auto, unfolding(crate::specs::Words::encoded, crate::specs::Words::fields_of))]
fn bicc(cond: u8, annul: bool, disp: i32) -> Option<u32>
    ensures { result ≡ encoded (Insn.Bicc cond annul disp) }
{
    let cond = condition(cond)?;
    let disp = signed(22, disp)?;
    Some(flag(annul) * (1 << 29) + cond * (1 << 25) + 2 * (1 << 22) + disp)
}

/// A branch on a register with prediction: the displacement stands in two fields.
#[tactic(auto, unfolding(crate::specs::Words::encoded, crate::specs::Words::fields_of))]
fn bpr(rcond: u8, annul: bool, taken: bool, rs1: u8, disp: i32) -> Option<u32>
    ensures { result ≡ encoded (Insn.Bpr rcond annul taken rs1 disp) }
{
    let rcond = register_condition(rcond)?;
    let rs1 = register(rs1)?;
    let disp = signed(16, disp)?;
    Some(
        flag(annul) * (1 << 29)
            + rcond * (1 << 25)
            + 3 * (1 << 22)
            + disp / (1 << 14) * (1 << 20)
            + flag(taken) * (1 << 19)
            + rs1 * (1 << 14)
            + disp % (1 << 14),
    )
}

/// Sethi.
#[tactic(auto, unfolding(crate::specs::Words::encoded, crate::specs::Words::fields_of))]
fn sethi(rd: u8, imm: u32) -> Option<u32>
    ensures { result ≡ encoded (Insn.Sethi rd imm) }
{
    Some(register(rd)? * (1 << 25) + 4 * (1 << 22) + number(22, imm)?)
}

/// A call.
#[tactic(auto, unfolding(crate::specs::Words::encoded, crate::specs::Words::fields_of))]
fn call(disp: i32) -> Option<u32>
    ensures { result ≡ encoded (Insn.Call disp) }
{
    Some((1 << 30) + signed(30, disp)?)
}

/// A shift.
#[tactic(auto, unfolding(crate::specs::Words::encoded, crate::specs::Words::fields_of))]
fn shift(op: ShiftOp, wide: bool, rd: u8, rs1: u8, src: Src) -> Option<u32>
    ensures { result ≡ encoded (Insn.Shift op wide rd rs1 src) }
{
    let rd = register(rd)?;
    let rs1 = register(rs1)?;
    let count = number_source(if wide { 6 } else { 5 }, src)?;
    Some(format_3(2, rd, shift_number(op), rs1, 0) + flag(wide) * (1 << 12) + count)
}

/// A memory barrier.
#[tactic(auto, unfolding(crate::specs::Words::encoded, crate::specs::Words::fields_of))]
fn membar(mask: u8) -> Option<u32>
    ensures { result ≡ encoded (Insn.Membar mask) }
{
    Some(format_3(2, 0, 0x28, 15, (1 << 13) + number(7, mask as u32)?))
}

/// A move on condition codes.
#[tactic(auto, unfolding(crate::specs::Words::encoded, crate::specs::Words::fields_of))]
fn movcc(cond: u8, wide: bool, rd: u8, src: Src) -> Option<u32>
    ensures { result ≡ encoded (Insn.Movcc cond wide rd src) }
{
    let rd = register(rd)?;
    let cond = condition(cond)?;
    let src = source(11, src)?;
    Some(
        2 * (1 << 30)
            + rd * (1 << 25)
            + 0x2c * (1 << 19)
            + (1 << 18)
            + cond * (1 << 14)
            + codes(wide) * (1 << 11)
            + src,
    )
}

/// A move on a register.
#[tactic(auto, unfolding(crate::specs::Words::encoded, crate::specs::Words::fields_of))]
fn movr(rcond: u8, rd: u8, rs1: u8, src: Src) -> Option<u32>
    ensures { result ≡ encoded (Insn.Movr rcond rd rs1 src) }
{
    let rd = register(rd)?;
    let rs1 = register(rs1)?;
    let rcond = register_condition(rcond)?;
    let src = source(10, src)?;
    Some(format_3(2, rd, 0x2f, rs1, 0) + rcond * (1 << 10) + src)
}

/// A trap on condition codes.
#[tactic(auto, unfolding(crate::specs::Words::encoded, crate::specs::Words::fields_of))]
fn trap(cond: u8, wide: bool, rs1: u8, src: Src) -> Option<u32>
    ensures { result ≡ encoded (Insn.Trap cond wide rs1 src) }
{
    let cond = condition(cond)?;
    let rs1 = register(rs1)?;
    let src = number_source(8, src)?;
    Some(format_3(2, cond, 0x3a, rs1, 0) + codes(wide) * (1 << 11) + src)
}

/// A compare and swap.
#[tactic(auto, unfolding(crate::specs::Words::encoded, crate::specs::Words::fields_of))]
fn cas(wide: bool, rd: u8, rs1: u8, rs2: u8, asi: Option<u8>) -> Option<u32>
    ensures { result ≡ encoded (Insn.Cas wide rd rs1 rs2 asi) }
{
    let rd = register(rd)?;
    let rs1 = register(rs1)?;
    let op3 = if wide { 0x3e } else { 0x3c };
    Some(format_3(3, rd, op3, rs1, space(rs2, asi)?))
}

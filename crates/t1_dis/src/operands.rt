// The shape of each instruction's operands in its text, and what they say.
ghost use Rattle.std.specs.Prelude.{◌≡◌, ◌<◌};
ghost use Rattle.t1_dis.specs.Operands.{load_shape, store_shape, prefetch_shape, cas_shape, shape_of, value_of, source_of, mem_source, mem_asi, cas_asi, target_of, fields_of};

use t1_form::Shape;
use t1_insn::{Insn, Mem, Src};
use t1_operand::{Fields, Source};

fn load(mem: Mem) -> Shape
    ensures { result ≡ load_shape mem }
{
    match mem {
        Mem::Plain(_) => Shape::Load,
        Mem::Alt { .. } => Shape::LoadNamed,
        Mem::AltReg { .. } => Shape::LoadAsi,
    }
}

fn store(mem: Mem) -> Shape
    ensures { result ≡ store_shape mem }
{
    match mem {
        Mem::Plain(_) => Shape::Store,
        Mem::Alt { .. } => Shape::StoreNamed,
        Mem::AltReg { .. } => Shape::StoreAsi,
    }
}

fn prefetch(mem: Mem) -> Shape
    ensures { result ≡ prefetch_shape mem }
{
    match mem {
        Mem::Plain(_) => Shape::Fetch,
        Mem::Alt { .. } => Shape::FetchNamed,
        Mem::AltReg { .. } => Shape::FetchAsi,
    }
}

fn cas(asi: Option<u8>) -> Shape
    ensures { result ≡ cas_shape asi }
{
    match asi {
        Some(_) => Shape::ComparedNamed,
        None => Shape::ComparedAsi,
    }
}

/// The shape of an instruction's operands.
#[tactic(auto, unfolding(crate::specs::Operands::shape_of))]
pub fn shape(insn: Insn) -> Shape
    ensures { result ≡ shape_of insn }
{
    match insn {
        Insn::Bpcc { .. } => Shape::BranchCodes,
        Insn::Bicc { .. } => Shape::BranchIcc,
        Insn::Bpr { .. } => Shape::BranchRegister,
        Insn::Sethi { .. } => Shape::NumberRd,
        Insn::Call { .. } => Shape::Target,
        Insn::Membar { .. } => Shape::BarrierNumber,
        Insn::Alu { .. }
        | Insn::Shift { .. }
        | Insn::Movr { .. }
        | Insn::Save { .. }
        | Insn::Restore { .. } => Shape::Three,
        Insn::ReadAsr { .. } => Shape::ReadState,
        Insn::WriteAsr { .. } => Shape::WriteState,
        Insn::ReadPr { .. } => Shape::ReadPrivileged,
        Insn::WritePr { .. } => Shape::WritePrivileged,
        Insn::Movcc { .. } => Shape::MoveCodes,
        Insn::Jmpl { .. } => Shape::JumpRd,
        Insn::Return { .. } | Insn::Flush { .. } => Shape::Jump,
        Insn::Trap { .. } => Shape::TrapCodes,
        Insn::Load { mem, .. } | Insn::Ldstub { mem, .. } | Insn::Swap { mem, .. } => load(mem),
        Insn::Store { mem, .. } => store(mem),
        Insn::Prefetch { mem, .. } => prefetch(mem),
        Insn::Cas { asi, .. } => cas(asi),
        _ => Shape::Nothing,
    }
}

/// An immediate as a 64-bit value.
fn value(imm: i32) -> u64
    ensures { result ≡ value_of imm }
{
    if imm < 0 {
        u64::MAX - (imm.unsigned_abs() - 1) as u64
    } else {
        imm.unsigned_abs() as u64
    }
}

fn source(src: Src) -> Source
    ensures { result ≡ source_of src }
{
    match src {
        Src::Reg(r) => Source::Register(r),
        Src::Imm(imm) => Source::Value(Some(value(imm))),
    }
}

fn source_in(mem: Mem) -> Source
    ensures { result ≡ mem_source mem }
{
    match mem {
        Mem::Plain(src) => source(src),
        Mem::Alt { rs2, .. } => Source::Register(rs2),
        Mem::AltReg { imm } => Source::Value(Some(value(imm))),
    }
}

fn asi_in(mem: Mem) -> Option<u64>
    ensures { result ≡ mem_asi mem }
{
    match mem {
        Mem::Alt { asi, .. } => Some(asi as u64),
        _ => Some(0),
    }
}

fn asi_of_cas(asi: Option<u8>) -> Option<u64>
    ensures { result ≡ cas_asi asi }
{
    match asi {
        Some(asi) => Some(asi as u64),
        None => Some(0),
    }
}

/// So many words away, modulo 2^64.
#[tactic(auto, unfolding(crate::specs::Operands::target_of))]
fn target(addr: u64, disp: i32) -> u64
    ensures { result ≡ target_of addr disp }
{
    if disp < 0 {
        addr.wrapping_sub(4 * disp.unsigned_abs() as u64)
    } else {
        addr.wrapping_add(4 * disp.unsigned_abs() as u64)
    }
}

const NONE: Fields = Fields {
    rd: 0,
    rs1: 0,
    source: Source::Register(0),
    value: Some(0),
    extra: Some(0),
    number: 0,
    annul: false,
    taken: true,
    wide: false,
};

/// What the operands of an instruction at an address say.
#[tactic(auto, unfolding(crate::specs::Operands::fields_of))]
pub fn fields(addr: u64, insn: Insn) -> Fields
    ensures { result ≡ fields_of addr insn }
{
    match insn {
        Insn::Bpcc {
            annul,
            wide,
            taken,
            disp,
            ..
        } => Fields {
            annul,
            wide,
            taken,
            value: Some(target(addr, disp)),
            ..NONE
        },
        Insn::Bicc { annul, disp, .. } => Fields {
            annul,
            value: Some(target(addr, disp)),
            ..NONE
        },
        Insn::Bpr {
            annul,
            taken,
            rs1,
            disp,
            ..
        } => Fields {
            annul,
            taken,
            rs1,
            value: Some(target(addr, disp)),
            ..NONE
        },
        Insn::Sethi { rd, imm } => Fields {
            rd,
            value: Some(imm as u64),
            ..NONE
        },
        Insn::Call { disp } => Fields {
            value: Some(target(addr, disp)),
            ..NONE
        },
        Insn::Membar { mask } => Fields {
            value: Some(mask as u64),
            ..NONE
        },
        Insn::Alu { rd, rs1, src, .. }
        | Insn::Shift { rd, rs1, src, .. }
        | Insn::Movr { rd, rs1, src, .. }
        | Insn::Jmpl { rd, rs1, src }
        | Insn::Save { rd, rs1, src }
        | Insn::Restore { rd, rs1, src } => Fields {
            rd,
            rs1,
            source: source(src),
            ..NONE
        },
        Insn::Return { rs1, src } | Insn::Flush { rs1, src } => Fields {
            rs1,
            source: source(src),
            ..NONE
        },
        Insn::ReadAsr { asr, rd } => Fields {
            rd,
            number: asr,
            ..NONE
        },
        Insn::WriteAsr { asr, rs1, src } => Fields {
            rs1,
            source: source(src),
            number: asr,
            ..NONE
        },
        Insn::ReadPr { reg, rd } => Fields {
            rd,
            number: reg,
            ..NONE
        },
        Insn::WritePr { reg, rs1, src } => Fields {
            rs1,
            source: source(src),
            number: reg,
            ..NONE
        },
        Insn::Movcc { wide, rd, src, .. } => Fields {
            rd,
            source: source(src),
            wide,
            ..NONE
        },
        Insn::Trap { wide, rs1, src, .. } => Fields {
            rs1,
            source: source(src),
            wide,
            ..NONE
        },
        Insn::Load { rd, rs1, mem, .. }
        | Insn::Store { rd, rs1, mem, .. }
        | Insn::Ldstub { rd, rs1, mem }
        | Insn::Swap { rd, rs1, mem } => Fields {
            rd,
            rs1,
            source: source_in(mem),
            value: asi_in(mem),
            ..NONE
        },
        Insn::Prefetch { fcn, rs1, mem } => Fields {
            rs1,
            source: source_in(mem),
            value: asi_in(mem),
            extra: Some(fcn as u64),
            ..NONE
        },
        Insn::Cas {
            rd,
            rs1,
            rs2,
            asi,
            ..
        } => Fields {
            rd,
            rs1,
            source: Source::Register(rs2),
            value: asi_of_cas(asi),
            ..NONE
        },
        _ => NONE,
    }
}

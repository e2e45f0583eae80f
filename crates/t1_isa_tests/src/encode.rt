//! Words of the manuals' pictures of the formats, and the ends of the ranges.

use std::test::Fail;
use t1_decode::decode;
use t1_encode::encode;
use t1_insn::AluOp::{Add, Mulscc, Mulx, Sdivx, Sub, Taddcc};
use t1_insn::Mem::{Alt, AltReg, Plain};
use t1_insn::ShiftOp::{Sll, Sra, Srl};
use t1_insn::Src::{Imm, Reg};
use t1_insn::{Insn, LoadKind, StoreKind};

macro_rules! words {
    ($($word:literal $form:ident $({ $($field:ident: $value:expr),* })?;)*) => {
        &[$(($word, Insn::$form $({ $($field: $value),* })?)),*]
    };
}

macro_rules! insns {
    ($($form:ident { $($field:ident: $value:expr),* };)*) => {
        &[$(Insn::$form { $($field: $value),* }),*]
    };
}

// `add %g1, 1, %g2`, `sethi %hi(0x12345400), %g1`, `retl`, `save %sp, -96, %sp`,
// `membar #StoreLoad`, `ta 1` and `wr %g0, 0, %asr26`, and one word or more of each form.
const WORDS: &[(u32, Insn)] = words! {
    0x84006001 Alu { op: Add, cc: false, rd: 2, rs1: 1, src: Imm(1) };
    0x03048d15 Sethi { rd: 1, imm: 298261 };
    0x81c3e008 Jmpl { rd: 0, rs1: 15, src: Imm(8) };
    0x9de3bfa0 Save { rd: 14, rs1: 14, src: Imm(-96) };
    0x8143e002 Membar { mask: 2 };
    0x91d02001 Trap { cond: 8, wide: false, rs1: 0, src: Imm(1) };
    0xb5802000 WriteAsr { asr: 26, rs1: 0, src: Imm(0) };
    0x10680000 Bpcc { cond: 8, annul: false, wide: true, taken: true, disp: 0 };
    0x12800003 Bicc { cond: 9, annul: false, disp: 3 };
    0x02ca4005 Bpr { rcond: 1, annul: false, taken: true, rs1: 9, disp: 5 };
    0x40000000 Call { disp: 0 };
    0xa000401f Alu { op: Add, cc: false, rd: 16, rs1: 1, src: Reg(31) };
    0x83288003 Shift { op: Sll, wide: false, rd: 1, rs1: 2, src: Reg(3) };
    0x8328b03f Shift { op: Sll, wide: true, rd: 1, rs1: 2, src: Imm(63) };
    0x83400000 ReadAsr { asr: 0, rd: 1 };
    0x8143c000 Stbar;
    0x85500000 ReadPr { reg: 0, rd: 2 };
    0x97494000 ReadHpr { reg: 5, rd: 11 };
    0x81580000 Flushw;
    0x81804002 WriteAsr { asr: 0, rs1: 1, src: Reg(2) };
    0x81906000 WritePr { reg: 0, rs1: 1, src: Imm(0) };
    0x839ae007 WriteHpr { reg: 1, rs1: 11, src: Imm(7) };
    0x83664002 Movcc { cond: 9, wide: false, rd: 1, src: Reg(2) };
    0x83647400 Movcc { cond: 1, wide: true, rd: 1, src: Imm(-1024) };
    0x87790405 Movr { rcond: 1, rd: 3, rs1: 4, src: Reg(5) };
    0x87792a00 Movr { rcond: 2, rd: 3, rs1: 4, src: Imm(-512) };
    0x81880000 Saved;
    0x83880000 Restored;
    0x9fc04002 Jmpl { rd: 15, rs1: 1, src: Reg(2) };
    0x81cfe008 Return { rs1: 31, src: Imm(8) };
    0x81cfc001 Return { rs1: 31, src: Reg(1) };
    0x9fd0c004 Trap { cond: 15, wide: false, rs1: 3, src: Reg(4) };
    0x81d87ff8 Flush { rs1: 1, src: Imm(-8) };
    0x81d84002 Flush { rs1: 1, src: Reg(2) };
    0x83e08003 Save { rd: 1, rs1: 2, src: Reg(3) };
    0x81e80000 Restore { rd: 0, rs1: 0, src: Reg(0) };
    0x91ea2001 Restore { rd: 8, rs1: 8, src: Imm(1) };
    0x81f00000 Done;
    0x83f00000 Retry;
    0xc0004002 Load { kind: LoadKind::Uw, rd: 0, rs1: 1, mem: Plain(Reg(2)) };
    0xc408bff8 Load { kind: LoadKind::Ub, rd: 2, rs1: 2, mem: Plain(Imm(-8)) };
    0xd0214006 Store { kind: StoreKind::W, rd: 8, rs1: 5, mem: Plain(Reg(6)) };
    0xd429bfd8 Store { kind: StoreKind::B, rd: 10, rs1: 6, mem: Plain(Imm(-40)) };
    0xf46bbf98 Ldstub { rd: 26, rs1: 14, mem: Plain(Imm(-104)) };
    0xfc7c3f88 Swap { rd: 30, rs1: 16, mem: Plain(Imm(-120)) };
    0xfc807000 Load { kind: LoadKind::Uw, rd: 30, rs1: 1, mem: AltReg { imm: -4096 } };
    0xf888903e Load { kind: LoadKind::Ub, rd: 28, rs1: 2, mem: Alt { rs2: 30, asi: 129 } };
    0xeca17040 Store { kind: StoreKind::W, rd: 22, rs1: 5, mem: AltReg { imm: -4032 } };
    0xe8a990ba Store { kind: StoreKind::B, rd: 20, rs1: 6, mem: Alt { rs2: 26, asi: 133 } };
    0xc8eb91b2 Ldstub { rd: 4, rs1: 14, mem: Alt { rs2: 18, asi: 141 } };
    0xc0fc11f0 Swap { rd: 0, rs1: 16, mem: Alt { rs2: 16, asi: 143 } };
    0xe9686040 Prefetch { fcn: 20, rs1: 1, mem: Plain(Imm(64)) };
    0xc1684002 Prefetch { fcn: 0, rs1: 1, mem: Plain(Reg(2)) };
    0xc7e91045 Prefetch { fcn: 3, rs1: 4, mem: Alt { rs2: 5, asi: 130 } };
    0xffe92fff Prefetch { fcn: 31, rs1: 4, mem: AltReg { imm: 4095 } };
    0xc5e05003 Cas { wide: false, rd: 2, rs1: 1, rs2: 3, asi: Some(128) };
    0xc5e06003 Cas { wide: false, rd: 2, rs1: 1, rs2: 3, asi: None };
    0x00000000 Illegal;
    0x81a00000 FpOff;
};

// The ends of each range.
const IN_RANGE: &[Insn] = insns! {
    Alu { op: Add, cc: false, rd: 0, rs1: 0, src: Reg(0) };
    Alu { op: Add, cc: false, rd: 31, rs1: 31, src: Reg(31) };
    Alu { op: Sub, cc: true, rd: 1, rs1: 2, src: Imm(-4096) };
    Alu { op: Sub, cc: true, rd: 1, rs1: 2, src: Imm(4095) };
    Alu { op: Mulx, cc: false, rd: 1, rs1: 2, src: Reg(3) };
    Alu { op: Mulscc, cc: true, rd: 1, rs1: 2, src: Reg(3) };
    Shift { op: Sll, wide: false, rd: 1, rs1: 2, src: Imm(0) };
    Shift { op: Sll, wide: false, rd: 1, rs1: 2, src: Imm(31) };
    Shift { op: Sra, wide: true, rd: 1, rs1: 2, src: Imm(0) };
    Shift { op: Sra, wide: true, rd: 1, rs1: 2, src: Imm(63) };
    Bpcc { cond: 15, annul: true, wide: true, taken: true, disp: -262144 };
    Bpcc { cond: 0, annul: false, wide: false, taken: false, disp: 262143 };
    Bicc { cond: 15, annul: true, disp: -2097152 };
    Bicc { cond: 0, annul: false, disp: 2097151 };
    Bpr { rcond: 1, annul: true, taken: true, rs1: 31, disp: -32768 };
    Bpr { rcond: 7, annul: false, taken: false, rs1: 0, disp: 32767 };
    Call { disp: -536870912 };
    Call { disp: 536870911 };
    Sethi { rd: 31, imm: 0 };
    Sethi { rd: 0, imm: 4194303 };
    Membar { mask: 0 };
    Membar { mask: 127 };
    ReadAsr { asr: 0, rd: 31 };
    ReadAsr { asr: 22, rd: 0 };
    WriteAsr { asr: 0, rs1: 31, src: Imm(-4096) };
    WriteAsr { asr: 26, rs1: 0, src: Reg(31) };
    ReadPr { reg: 0, rd: 31 };
    ReadPr { reg: 16, rd: 0 };
    WritePr { reg: 0, rs1: 31, src: Imm(4095) };
    WritePr { reg: 16, rs1: 0, src: Reg(31) };
    ReadHpr { reg: 0, rd: 31 };
    WriteHpr { reg: 5, rs1: 31, src: Imm(-4096) };
    Movcc { cond: 0, wide: false, rd: 31, src: Imm(-1024) };
    Movcc { cond: 15, wide: true, rd: 0, src: Imm(1023) };
    Movr { rcond: 1, rd: 31, rs1: 0, src: Imm(-512) };
    Movr { rcond: 7, rd: 0, rs1: 31, src: Imm(511) };
    Trap { cond: 0, wide: true, rs1: 31, src: Imm(0) };
    Trap { cond: 15, wide: false, rs1: 0, src: Imm(255) };
    Load { kind: LoadKind::Tw, rd: 30, rs1: 31, mem: AltReg { imm: -4096 } };
    Store { kind: StoreKind::Tw, rd: 30, rs1: 31, mem: Alt { rs2: 31, asi: 255 } };
    Load { kind: LoadKind::X, rd: 31, rs1: 0, mem: AltReg { imm: 4095 } };
    Prefetch { fcn: 31, rs1: 0, mem: Plain(Imm(4095)) };
    Cas { wide: true, rd: 31, rs1: 31, rs2: 31, asi: Some(255) };
};

// One outside of each range.
const OUT_OF_RANGE: &[Insn] = insns! {
    Alu { op: Add, cc: false, rd: 2, rs1: 1, src: Imm(4096) };
    Alu { op: Add, cc: false, rd: 2, rs1: 1, src: Imm(-4097) };
    Alu { op: Add, cc: false, rd: 32, rs1: 1, src: Reg(3) };
    Alu { op: Add, cc: false, rd: 2, rs1: 32, src: Reg(3) };
    Alu { op: Add, cc: false, rd: 2, rs1: 1, src: Reg(32) };
    Alu { op: Mulx, cc: true, rd: 1, rs1: 2, src: Reg(3) };
    Alu { op: Sdivx, cc: true, rd: 1, rs1: 2, src: Reg(3) };
    Alu { op: Taddcc, cc: false, rd: 1, rs1: 2, src: Reg(3) };
    Alu { op: Mulscc, cc: false, rd: 1, rs1: 2, src: Reg(3) };
    Shift { op: Sll, wide: false, rd: 1, rs1: 2, src: Imm(32) };
    Shift { op: Srl, wide: true, rd: 1, rs1: 2, src: Imm(64) };
    Shift { op: Sra, wide: true, rd: 1, rs1: 2, src: Imm(-1) };
    Bpcc { cond: 16, annul: false, wide: false, taken: true, disp: 0 };
    Bpcc { cond: 8, annul: false, wide: false, taken: true, disp: 262144 };
    Bpcc { cond: 8, annul: false, wide: false, taken: true, disp: -262145 };
    Bicc { cond: 16, annul: false, disp: 0 };
    Bicc { cond: 8, annul: false, disp: 2097152 };
    Bicc { cond: 8, annul: false, disp: -2097153 };
    Bpr { rcond: 0, annul: false, taken: true, rs1: 1, disp: 0 };
    Bpr { rcond: 4, annul: false, taken: true, rs1: 1, disp: 0 };
    Bpr { rcond: 8, annul: false, taken: true, rs1: 1, disp: 0 };
    Bpr { rcond: 1, annul: false, taken: true, rs1: 32, disp: 0 };
    Bpr { rcond: 1, annul: false, taken: true, rs1: 1, disp: 32768 };
    Bpr { rcond: 1, annul: false, taken: true, rs1: 1, disp: -32769 };
    Call { disp: 536870912 };
    Call { disp: -536870913 };
    Sethi { rd: 32, imm: 0 };
    Sethi { rd: 1, imm: 4194304 };
    Membar { mask: 128 };
    ReadAsr { asr: 1, rd: 1 };
    ReadAsr { asr: 7, rd: 1 };
    ReadAsr { asr: 15, rd: 1 };
    ReadAsr { asr: 20, rd: 1 };
    ReadAsr { asr: 23, rd: 1 };
    WriteAsr { asr: 4, rs1: 1, src: Reg(2) };
    WriteAsr { asr: 25, rs1: 1, src: Reg(2) };
    WriteAsr { asr: 27, rs1: 1, src: Reg(2) };
    ReadPr { reg: 15, rd: 1 };
    ReadPr { reg: 17, rd: 1 };
    WritePr { reg: 4, rs1: 1, src: Reg(2) };
    WritePr { reg: 17, rs1: 1, src: Reg(2) };
    ReadHpr { reg: 3, rd: 1 };
    WriteHpr { reg: 2, rs1: 1, src: Reg(2) };
    Movcc { cond: 16, wide: false, rd: 1, src: Reg(2) };
    Movcc { cond: 8, wide: false, rd: 1, src: Imm(1024) };
    Movcc { cond: 8, wide: false, rd: 1, src: Imm(-1025) };
    Movr { rcond: 0, rd: 1, rs1: 2, src: Reg(3) };
    Movr { rcond: 4, rd: 1, rs1: 2, src: Reg(3) };
    Movr { rcond: 1, rd: 1, rs1: 2, src: Imm(512) };
    Movr { rcond: 1, rd: 1, rs1: 2, src: Imm(-513) };
    Trap { cond: 16, wide: false, rs1: 1, src: Reg(2) };
    Trap { cond: 8, wide: false, rs1: 1, src: Imm(256) };
    Trap { cond: 8, wide: false, rs1: 1, src: Imm(-1) };
    Load { kind: LoadKind::Tw, rd: 31, rs1: 1, mem: Plain(Imm(0)) };
    Store { kind: StoreKind::Tw, rd: 1, rs1: 1, mem: Plain(Imm(0)) };
    Load { kind: LoadKind::X, rd: 1, rs1: 1, mem: AltReg { imm: 4096 } };
    Load { kind: LoadKind::X, rd: 1, rs1: 1, mem: AltReg { imm: -4097 } };
    Store { kind: StoreKind::X, rd: 1, rs1: 1, mem: Alt { rs2: 32, asi: 128 } };
    Prefetch { fcn: 32, rs1: 1, mem: Plain(Imm(0)) };
    Cas { wide: true, rd: 1, rs1: 1, rs2: 32, asi: None };
};

#[test]
fn words_of_the_formats_both_ways(rt: HostRuntime) -> Result<(), Fail> {
    for (word, insn) in WORDS {
        assert_eq!(rt; encode(insn), Some(*word), "for {insn:?}");
        assert_eq!(rt; decode(*word), *insn, "at {word:08x}");
    }
    Ok(())
}

#[test]
fn ranges_end_where_the_fields_do(rt: HostRuntime) -> Result<(), Fail> {
    for insn in IN_RANGE {
        let again = encode(insn).map(|word| decode(word));
        assert_eq!(rt; again, Some(*insn));
    }
    for insn in OUT_OF_RANGE {
        assert_eq!(rt; encode(insn), None, "for {insn:?}");
    }
    Ok(())
}

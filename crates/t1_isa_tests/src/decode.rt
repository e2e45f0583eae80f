//! Words of SPARC V9 and UltraSPARC Architecture 2005, put together from the manuals' pictures of
//! the formats.

use std::test::Fail;
use t1_decode::decode;
use t1_insn::AluOp::{
    Add, Addc, And, Andn, Mulscc, Mulx, Or, Orn, Sdiv, Sdivx, Smul, Sub, Subc, Taddcc, TaddccTv,
    Tsubcc, TsubccTv, Udiv, Udivx, Umul, Xnor, Xor,
};
use t1_insn::Mem::{Alt, AltReg, Plain};
use t1_insn::ShiftOp::{Sll, Sra, Srl};
use t1_insn::Src::{Imm, Reg};
use t1_insn::{Insn, LoadKind, StoreKind};

macro_rules! words {
    ($($word:literal $form:ident $({ $($field:ident: $value:expr),* })?;)*) => {
        &[$(($word, Insn::$form $({ $($field: $value),* })?)),*]
    };
}

// One row or more for each row of the word table.
const FORMS: &[(u32, Insn)] = words! {
    // op 0
    0x10680000 Bpcc { cond: 8, annul: false, wide: true, taken: true, disp: 0 };
    0x2247ffff Bpcc { cond: 1, annul: true, wide: false, taken: false, disp: -1 };
    0x1e4bffff Bpcc { cond: 15, annul: false, wide: false, taken: true, disp: 262143 };
    0x20640000 Bpcc { cond: 0, annul: true, wide: true, taken: false, disp: -262144 };
    0x12800003 Bicc { cond: 9, annul: false, disp: 3 };
    0x30bffffe Bicc { cond: 8, annul: true, disp: -2 };
    0x089fffff Bicc { cond: 4, annul: false, disp: 2097151 };
    0x24a00000 Bicc { cond: 2, annul: true, disp: -2097152 };
    0x02ca4005 Bpr { rcond: 1, annul: false, taken: true, rs1: 9, disp: 5 };
    0x24f7ffff Bpr { rcond: 2, annul: true, taken: false, rs1: 31, disp: -1 };
    0x06d07fff Bpr { rcond: 3, annul: false, taken: false, rs1: 1, disp: 32767 };
    0x0ae88000 Bpr { rcond: 5, annul: false, taken: true, rs1: 2, disp: -32768 };
    0x2cd8c001 Bpr { rcond: 6, annul: true, taken: true, rs1: 3, disp: 16385 };
    0x0ee13fff Bpr { rcond: 7, annul: false, taken: false, rs1: 4, disp: -16385 };
    0x03048d15 Sethi { rd: 1, imm: 298261 };
    0x01000000 Sethi { rd: 0, imm: 0 };
    0x3f3fffff Sethi { rd: 31, imm: 4194303 };
    // op 1
    0x40000000 Call { disp: 0 };
    0x7fffffff Call { disp: -1 };
    0x5fffffff Call { disp: 536870911 };
    0x60000000 Call { disp: -536870912 };
    // op 2: arithmetic
    0x84006001 Alu { op: Add, cc: false, rd: 2, rs1: 1, src: Imm(1) };
    0xa000401f Alu { op: Add, cc: false, rd: 16, rs1: 1, src: Reg(31) };
    0x820fbfff Alu { op: And, cc: false, rd: 1, rs1: 30, src: Imm(-1) };
    0xa410c01d Alu { op: Or, cc: false, rd: 18, rs1: 3, src: Reg(29) };
    0x861f3ffd Alu { op: Xor, cc: false, rd: 3, rs1: 28, src: Imm(-3) };
    0xa821401b Alu { op: Sub, cc: false, rd: 20, rs1: 5, src: Reg(27) };
    0x8a2ebffb Alu { op: Andn, cc: false, rd: 5, rs1: 26, src: Imm(-5) };
    0xac31c019 Alu { op: Orn, cc: false, rd: 22, rs1: 7, src: Reg(25) };
    0x8e3e3ff9 Alu { op: Xnor, cc: false, rd: 7, rs1: 24, src: Imm(-7) };
    0xb0424017 Alu { op: Addc, cc: false, rd: 24, rs1: 9, src: Reg(23) };
    0x924dbff7 Alu { op: Mulx, cc: false, rd: 9, rs1: 22, src: Imm(-9) };
    0xb452c015 Alu { op: Umul, cc: false, rd: 26, rs1: 11, src: Reg(21) };
    0x965d3ff5 Alu { op: Smul, cc: false, rd: 11, rs1: 20, src: Imm(-11) };
    0xb8634013 Alu { op: Subc, cc: false, rd: 28, rs1: 13, src: Reg(19) };
    0x9a6cbff3 Alu { op: Udivx, cc: false, rd: 13, rs1: 18, src: Imm(-13) };
    0xbc73c011 Alu { op: Udiv, cc: false, rd: 30, rs1: 15, src: Reg(17) };
    0x9e7c3ff1 Alu { op: Sdiv, cc: false, rd: 15, rs1: 16, src: Imm(-15) };
    0xbe802fff Alu { op: Add, cc: true, rd: 31, rs1: 0, src: Imm(4095) };
    0x82890009 Alu { op: And, cc: true, rd: 1, rs1: 4, src: Reg(9) };
    0xba90affd Alu { op: Or, cc: true, rd: 29, rs1: 2, src: Imm(4093) };
    0x8699800b Alu { op: Xor, cc: true, rd: 3, rs1: 6, src: Reg(11) };
    0xb6a12ffb Alu { op: Sub, cc: true, rd: 27, rs1: 4, src: Imm(4091) };
    0x8aaa000d Alu { op: Andn, cc: true, rd: 5, rs1: 8, src: Reg(13) };
    0xb2b1aff9 Alu { op: Orn, cc: true, rd: 25, rs1: 6, src: Imm(4089) };
    0x8eba800f Alu { op: Xnor, cc: true, rd: 7, rs1: 10, src: Reg(15) };
    0xaec22ff7 Alu { op: Addc, cc: true, rd: 23, rs1: 8, src: Imm(4087) };
    0xaad2aff5 Alu { op: Umul, cc: true, rd: 21, rs1: 10, src: Imm(4085) };
    0x96db8013 Alu { op: Smul, cc: true, rd: 11, rs1: 14, src: Reg(19) };
    0xa6e32ff3 Alu { op: Subc, cc: true, rd: 19, rs1: 12, src: Imm(4083) };
    0xa2f3aff1 Alu { op: Udiv, cc: true, rd: 17, rs1: 14, src: Imm(4081) };
    0x9efc8017 Alu { op: Sdiv, cc: true, rd: 15, rs1: 18, src: Reg(23) };
    0x83008003 Alu { op: Taddcc, cc: true, rd: 1, rs1: 2, src: Reg(3) };
    0x8508f001 Alu { op: Tsubcc, cc: true, rd: 2, rs1: 3, src: Imm(-4095) };
    0x87110005 Alu { op: TaddccTv, cc: true, rd: 3, rs1: 4, src: Reg(5) };
    0x89197003 Alu { op: TsubccTv, cc: true, rd: 4, rs1: 5, src: Imm(-4093) };
    0x8b218007 Alu { op: Mulscc, cc: true, rd: 5, rs1: 6, src: Reg(7) };
    0x8b69bff9 Alu { op: Sdivx, cc: false, rd: 5, rs1: 6, src: Imm(-7) };
    // bits 12:5 of a register operand are not looked at
    0x82009fe3 Alu { op: Add, cc: false, rd: 1, rs1: 2, src: Reg(3) };
    // op 2: shifts
    0x83288003 Shift { op: Sll, wide: false, rd: 1, rs1: 2, src: Reg(3) };
    0x8328b03f Shift { op: Sll, wide: true, rd: 1, rs1: 2, src: Imm(63) };
    0x8931601f Shift { op: Srl, wide: false, rd: 4, rs1: 5, src: Imm(31) };
    0x89316031 Shift { op: Srl, wide: false, rd: 4, rs1: 5, src: Imm(17) };
    0x89315006 Shift { op: Srl, wide: true, rd: 4, rs1: 5, src: Reg(6) };
    0x8f3a2000 Shift { op: Sra, wide: false, rd: 7, rs1: 8, src: Imm(0) };
    0x8f3a3020 Shift { op: Sra, wide: true, rd: 7, rs1: 8, src: Imm(32) };
    // op 2: state registers
    0x83400000 ReadAsr { asr: 0, rd: 1 };
    0x87408000 ReadAsr { asr: 2, rd: 3 };
    0x8940c000 ReadAsr { asr: 3, rd: 4 };
    0x8b410000 ReadAsr { asr: 4, rd: 5 };
    0x8d414000 ReadAsr { asr: 5, rd: 6 };
    0x8f418000 ReadAsr { asr: 6, rd: 7 };
    0xaf458000 ReadAsr { asr: 22, rd: 23 };
    0x8143e002 Membar { mask: 2 };
    0x8143e07f Membar { mask: 127 };
    0x8143c000 Stbar;
    0x85500000 ReadPr { reg: 0, rd: 2 };
    0x8d510000 ReadPr { reg: 4, rd: 6 };
    0x9351c000 ReadPr { reg: 7, rd: 9 };
    0xa1538000 ReadPr { reg: 14, rd: 16 };
    0xa5540000 ReadPr { reg: 16, rd: 18 };
    0x81480000 ReadHpr { reg: 0, rd: 0 };
    0x97494000 ReadHpr { reg: 5, rd: 11 };
    0x81580000 Flushw;
    0xb5802000 WriteAsr { asr: 26, rs1: 0, src: Imm(0) };
    0x81804002 WriteAsr { asr: 0, rs1: 1, src: Reg(2) };
    0x8580c004 WriteAsr { asr: 2, rs1: 3, src: Reg(4) };
    0x87810005 WriteAsr { asr: 3, rs1: 4, src: Reg(5) };
    0x8d81c008 WriteAsr { asr: 6, rs1: 7, src: Reg(8) };
    0xa9854016 WriteAsr { asr: 20, rs1: 21, src: Reg(22) };
    0xab858017 WriteAsr { asr: 21, rs1: 22, src: Reg(23) };
    0xad85c018 WriteAsr { asr: 22, rs1: 23, src: Reg(24) };
    0x81906000 WritePr { reg: 0, rs1: 1, src: Imm(0) };
    0x87913ffd WritePr { reg: 3, rs1: 4, src: Imm(-3) };
    0x8b91bffb WritePr { reg: 5, rs1: 6, src: Imm(-5) };
    0x9d93fff2 WritePr { reg: 14, rs1: 15, src: Imm(-14) };
    0xa1947ff0 WritePr { reg: 16, rs1: 17, src: Imm(-16) };
    0x81980000 WriteHpr { reg: 0, rs1: 0, src: Reg(0) };
    0x839ae007 WriteHpr { reg: 1, rs1: 11, src: Imm(7) };
    // op 2: moves
    0x83664002 Movcc { cond: 9, wide: false, rd: 1, src: Reg(2) };
    0x83647400 Movcc { cond: 1, wide: true, rd: 1, src: Imm(-1024) };
    0xbf67e3ff Movcc { cond: 15, wide: false, rd: 31, src: Imm(1023) };
    0x87790405 Movr { rcond: 1, rd: 3, rs1: 4, src: Reg(5) };
    0x87792a00 Movr { rcond: 2, rd: 3, rs1: 4, src: Imm(-512) };
    0x87792dff Movr { rcond: 3, rd: 3, rs1: 4, src: Imm(511) };
    0x8d79f7ff Movr { rcond: 5, rd: 6, rs1: 7, src: Imm(-1) };
    0x8d79f801 Movr { rcond: 6, rd: 6, rs1: 7, src: Imm(1) };
    0x8d79dc08 Movr { rcond: 7, rd: 6, rs1: 7, src: Reg(8) };
    // op 2: windows, jumps and traps
    0x81880000 Saved;
    0x83880000 Restored;
    0x81c3e008 Jmpl { rd: 0, rs1: 15, src: Imm(8) };
    0x9fc04002 Jmpl { rd: 15, rs1: 1, src: Reg(2) };
    0x81cfe008 Return { rs1: 31, src: Imm(8) };
    0x81cfc001 Return { rs1: 31, src: Reg(1) };
    0x91d02001 Trap { cond: 8, wide: false, rs1: 0, src: Imm(1) };
    0x83d0f0ff Trap { cond: 1, wide: true, rs1: 3, src: Imm(255) };
    0x9fd0c004 Trap { cond: 15, wide: false, rs1: 3, src: Reg(4) };
    0x81d87ff8 Flush { rs1: 1, src: Imm(-8) };
    0x81d84002 Flush { rs1: 1, src: Reg(2) };
    0x9de3bfa0 Save { rd: 14, rs1: 14, src: Imm(-96) };
    0x83e08003 Save { rd: 1, rs1: 2, src: Reg(3) };
    0x81e80000 Restore { rd: 0, rs1: 0, src: Reg(0) };
    0x91ea2001 Restore { rd: 8, rs1: 8, src: Imm(1) };
    0x81f00000 Done;
    0x83f00000 Retry;
    // op 3: plain accesses
    0xc0004002 Load { kind: LoadKind::Uw, rd: 0, rs1: 1, mem: Plain(Reg(2)) };
    0xc408bff8 Load { kind: LoadKind::Ub, rd: 2, rs1: 2, mem: Plain(Imm(-8)) };
    0xc810c004 Load { kind: LoadKind::Uh, rd: 4, rs1: 3, mem: Plain(Reg(4)) };
    0xcc193fe8 Load { kind: LoadKind::Tw, rd: 6, rs1: 4, mem: Plain(Imm(-24)) };
    0xd0214006 Store { kind: StoreKind::W, rd: 8, rs1: 5, mem: Plain(Reg(6)) };
    0xd429bfd8 Store { kind: StoreKind::B, rd: 10, rs1: 6, mem: Plain(Imm(-40)) };
    0xd831c008 Store { kind: StoreKind::H, rd: 12, rs1: 7, mem: Plain(Reg(8)) };
    0xdc3a3fc8 Store { kind: StoreKind::Tw, rd: 14, rs1: 8, mem: Plain(Imm(-56)) };
    0xe042400a Load { kind: LoadKind::Sw, rd: 16, rs1: 9, mem: Plain(Reg(10)) };
    0xe44abfb8 Load { kind: LoadKind::Sb, rd: 18, rs1: 10, mem: Plain(Imm(-72)) };
    0xe852c00c Load { kind: LoadKind::Sh, rd: 20, rs1: 11, mem: Plain(Reg(12)) };
    0xec5b3fa8 Load { kind: LoadKind::X, rd: 22, rs1: 12, mem: Plain(Imm(-88)) };
    0xf46bbf98 Ldstub { rd: 26, rs1: 14, mem: Plain(Imm(-104)) };
    0xf873c010 Store { kind: StoreKind::X, rd: 28, rs1: 15, mem: Plain(Reg(16)) };
    0xfc7c3f88 Swap { rd: 30, rs1: 16, mem: Plain(Imm(-120)) };
    // op 3: alternate accesses
    0xfc807000 Load { kind: LoadKind::Uw, rd: 30, rs1: 1, mem: AltReg { imm: -4096 } };
    0xf888903e Load { kind: LoadKind::Ub, rd: 28, rs1: 2, mem: Alt { rs2: 30, asi: 129 } };
    0xf490f020 Load { kind: LoadKind::Uh, rd: 26, rs1: 3, mem: AltReg { imm: -4064 } };
    0xf099107c Load { kind: LoadKind::Tw, rd: 24, rs1: 4, mem: Alt { rs2: 28, asi: 131 } };
    0xeca17040 Store { kind: StoreKind::W, rd: 22, rs1: 5, mem: AltReg { imm: -4032 } };
    0xe8a990ba Store { kind: StoreKind::B, rd: 20, rs1: 6, mem: Alt { rs2: 26, asi: 133 } };
    0xe4b1f060 Store { kind: StoreKind::H, rd: 18, rs1: 7, mem: AltReg { imm: -4000 } };
    0xe0ba10f8 Store { kind: StoreKind::Tw, rd: 16, rs1: 8, mem: Alt { rs2: 24, asi: 135 } };
    0xdcc27080 Load { kind: LoadKind::Sw, rd: 14, rs1: 9, mem: AltReg { imm: -3968 } };
    0xd8ca9136 Load { kind: LoadKind::Sb, rd: 12, rs1: 10, mem: Alt { rs2: 22, asi: 137 } };
    0xd4d2f0a0 Load { kind: LoadKind::Sh, rd: 10, rs1: 11, mem: AltReg { imm: -3936 } };
    0xd0db1174 Load { kind: LoadKind::X, rd: 8, rs1: 12, mem: Alt { rs2: 20, asi: 139 } };
    0xc8eb91b2 Ldstub { rd: 4, rs1: 14, mem: Alt { rs2: 18, asi: 141 } };
    0xc4f3f0e0 Store { kind: StoreKind::X, rd: 2, rs1: 15, mem: AltReg { imm: -3872 } };
    0xc0fc11f0 Swap { rd: 0, rs1: 16, mem: Alt { rs2: 16, asi: 143 } };
    // op 3: the rest
    0xe9686040 Prefetch { fcn: 20, rs1: 1, mem: Plain(Imm(64)) };
    0xc1684002 Prefetch { fcn: 0, rs1: 1, mem: Plain(Reg(2)) };
    0xc7e91045 Prefetch { fcn: 3, rs1: 4, mem: Alt { rs2: 5, asi: 130 } };
    0xffe92fff Prefetch { fcn: 31, rs1: 4, mem: AltReg { imm: 4095 } };
    0xc5e05003 Cas { wide: false, rd: 2, rs1: 1, rs2: 3, asi: Some(128) };
    0xc5e06003 Cas { wide: false, rd: 2, rs1: 1, rs2: 3, asi: None };
    0xfff79ffd Cas { wide: true, rd: 31, rs1: 30, rs2: 29, asi: Some(255) };
    0xc5f06003 Cas { wide: true, rd: 2, rs1: 1, rs2: 3, asi: None };
};

// Words that stand in no row.
const ILLEGAL: &[u32] = &[
    0x00000000, // illtrap
    0x0602aaaa, // illtrap
    0x3fffffff, // op2 7
    0x10580004, // cc 1 of a branch
    0x10780004, // cc 3 of a branch
    0x00ca4005, // rcond 0 of a branch
    0x08ca4005, // rcond 4 of a branch
    0x12ca4005, // bit 28 of a branch on a register
    0x82c88003, // op3 19
    0x82e88003, // op3 1d
    0x93404000, // a read of register 1
    0x9341c000, // a read of register 7
    0x93438000, // a read of register 14
    0x93440000, // a read of register 16
    0x93450000, // a read of register 20
    0x93454000, // a read of register 21
    0x9345c000, // a read of register 23
    0x93468000, // a read of register 26
    0x8343e002, // a barrier with rd 1
    0x8343c000, // a barrier with rd 1
    0x8148c000, // a read of hyperprivileged register 3
    0x8353c000, // a read of privileged register 15
    0x83544000, // a read of privileged register 17
    0x8357c000, // a read of privileged register 31
    0x83806001, // a write of register 1
    0x89806001, // a write of register 4
    0x8b806001, // a write of register 5
    0x8f806001, // a write of register 7
    0x9f806001, // a write of register 15
    0xa7806001, // a write of register 19
    0xaf806001, // a write of register 23
    0xb3806001, // a write of register 25
    0xb7806001, // a write of register 27
    0x89906001, // a write of privileged register 4
    0x9f906001, // a write of privileged register 15
    0xa3906001, // a write of privileged register 17
    0xbf906001, // a write of privileged register 31
    0x83664802, // cc 1 of a move
    0x83667805, // cc 3 of a move
    0x87790005, // rcond 0 of a move
    0x87793005, // rcond 4 of a move
    0x83708003, // op3 2e
    0x85880000, // rd 2 of saved
    0x87980000, // a write of hyperprivileged register 3
    0x83b08003, // op3 36
    0x83b88003, // op3 37
    0x91d02801, // cc 1 of a trap
    0x91d03801, // cc 3 of a trap
    0x85f00000, // rd 2 of done
    0x81f80000, // op3 3f
    0xc4606000, // op 3, op3 0c
    0xc2186000, // a load of an odd pair
    0xfe384002, // a store of an odd pair
    0xc4e06000, // op 3, op3 1c
    0xca985002, // an alternate load of an odd pair
    0xceb86004, // an alternate store of an odd pair
    0xc5406000, // op 3, op3 28
    0xc5486000, // op 3, op3 29
    0xc5506000, // op 3, op3 2a
    0xc5586000, // op 3, op3 2b
    0xc5606000, // op 3, op3 2c
    0xc5706000, // op 3, op3 2e
    0xc5786000, // op 3, op3 2f
    0xc5886000, // op 3, op3 31
    0xc5a86000, // op 3, op3 35
    0xc5c06000, // op 3, op3 38
    0xc5c86000, // op 3, op3 39
    0xc5d06000, // op 3, op3 3a
    0xc5d86000, // op 3, op3 3b
    0xc5f86000, // op 3, op3 3f
];

// Words of the floating-point unit.
const FLOAT: &[u32] = &[
    0x1140004d, // op2 5
    0x1180004d, // op2 6
    0x83624002, // a move on fcc0
    0x83625802, // a move on fcc3
    0x83a08003, // op3 34
    0x83a88003, // op3 35
    0xc5006000, // op 3, op3 20
    0xc5086000, // op 3, op3 21
    0xc5106000, // op 3, op3 22
    0xc5186000, // op 3, op3 23
    0xc5206000, // op 3, op3 24
    0xc5286000, // op 3, op3 25
    0xc5306000, // op 3, op3 26
    0xc5386000, // op 3, op3 27
    0xc5806000, // op 3, op3 30
    0xc5906000, // op 3, op3 32
    0xc5986000, // op 3, op3 33
    0xc5a06000, // op 3, op3 34
    0xc5b06000, // op 3, op3 36
    0xc5b86000, // op 3, op3 37
];

#[test]
fn words_are_read_by_the_table(rt: HostRuntime) -> Result<(), Fail> {
    for (word, insn) in FORMS {
        assert_eq!(rt; decode(*word), *insn, "at {word:08x}");
    }
    for word in ILLEGAL {
        assert_eq!(rt; decode(*word), Insn::Illegal, "at {word:08x}");
    }
    for word in FLOAT {
        assert_eq!(rt; decode(*word), Insn::FpOff, "at {word:08x}");
    }
    Ok(())
}

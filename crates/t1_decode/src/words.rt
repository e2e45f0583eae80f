//! Words to instructions: the tables by op, op2 and op3.
//!
//! Each function writes the instruction where the caller wants it, so that an arm stores its own
//! fields and no more.
ghost use Rattle.std.specs.Prelude.{◌≡◌};
ghost use Rattle.t1_insn.specs.Ranges.{IsInRange};
ghost use Rattle.t1_decode.specs.Words.{branch_of, arithmetic_of, control_of, memory_of, plain_access_of, alternate_access_of, other_access_of, insn_of};

use crate::fields::{alternate, bit, cond, rd, rs1, signed, source};
use crate::forms::{
    bpcc, bpr, cas, done, load, movcc, movr, read_asr, read_hyper, read_privileged, saved, shift,
    store, trap, write_asr, write_hyper, write_privileged,
};
use crate::{access_rows, alu_rows, control_rows};
use t1_insn::{AluOp, Insn, LoadKind, Mem, ShiftOp, StoreKind};
use t1_num::field;

/// The instruction of a word (SPARC V9, appendix E, and UltraSPARC Architecture 2005, in this
/// project's profile). Reserved bits are not looked at.
#[inline]
pub fn decode(word: u32) -> Insn
    ensures value { result ≡ insn_of word }
    ensures in_range { IsInRange result }
{
    let mut insn = Insn::Illegal;
    read(&mut insn, word);
    insn
}

/// The whole table, by op.
#[inline(never)]
#[tactic(auto, unfolding(crate::specs::Words::insn_of))]
fn read(insn: &mut Insn, word: u32)
    ensures value { insn.new ≡ insn_of word }
    ensures in_range { IsInRange insn.new }
{
    match (bit(word, 31), bit(word, 30)) {
        (false, false) => branch(insn, word),
        (false, true) => {
            *insn = Insn::Call {
                disp: signed(30, field(word, 29, 0)),
            }
        }
        (true, false) => arithmetic(insn, word, field(word, 24, 19)),
        (true, true) => memory(insn, word, field(word, 24, 19)),
    }
}

/// Op 0, by op2: branches and sethi.
#[inline(never)]
#[tactic(auto, unfolding(crate::specs::Words::branch_of))]
fn branch(insn: &mut Insn, word: u32)
    ensures value { insn.new ≡ branch_of word }
    ensures in_range { IsInRange insn.new }
{
    match field(word, 24, 22) {
        1 => *insn = bpcc(word),
        2 => {
            *insn = Insn::Bicc {
                cond: cond(word),
                annul: bit(word, 29),
                disp: signed(22, field(word, 21, 0)),
            }
        }
        3 => *insn = bpr(word),
        4 => {
            *insn = Insn::Sethi {
                rd: rd(word),
                imm: field(word, 21, 0),
            }
        }
        5 | 6 => *insn = Insn::FpOff,
        _ => *insn = Insn::Illegal,
    }
}

// The arms of arithmetic, one row an arm.
macro_rules! alu_arms {
    ($insn:ident $word:ident $op3:ident $rd:ident $rs1:ident $src:ident; $($number:literal $op:ident $cc:literal,)*) => {
        match $op3 {
            $($number => *$insn = Insn::Alu { op: AluOp::$op, cc: $cc, rd: $rd, rs1: $rs1, src: $src },)*
            _ => control($insn, $word, $op3),
        }
    };
}

/// Op 2, by op3: arithmetic, else control and state.
#[inline(never)]
#[tactic(auto, unfolding(crate::specs::Words::arithmetic_of))]
fn arithmetic(insn: &mut Insn, word: u32, op3: u32)
    ensures value { insn.new ≡ arithmetic_of word op3 }
    ensures in_range { IsInRange insn.new }
{
    let rd = rd(word);
    let rs1 = rs1(word);
    let src = source(word);
    alu_rows!(alu_arms insn word op3 rd rs1 src)
}

// The arms of control and state.
macro_rules! control_arms {
    ($insn:ident $word:ident $op3:ident;
     shift { $($shift_number:literal $shift:ident,)* }
     rd_and_operands { $($rd_number:literal $rd_form:ident,)* }
     operands { $($number:literal $form:ident,)* }) => {
        match $op3 {
            $($shift_number => *$insn = shift(ShiftOp::$shift, $word),)*
            0x28 => *$insn = read_asr($word),
            0x29 => *$insn = read_hyper($word),
            0x2a => *$insn = read_privileged($word),
            0x2b => *$insn = Insn::Flushw,
            0x2c => *$insn = movcc($word),
            0x2f => *$insn = movr($word),
            0x30 => *$insn = write_asr($word),
            0x31 => *$insn = saved($word),
            0x32 => *$insn = write_privileged($word),
            0x33 => *$insn = write_hyper($word),
            0x34 | 0x35 => *$insn = Insn::FpOff,
            $($rd_number => *$insn = Insn::$rd_form { rd: rd($word), rs1: rs1($word), src: source($word) },)*
            $($number => *$insn = Insn::$form { rs1: rs1($word), src: source($word) },)*
            0x3a => *$insn = trap($word),
            0x3e => *$insn = done($word),
            _ => *$insn = Insn::Illegal,
        }
    };
}

/// Control and state, by op3.
#[inline(never)]
#[tactic(auto, unfolding(crate::specs::Words::control_of))]
fn control(insn: &mut Insn, word: u32, op3: u32)
    ensures value { insn.new ≡ control_of word op3 }
    ensures in_range { IsInRange insn.new }
{
    control_rows!(control_arms insn word op3)
}

/// Op 3, by op3.
#[inline(never)]
#[tactic(auto, unfolding(crate::specs::Words::memory_of))]
fn memory(insn: &mut Insn, word: u32, op3: u32)
    ensures value { insn.new ≡ memory_of word op3 }
    ensures in_range { IsInRange insn.new }
{
    match op3 {
        0x00..=0x0f => plain_access(insn, word, op3),
        0x10..=0x1f => alternate_access(insn, word, op3),
        _ => other_access(insn, word, op3),
    }
}

// The arms of the plain accesses.
macro_rules! plain_arms {
    ($insn:ident $word:ident $op3:ident $rd:ident $rs1:ident $mem:ident;
     load { $($load_number:literal $load_alternate:literal $load:ident,)* }
     store { $($store_number:literal $store_alternate:literal $store:ident,)* }
     atomic { $($number:literal $alternate:literal $form:ident,)* }) => {
        match $op3 {
            $($load_number => *$insn = load(LoadKind::$load, $word, $mem),)*
            $($store_number => *$insn = store(StoreKind::$store, $word, $mem),)*
            $($number => *$insn = Insn::$form { rd: $rd, rs1: $rs1, mem: $mem },)*
            _ => *$insn = Insn::Illegal,
        }
    };
}

/// Plain accesses, by op3.
#[inline(never)]
#[tactic(auto, unfolding(crate::specs::Words::plain_access_of))]
fn plain_access(insn: &mut Insn, word: u32, op3: u32)
    ensures value { insn.new ≡ plain_access_of word op3 }
    ensures in_range { IsInRange insn.new }
{
    let rd = rd(word);
    let rs1 = rs1(word);
    let mem = Mem::Plain(source(word));
    access_rows!(plain_arms insn word op3 rd rs1 mem)
}

// The arms of the alternate accesses.
macro_rules! alternate_arms {
    ($insn:ident $word:ident $op3:ident $rd:ident $rs1:ident $mem:ident;
     load { $($load_plain:literal $load_number:literal $load:ident,)* }
     store { $($store_plain:literal $store_number:literal $store:ident,)* }
     atomic { $($plain:literal $number:literal $form:ident,)* }) => {
        match $op3 {
            $($load_number => *$insn = load(LoadKind::$load, $word, $mem),)*
            $($store_number => *$insn = store(StoreKind::$store, $word, $mem),)*
            $($number => *$insn = Insn::$form { rd: $rd, rs1: $rs1, mem: $mem },)*
            _ => *$insn = Insn::Illegal,
        }
    };
}

/// Alternate accesses, by op3.
#[inline(never)]
#[tactic(auto, unfolding(crate::specs::Words::alternate_access_of))]
fn alternate_access(insn: &mut Insn, word: u32, op3: u32)
    ensures value { insn.new ≡ alternate_access_of word op3 }
    ensures in_range { IsInRange insn.new }
{
    let rd = rd(word);
    let rs1 = rs1(word);
    let mem = alternate(word);
    access_rows!(alternate_arms insn word op3 rd rs1 mem)
}

/// Prefetches, compares, and the accesses of the floating-point unit, by op3.
#[inline(never)]
#[tactic(auto, unfolding(crate::specs::Words::other_access_of))]
fn other_access(insn: &mut Insn, word: u32, op3: u32)
    ensures value { insn.new ≡ other_access_of word op3 }
    ensures in_range { IsInRange insn.new }
{
    match op3 {
        0x2d => {
            *insn = Insn::Prefetch {
                fcn: rd(word),
                rs1: rs1(word),
                mem: Mem::Plain(source(word)),
            }
        }
        0x3d => {
            *insn = Insn::Prefetch {
                fcn: rd(word),
                rs1: rs1(word),
                mem: alternate(word),
            }
        }
        0x3c => *insn = cas(false, word),
        0x3e => *insn = cas(true, word),
        0x20..=0x27 | 0x30 | 0x32 | 0x33 | 0x34 | 0x36 | 0x37 => *insn = Insn::FpOff,
        _ => *insn = Insn::Illegal,
    }
}

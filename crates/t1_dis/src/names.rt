// The names in texts: conditions, registers, mnemonics.
ghost use Rattle.std.specs.Prelude.{◌≡◌, ◌≤◌, ◌+◌, ◌++◌, length};
ghost use Rattle.t1_dis.specs.Names.{condition_text, register_condition_text, state_text, privileged_text, alu_text, shift_text, load_text, store_text, alternate_text, cas_text, mnemonic_of};

use crate::text::Text;
use t1_insn::{AluOp, Insn, LoadKind, Mem, ShiftOp, StoreKind};

/// A condition of the condition codes.
#[tactic(auto, unfolding(crate::specs::Names::condition_text))]
fn condition(cond: u8) -> &'static str
    ensures value { result.now ≡ condition_text cond }
    ensures short { length result.now ≤ 3 }
{
    match cond {
        0 => "n",
        1 => "e",
        2 => "le",
        3 => "l",
        4 => "leu",
        5 => "cs",
        6 => "neg",
        7 => "vs",
        8 => "a",
        9 => "ne",
        10 => "g",
        11 => "ge",
        12 => "gu",
        13 => "cc",
        14 => "pos",
        _ => "vc",
    }
}

/// A condition of a register.
#[tactic(auto, unfolding(crate::specs::Names::register_condition_text))]
fn register_condition(rcond: u8) -> &'static str
    ensures value { result.now ≡ register_condition_text rcond }
    ensures short { length result.now ≤ 3 }
{
    match rcond {
        1 => "z",
        2 => "lez",
        3 => "lz",
        5 => "nz",
        6 => "gz",
        _ => "gez",
    }
}

/// An ancillary state register.
#[tactic(auto, unfolding(crate::specs::Names::state_text))]
pub fn state(asr: u8) -> &'static str
    ensures value { result.now ≡ state_text asr }
    ensures short { length result.now ≤ 14 }
{
    match asr {
        0 => "%y",
        2 => "%ccr",
        3 => "%asi",
        4 => "%tick",
        5 => "%pc",
        6 => "%fprs",
        20 => "%set_softint",
        21 => "%clear_softint",
        22 => "%softint",
        _ => "%asr26",
    }
}

/// A privileged register.
#[tactic(auto, unfolding(crate::specs::Names::privileged_text))]
pub fn privileged(reg: u8) -> &'static str
    ensures value { result.now ≡ privileged_text reg }
    ensures short { length result.now ≤ 12 }
{
    match reg {
        0 => "%tpc",
        1 => "%tnpc",
        2 => "%tstate",
        3 => "%tt",
        4 => "%tick",
        5 => "%tba",
        6 => "%pstate",
        7 => "%tl",
        8 => "%pil",
        9 => "%cwp",
        10 => "%cansave",
        11 => "%canrestore",
        12 => "%cleanwin",
        13 => "%otherwin",
        14 => "%wstate",
        _ => "%gl",
    }
}

/// An operation.
#[tactic(auto, unfolding(crate::specs::Names::alu_text))]
fn alu(op: AluOp, cc: bool) -> &'static str
    ensures value { result.now ≡ alu_text op cc }
    ensures short { length result.now ≤ 8 }
{
    match (op, cc) {
        (AluOp::Add, false) => "add",
        (AluOp::Add, true) => "addcc",
        (AluOp::And, false) => "and",
        (AluOp::And, true) => "andcc",
        (AluOp::Or, false) => "or",
        (AluOp::Or, true) => "orcc",
        (AluOp::Xor, false) => "xor",
        (AluOp::Xor, true) => "xorcc",
        (AluOp::Sub, false) => "sub",
        (AluOp::Sub, true) => "subcc",
        (AluOp::Andn, false) => "andn",
        (AluOp::Andn, true) => "andncc",
        (AluOp::Orn, false) => "orn",
        (AluOp::Orn, true) => "orncc",
        (AluOp::Xnor, false) => "xnor",
        (AluOp::Xnor, true) => "xnorcc",
        (AluOp::Addc, false) => "addc",
        (AluOp::Addc, true) => "addccc",
        (AluOp::Mulx, false) => "mulx",
        (AluOp::Umul, false) => "umul",
        (AluOp::Umul, true) => "umulcc",
        (AluOp::Smul, false) => "smul",
        (AluOp::Smul, true) => "smulcc",
        (AluOp::Subc, false) => "subc",
        (AluOp::Subc, true) => "subccc",
        (AluOp::Udivx, false) => "udivx",
        (AluOp::Udiv, false) => "udiv",
        (AluOp::Udiv, true) => "udivcc",
        (AluOp::Sdiv, false) => "sdiv",
        (AluOp::Sdiv, true) => "sdivcc",
        (AluOp::Taddcc, true) => "taddcc",
        (AluOp::Tsubcc, true) => "tsubcc",
        (AluOp::TaddccTv, true) => "taddcctv",
        (AluOp::TsubccTv, true) => "tsubcctv",
        (AluOp::Mulscc, true) => "mulscc",
        (AluOp::Sdivx, false) => "sdivx",
        _ => "",
    }
}

/// A shift.
fn shift(op: ShiftOp, wide: bool) -> &'static str
    ensures value { result.now ≡ shift_text op wide }
    ensures short { length result.now ≤ 4 }
{
    match (op, wide) {
        (ShiftOp::Sll, false) => "sll",
        (ShiftOp::Srl, false) => "srl",
        (ShiftOp::Sra, false) => "sra",
        (ShiftOp::Sll, true) => "sllx",
        (ShiftOp::Srl, true) => "srlx",
        (ShiftOp::Sra, true) => "srax",
    }
}

/// A load.
fn load(kind: LoadKind) -> &'static str
    ensures value { result.now ≡ load_text kind }
    ensures short { length result.now ≤ 4 }
{
    match kind {
        LoadKind::Uw => "lduw",
        LoadKind::Ub => "ldub",
        LoadKind::Uh => "lduh",
        LoadKind::Tw => "ldtw",
        LoadKind::Sw => "ldsw",
        LoadKind::Sb => "ldsb",
        LoadKind::Sh => "ldsh",
        LoadKind::X => "ldx",
    }
}

/// A store.
fn store(kind: StoreKind) -> &'static str
    ensures value { result.now ≡ store_text kind }
    ensures short { length result.now ≤ 4 }
{
    match kind {
        StoreKind::W => "stw",
        StoreKind::B => "stb",
        StoreKind::H => "sth",
        StoreKind::Tw => "sttw",
        StoreKind::X => "stx",
    }
}

/// The `a` of an alternate form.
fn alternate(mem: Mem) -> &'static str
    ensures value { result.now ≡ alternate_text mem }
    ensures short { length result.now ≤ 1 }
{
    match mem {
        Mem::Plain(_) => "",
        _ => "a",
    }
}

fn cas(wide: bool) -> &'static str
    ensures value { result.now ≡ cas_text wide }
    ensures short { length result.now ≤ 5 }
{
    if wide { "casxa" } else { "casa" }
}

/// A front of at most 8 bytes, which the instruction names, and a back of at most 3 bytes.
#[tactic(auto, unfolding(crate::specs::Names::mnemonic_of))]
fn halves(insn: Insn) -> (&'static str, &'static str)
    ensures value { result.0.now ++ result.1.now ≡ mnemonic_of insn }
    ensures front { length result.0.now ≤ 8 }
    ensures back { length result.1.now ≤ 3 }
{
    match insn {
        Insn::Illegal | Insn::FpOff | Insn::ReadHpr { .. } | Insn::WriteHpr { .. } => ("", ""),
        Insn::Stbar => ("stbar", ""),
        Insn::Flushw => ("flushw", ""),
        Insn::Saved => ("saved", ""),
        Insn::Restored => ("restored", ""),
        Insn::Done => ("done", ""),
        Insn::Retry => ("retry", ""),
        Insn::Bpcc { cond, .. } | Insn::Bicc { cond, .. } => ("b", condition(cond)),
        Insn::Bpr { rcond, .. } => ("br", register_condition(rcond)),
        Insn::Sethi { .. } => ("sethi", ""),
        Insn::Call { .. } => ("call", ""),
        Insn::Membar { .. } => ("membar", ""),
        Insn::Alu { op, cc, .. } => (alu(op, cc), ""),
        Insn::Shift { op, wide, .. } => (shift(op, wide), ""),
        Insn::ReadAsr { .. } => ("rd", ""),
        Insn::WriteAsr { .. } => ("wr", ""),
        Insn::ReadPr { .. } => ("rdpr", ""),
        Insn::WritePr { .. } => ("wrpr", ""),
        Insn::Movcc { cond, .. } => ("mov", condition(cond)),
        Insn::Movr { rcond, .. } => ("movr", register_condition(rcond)),
        Insn::Jmpl { .. } => ("jmpl", ""),
        Insn::Return { .. } => ("return", ""),
        Insn::Flush { .. } => ("flush", ""),
        Insn::Trap { cond, .. } => ("t", condition(cond)),
        Insn::Save { .. } => ("save", ""),
        Insn::Restore { .. } => ("restore", ""),
        Insn::Load { kind, mem, .. } => (load(kind), alternate(mem)),
        Insn::Store { kind, mem, .. } => (store(kind), alternate(mem)),
        Insn::Ldstub { mem, .. } => ("ldstub", alternate(mem)),
        Insn::Swap { mem, .. } => ("swap", alternate(mem)),
        Insn::Prefetch { mem, .. } => ("prefetch", alternate(mem)),
        Insn::Cas { wide, .. } => (cas(wide), ""),
    }
}

/// The mnemonic of an instruction.
pub fn put_mnemonic(text: &mut Text, insn: Insn)
    requires { length text.old + 11 ≤ 96 }
    ensures value { text.new ≡ text.old ++ mnemonic_of insn }
    ensures short { length text.new ≤ length text.old + 11 }
{
    let (front, back) = halves(insn);
    text.word(front);
    text.word(back);
}

// The instruction of a template with its fields, and its word.
ghost use Rattle.std.specs.Prelude.{IfSome, ◌≡◌, ◌<◌, ◌≤◌, ◌^◌};
ghost use Rattle.t1_encode.specs.Words.{encoded};
ghost use Rattle.t1_stmt.specs.Templates.{signed_word, words_away, target_of, below, operand_of, named_mem, asi_mem, mem_of, accessed, compared, compare_of, branch_of, operated, filled, set_of, word_of, words_of, lacks_operand, is_missing, lacks, instruction_words, instruction_size};

use crate::fault::Fault;
use t1_encode::encode;
use t1_form::template::{Access, Space, Template};
use t1_insn::{AluOp, Insn, Mem, Src};
use t1_operand::fields::{Fields, Instruction, Source};

#[tactic(auto, unfolding(crate::specs::Templates::signed_word))]
fn signed(v: u64) -> Option<i32>
    ensures { result ≡ signed_word v }
{
    if v < 1 << 31 {
        Some(v as i32)
    } else if v > u64::MAX - (1 << 31) {
        Some(-1 - (u64::MAX - v) as i32)
    } else {
        None
    }
}

#[tactic(auto, unfolding(crate::specs::Templates::words_away))]
fn away(distance: u64) -> Option<i32>
    ensures { result ≡ words_away distance }
{
    if distance % 4 != 0 {
        return None;
    }
    if distance < 1 << 33 {
        Some((distance / 4) as i32)
    } else if distance > u64::MAX - (1 << 33) {
        Some(-1 - ((u64::MAX - distance) / 4) as i32)
    } else {
        None
    }
}

#[tactic(auto, unfolding(crate::specs::Templates::target_of))]
fn target(here: u64, value: Option<u64>) -> Option<i32>
    ensures { result ≡ target_of here value }
{
    away(value?.wrapping_sub(here))
}

#[tactic(auto, unfolding(crate::specs::Templates::below))]
fn under(bound: u64, value: Option<u64>) -> Option<u64>
    ensures value { result ≡ below bound value }
    ensures small { IfSome result (λ n. n < bound) }
{
    let n = value?;
    if n < bound { Some(n) } else { None }
}

#[tactic(auto, unfolding(crate::specs::Templates::below))]
fn byte(value: Option<u64>) -> Option<u8>
    ensures { result ≡ below 256 value }
{
    let n = value?;
    if n < 256 { Some(n as u8) } else { None }
}

#[tactic(auto, unfolding(crate::specs::Templates::operand_of))]
fn operand(source: Source) -> Option<Src>
    ensures { result ≡ operand_of source }
{
    match source {
        Source::Register(r) => Some(Src::Reg(r)),
        Source::Value(v) => Some(Src::Imm(signed(v?)?)),
    }
}

fn named(source: Source, asi: u8) -> Option<Mem>
    ensures { result ≡ named_mem source asi }
{
    match source {
        Source::Register(r) => Some(Mem::Alt { rs2: r, asi }),
        Source::Value(_) => None,
    }
}

fn by_asi(src: Src) -> Option<Mem>
    ensures { result ≡ asi_mem src }
{
    match src {
        Src::Reg(_) => None,
        Src::Imm(imm) => Some(Mem::AltReg { imm }),
    }
}

#[tactic(auto, unfolding(crate::specs::Templates::mem_of))]
fn mem(space: Space, fields: Fields) -> Option<Mem>
    ensures { result ≡ mem_of space fields }
{
    match space {
        Space::Plain => Some(Mem::Plain(operand(fields.source)?)),
        Space::Named => named(fields.source, byte(fields.value)?),
        Space::Asi => by_asi(operand(fields.source)?),
    }
}

fn access(access: Access, fields: Fields, mem: Mem) -> Insn
    ensures { result ≡ accessed access fields mem }
{
    let rd = fields.rd;
    let rs1 = fields.rs1;
    match access {
        Access::Load(kind) => Insn::Load { kind, rd, rs1, mem },
        Access::Store(kind) => Insn::Store { kind, rd, rs1, mem },
        Access::Ldstub => Insn::Ldstub { rd, rs1, mem },
        Access::Swap => Insn::Swap { rd, rs1, mem },
    }
}

fn cas(wide: bool, fields: Fields, asi: Option<u8>) -> Option<Insn>
    ensures { result ≡ compared wide fields fields.source asi }
{
    match fields.source {
        Source::Register(rs2) => Some(Insn::Cas {
            wide,
            rd: fields.rd,
            rs1: fields.rs1,
            rs2,
            asi,
        }),
        Source::Value(_) => None,
    }
}

#[tactic(auto, unfolding(crate::specs::Templates::compare_of))]
fn compare(wide: bool, space: Space, fields: Fields) -> Option<Insn>
    ensures { result ≡ compare_of wide space fields }
{
    match space {
        Space::Asi => cas(wide, fields, None),
        _ => cas(wide, fields, Some(byte(fields.value)?)),
    }
}

#[tactic(auto, unfolding(crate::specs::Templates::branch_of))]
fn branch(here: u64, template: Template, fields: Fields, disp: i32) -> Option<Insn>
    ensures { result ≡ branch_of here template fields disp }
{
    let annul = fields.annul;
    match template {
        Template::Bicc(cond) => Some(Insn::Bicc { cond, annul, disp }),
        Template::Bpcc(cond) => Some(Insn::Bpcc {
            cond,
            annul,
            wide: fields.wide,
            taken: fields.taken,
            disp,
        }),
        Template::Bpr(rcond) => Some(Insn::Bpr {
            rcond,
            annul,
            taken: fields.taken,
            rs1: fields.rs1,
            disp,
        }),
        Template::Call => Some(Insn::Call { disp }),
        _ => None,
    }
}

#[tactic(auto, unfolding(crate::specs::Templates::operated))]
fn operation(template: Template, fields: Fields, src: Src) -> Option<Insn>
    ensures { result ≡ operated template fields src }
{
    let rd = fields.rd;
    let rs1 = fields.rs1;
    let wide = fields.wide;
    match template {
        Template::Alu { op, cc } => Some(Insn::Alu {
            op,
            cc,
            rd,
            rs1,
            src,
        }),
        Template::Shift { op, wide } => Some(Insn::Shift {
            op,
            wide,
            rd,
            rs1,
            src,
        }),
        Template::Save => Some(Insn::Save { rd, rs1, src }),
        Template::Restore => Some(Insn::Restore { rd, rs1, src }),
        Template::Jmpl => Some(Insn::Jmpl { rd, rs1, src }),
        Template::Return => Some(Insn::Return { rs1, src }),
        Template::Flush => Some(Insn::Flush { rs1, src }),
        Template::Trap(cond) => Some(Insn::Trap {
            cond,
            wide,
            rs1,
            src,
        }),
        Template::Movcc(cond) => Some(Insn::Movcc {
            cond,
            wide,
            rd,
            src,
        }),
        Template::Movr(rcond) => Some(Insn::Movr {
            rcond,
            rd,
            rs1,
            src,
        }),
        Template::WriteAsr => Some(Insn::WriteAsr {
            asr: fields.number,
            rs1,
            src,
        }),
        Template::WritePr => Some(Insn::WritePr {
            reg: fields.number,
            rs1,
            src,
        }),
        _ => None,
    }
}

/// The instruction of a template with its fields, at a location.
#[tactic(auto, unfolding(crate::specs::Templates::filled))]
fn insn(here: u64, template: Template, fields: Fields) -> Option<Insn>
    ensures { result ≡ filled here template fields }
{
    match template {
        Template::Fixed(insn) => Some(insn),
        Template::Bicc(_) | Template::Bpcc(_) | Template::Bpr(_) | Template::Call => {
            branch(here, template, fields, target(here, fields.value)?)
        }
        Template::Sethi => Some(Insn::Sethi {
            rd: fields.rd,
            imm: under(1 << 32, fields.value)? as u32,
        }),
        Template::Access(kind, space) => Some(access(kind, fields, mem(space, fields)?)),
        Template::Prefetch(space) => {
            let mem = mem(space, fields)?;
            Some(Insn::Prefetch {
                fcn: byte(fields.extra)?,
                rs1: fields.rs1,
                mem,
            })
        }
        Template::Cas { wide, space } => compare(wide, space, fields),
        Template::ReadAsr => Some(Insn::ReadAsr {
            asr: fields.number,
            rd: fields.rd,
        }),
        Template::ReadPr => Some(Insn::ReadPr {
            reg: fields.number,
            rd: fields.rd,
        }),
        Template::Membar => Some(Insn::Membar {
            mask: byte(fields.value)?,
        }),
        Template::Set => None,
        Template::Illtrap => None,
        _ => operation(template, fields, operand(fields.source)?),
    }
}

/// The two words of `set`.
#[tactic(auto, unfolding(crate::specs::Templates::set_of))]
fn set(rd: u8, n: u64) -> Option<(u32, Option<u32>)>
    requires { n < 2 ^ 32 }
    ensures { result ≡ set_of rd n }
{
    let high = encode(&Insn::Sethi {
        rd,
        imm: (n / 1024) as u32,
    })?;
    let low = encode(&Insn::Alu {
        op: AluOp::Or,
        cc: false,
        rd,
        rs1: rd,
        src: Src::Imm((n % 1024) as i32),
    })?;
    Some((high, Some(low)))
}

#[tactic(auto, unfolding(crate::specs::Templates::word_of))]
fn word(here: u64, template: Template, fields: Fields) -> Option<(u32, Option<u32>)>
    ensures { result ≡ word_of here template fields }
{
    let insn = insn(here, template, fields)?;
    let word = encode(&insn)?;
    Some((word, None))
}

#[tactic(auto, unfolding(crate::specs::Templates::words_of, crate::specs::Templates::below))]
fn words(here: u64, template: Template, fields: Fields) -> Option<(u32, Option<u32>)>
    ensures { result ≡ words_of here template fields }
{
    match template {
        Template::Set => set(fields.rd, under(1 << 32, fields.value)?),
        Template::Illtrap => Some((under(1 << 22, fields.value)? as u32, None)),
        _ => word(here, template, fields),
    }
}

fn lacking(fields: Fields) -> bool
    ensures { result ≡ lacks fields }
{
    let operand = match fields.source {
        Source::Register(_) => false,
        Source::Value(v) => v.is_none(),
    };
    operand || fields.value.is_none() || fields.extra.is_none()
}

/// The words of an instruction at a location, or its fault.
#[tactic(auto, unfolding(crate::specs::Templates::instruction_words))]
pub fn instruction_words(here: u64, instruction: Instruction) -> Result<(u32, Option<u32>), Fault>
    ensures { result ≡ instruction_words here instruction }
{
    if lacking(instruction.fields) {
        return Err(Fault::MissingLabel);
    }
    match words(here, instruction.template, instruction.fields) {
        Some(words) => Ok(words),
        None => Err(Fault::OutOfRange),
    }
}

/// How many bytes an instruction makes.
pub fn size(template: Template) -> u64
    ensures value { result ≡ instruction_size template }
    ensures small { result ≤ 8 }
{
    match template {
        Template::Set => 8,
        _ => 4,
    }
}

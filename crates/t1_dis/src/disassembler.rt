// The text of a word.
ghost use Rattle.std.specs.Prelude.{◌≡◌, ◌<◌, ◌≤◌, ◌+◌, ◌++◌, [], ◌∷◌, length, Some};
ghost use Rattle.t1_lex.specs.Parts.{bytes_of, lexemes_of};
ghost use Rattle.t1_lex.specs.Tokens.{lexemes_in, cut_of};
ghost use Rattle.t1_insn.specs.Ranges.{IsInRange};
ghost use Rattle.t1_decode.specs.Words.{insn_of};
ghost use Rattle.t1_form.specs.Shapes.{slots_of};
ghost use Rattle.t1_dis.specs.Names.{mnemonic_of};
ghost use Rattle.t1_dis.specs.Operands.{shape_of, fields_of};
ghost use Rattle.t1_dis.specs.Room.{slot_room, room_of, IsShownSource, AreRegisters, IsAscii, AreAscii};
ghost use Rattle.t1_dis.specs.Texts.{signed, offset, source, behind_register, address, value, target, gap, slot_parts, slots_parts, operand_parts, annulled, predicted, line_parts, word_parts, has_text, parts_of, text_of};

use crate::names::{privileged, put_mnemonic, state};
use crate::operands::{fields, shape};
use crate::text::Text;
use arrayvec::ArrayString;
use t1_decode::decode;
use t1_form::{Slot, shape_slots};
use t1_insn::Insn;
use t1_operand::{Fields, Source};

#[tactic(auto, unfolding(crate::specs::Texts::signed), using(crate::proofs::Joins::decimal_end))]
fn put_signed(text: &mut Text, v: u64)
    requires { length text.old + 21 ≤ 96 }
    ensures value { text.new ≡ text.old ++ bytes_of (signed v []) }
    ensures short { length text.new ≤ length text.old + 21 }
{
    if v < 1 << 63 {
        text.number(v);
    } else {
        text.byte(b'-');
        text.number(u64::MAX - v + 1);
    }
}

#[tactic(auto, unfolding(crate::specs::Texts::offset), using(crate::proofs::Joins::decimal_end, crate::proofs::Joins::regroup))]
fn put_offset(text: &mut Text, v: u64)
    requires { length text.old + 21 ≤ 96 }
    ensures value { text.new ≡ text.old ++ bytes_of (offset v []) }
    ensures short { length text.new ≤ length text.old + 21 }
{
    if v < 1 << 63 {
        text.byte(b'+');
        text.number(v);
    } else {
        text.byte(b'-');
        text.number(u64::MAX - v + 1);
    }
}

fn put_source(text: &mut Text, from: Source)
    requires source { IsShownSource from }
    requires room { length text.old + 21 ≤ 96 }
    ensures value { text.new ≡ text.old ++ bytes_of (source from []) }
    ensures short { length text.new ≤ length text.old + 21 }
{
    match from {
        Source::Register(r) => text.register(r),
        Source::Value(Some(v)) => put_signed(text, v),
        Source::Value(None) => {}
    }
}

#[tactic(auto, using(crate::proofs::Joins::regroup))]
fn put_behind(text: &mut Text, from: Source)
    requires source { IsShownSource from }
    requires room { length text.old + 21 ≤ 96 }
    ensures value { text.new ≡ text.old ++ bytes_of (behind_register from []) }
    ensures short { length text.new ≤ length text.old + 21 }
{
    match from {
        Source::Register(r) => {
            text.byte(b'+');
            text.register(r);
        }
        Source::Value(Some(v)) => put_offset(text, v),
        Source::Value(None) => {}
    }
}

#[tactic(auto, using(crate::proofs::Joins::decimal_end))]
fn put_value(text: &mut Text, number: Option<u64>)
    requires { length text.old + 20 ≤ 96 }
    ensures value { text.new ≡ text.old ++ bytes_of (value number []) }
    ensures short { length text.new ≤ length text.old + 20 }
{
    if let Some(n) = number {
        text.number(n);
    }
}

#[tactic(auto, using(crate::proofs::Joins::regroup))]
fn put_target(text: &mut Text, to: Option<u64>)
    requires { length text.old + 18 ≤ 96 }
    ensures value { text.new ≡ text.old ++ bytes_of (target to []) }
    ensures short { length text.new ≤ length text.old + 18 }
{
    if let Some(n) = to {
        text.word("0x");
        text.hex(16, n);
    }
}

/// The number of an address space, behind a bracket.
#[tactic(auto, using(crate::proofs::Joins::regroup))]
fn put_asi(text: &mut Text, asi: Option<u64>)
    requires { length text.old + 21 ≤ 96 }
    ensures value { text.new ≡ text.old ++ 32 ∷ bytes_of (value asi []) }
    ensures short { length text.new ≤ length text.old + 21 }
{
    text.word(" ");
    put_value(text, asi);
}

#[tactic(auto, using(crate::proofs::Joins::regroup))]
fn put_address(text: &mut Text, rs1: u8, from: Source)
    requires rs1 { rs1 < 32 }
    requires source { IsShownSource from }
    requires room { length text.old + 24 ≤ 96 }
    ensures value { text.new ≡ text.old ++ bytes_of (address rs1 from []) }
    ensures short { length text.new ≤ length text.old + 24 }
{
    text.register(rs1);
    put_behind(text, from);
}

fn put_mark(text: &mut Text, mark: u8)
    requires ascii { mark < 128 }
    requires room { length text.old + 2 ≤ 96 }
    ensures value { text.new ≡ text.old ++ mark ∷ bytes_of (gap mark []) }
    ensures short { length text.new ≤ length text.old + 2 }
{
    text.byte(mark);
    if mark == b',' {
        text.byte(b' ');
    }
}

/// What a slot shows of the fields.
#[tactic(auto, unfolding(crate::specs::Texts::slot_parts), using(crate::proofs::Joins::regroup))]
fn put_slot(text: &mut Text, slot: Slot, fields: Fields)
    requires fields { AreRegisters fields }
    requires mark { IsAscii slot }
    requires room { length text.old + slot_room slot ≤ 96 }
    ensures value { text.new ≡ text.old ++ bytes_of (slot_parts slot fields []) }
    ensures short { length text.new ≤ length text.old + slot_room slot }
{
    match slot {
        Slot::Mark(mark) => put_mark(text, mark),
        Slot::Rd => text.register(fields.rd),
        Slot::Rs1 => text.register(fields.rs1),
        Slot::Rs2 | Slot::Operand => put_source(text, fields.source),
        Slot::Number => put_value(text, fields.value),
        Slot::Target => put_target(text, fields.value),
        Slot::AsiNumber => put_asi(text, fields.value),
        Slot::Extra => put_value(text, fields.extra),
        Slot::Address | Slot::Within | Slot::Pair | Slot::Offset => {
            put_address(text, fields.rs1, fields.source)
        }
        Slot::Codes => text.word(if fields.wide { "%xcc" } else { "%icc" }),
        Slot::Asi => text.word(" %asi"),
        Slot::State => text.word(state(fields.number)),
        Slot::Privileged => text.word(privileged(fields.number)),
        _ => {}
    }
}

#[tactic(auto, unfolding(crate::specs::Texts::slots_parts, crate::specs::Room::room_of), using(crate::proofs::Joins::regroup, crate::proofs::Joins::slot_then))]
fn put_slots(text: &mut Text, slots: &[Slot], fields: Fields)
    requires fields { AreRegisters fields }
    requires marks { AreAscii slots.now }
    requires room { length text.old + room_of slots.now ≤ 96 }
    ensures value { text.new ≡ text.old ++ bytes_of (slots_parts slots.now fields) }
    ensures short { length text.new ≤ length text.old + room_of slots.now }
{
    let mut left = slots;
    loop {
        let Some((first, more)) = left.split_first() else {
            return;
        };
        put_slot(text, *first, fields);
        left = more;
    }
}

/// The flags of a branch.
#[tactic(auto, using(crate::proofs::Joins::regroup))]
fn put_flags(text: &mut Text, annul: bool, taken: bool)
    requires { length text.old + 5 ≤ 96 }
    ensures value { text.new ≡ text.old ++ bytes_of (annulled annul (predicted taken [])) }
    ensures short { length text.new ≤ length text.old + 5 }
{
    if annul {
        text.word(",a");
    }
    if !taken {
        text.word(",pn");
    }
}

#[tactic(auto, using(crate::proofs::Joins::regroup))]
fn put_operands(text: &mut Text, slots: &[Slot], fields: Fields)
    requires fields { AreRegisters fields }
    requires marks { AreAscii slots.now }
    requires room { length text.old + room_of slots.now + 1 ≤ 96 }
    ensures { text.new ≡ text.old ++ bytes_of (operand_parts slots.now fields) }
{
    if slots.split_first().is_some() {
        text.word(" ");
        put_slots(text, slots, fields);
    }
}

/// The line of an instruction.
#[tactic(auto, unfolding(crate::specs::Texts::parts_of), using(crate::proofs::Joins::regroup, crate::proofs::Joins::flags_then, crate::proofs::Room::shape_room, crate::proofs::Room::shape_ascii, crate::proofs::Room::registers_shown))]
fn put_line(text: &mut Text, addr: u64, insn: Insn)
    requires empty { text.old ≡ [] }
    requires range { IsInRange insn }
    ensures { text.new ≡ bytes_of (line_parts (mnemonic_of insn) (slots_of (shape_of insn)) (fields_of addr insn)) }
{
    let fields = fields(addr, insn);
    put_mnemonic(text, insn);
    put_flags(text, fields.annul, fields.taken);
    put_operands(text, shape_slots(shape(insn)), fields);
}

#[tactic(auto, using(crate::proofs::Joins::regroup))]
fn put_word(text: &mut Text, word: u32)
    requires empty { text.old ≡ [] }
    ensures { text.new ≡ bytes_of (word_parts word) }
{
    text.word(".word 0x");
    text.hex(8, word as u64);
}

#[tactic(auto, unfolding(crate::specs::Texts::parts_of))]
fn put_insn(text: &mut Text, addr: u64, word: u32, insn: Insn)
    requires empty { text.old ≡ [] }
    requires range { IsInRange insn }
    ensures { text.new ≡ bytes_of (parts_of addr word insn) }
{
    match insn {
        Insn::Illegal | Insn::FpOff | Insn::ReadHpr { .. } | Insn::WriteHpr { .. } => {
            put_word(text, word)
        }
        _ => put_line(text, addr, insn),
    }
}

/// The text of a word that stands at an address: one statement of the assembler, without a line end.
///
/// A word with no instruction of the profile is `.word` and its eight hexadecimal digits, and so is one that
/// reads or writes a hyperprivileged register, for which the assembler has no form (this project's profile).
pub fn disassemble(addr: u64, word: u32) -> ArrayString<96>
    ensures value { result.bytes ≡ text_of addr word }
    ensures tokens { lexemes_in (cut_of result.bytes) ≡ Some (lexemes_of (parts_of addr word (insn_of word))) }
{
    let mut text = Text::new();
    put_insn(&mut text, addr, word, decode(word));
    text.done()
}

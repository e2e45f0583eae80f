// What lines ask for.
use t1_elf::Listed;
use t1_form::directive::Width;
use t1_operand::fields::Instruction;

/// What a directive or an instruction asks for, with its values.
#[derive(Drop)]
pub enum Statement {
    Nothing,
    Org(Option<u64>),
    Skip(Option<u64>),
    Align(Option<u64>),
    Numbers(Width, Listed<Option<u64>>),
    Text(Listed<u8>),
    Insn(Instruction),
}

/// What stands behind the labels of a line.
#[derive(Drop)]
pub enum Body<'a> {
    Empty,
    Assigns(&'a [u8], Option<u64>),
    Holds(Statement),
}

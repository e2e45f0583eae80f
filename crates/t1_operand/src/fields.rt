// What operands say.
use t1_form::template::Template;

/// A register, or a value; None where a name has none.
#[derive(Clone, Copy, Drop)]
pub enum Source {
    Register(u8),
    Value(Option<u64>),
}

/// What operands say; what they do not say is 0, and a branch is taken.
#[derive(Clone, Copy, Drop)]
pub struct Fields {
    pub rd: u8,
    pub rs1: u8,
    /// The second operand.
    pub source: Source,
    /// An immediate, a target, or the number of an address space.
    pub value: Option<u64>,
    /// The function of a prefetch.
    pub extra: Option<u64>,
    /// The number of a state register or a privileged register.
    pub number: u8,
    pub annul: bool,
    pub taken: bool,
    /// `%xcc`.
    pub wide: bool,
}

/// An instruction as it is written: the template of its form, and what its operands say.
#[derive(Clone, Copy, Drop)]
pub struct Instruction {
    pub template: Template,
    pub fields: Fields,
}

// The forms of mnemonics.
use crate::slot::Shape;
use crate::template::Template;

/// A form: its operands, and what they are put into.
#[derive(Clone, Copy, Drop)]
pub struct Form {
    pub shape: Shape,
    pub template: Template,
}

/// The forms of a mnemonic.
#[derive(Clone, Copy, Drop)]
pub enum Forms {
    One(Form),
    Two(Form, Form),
}

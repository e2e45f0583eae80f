//! The forms of assembly statements, as tables.
//!
//! A form is a shape and a template: the shape is a list of slots, which says what stands where
//! among the operands, and the template is the instruction that they are put into. [`forms_of`] gives
//! the one or two forms of a mnemonic; short forms and aliases are rows like any other.
//! [`shape_slots`] gives the slots of a shape. `names` has the registers, the conditions, the
//! barriers and the directives.
//!
//! ```text
//! forms_of(b"ldx")     // [ A ] , rd  with  Access(Load(X), Plain)
//! ```
#![tactic(auto)]

pub mod directive;
pub mod form;
pub mod mnemonics;
pub mod names;
pub mod shapes;
pub mod slot;
pub mod template;

pub use directive::{Directive, Width};
pub use form::{Form, Forms};
pub use mnemonics::forms_of;
pub use shapes::shape_slots;
pub use slot::{Shape, Slot};
pub use template::{Access, Space, Template};

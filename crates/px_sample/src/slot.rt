//! What is known of a variable that is kept.
ghost use Rattle.px_sample.specs.Shape.{IsShape};

use crate::form::Form;

/// What is known of a variable beside its bytes: how long its name and its value are, at most 4096 together.
#[derive(Clone, Copy)]
pub struct Slot {
    pub name: u16,
    pub value: u16,
    pub form: Form,
    ghost shaped: { IsShape form value },
}

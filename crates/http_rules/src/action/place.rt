//! What texts are made of: a message, which one it is, and the variables.
use crate::action::side::Side;
use htx_arena::Arena;
use px_sample::Vars;

/// Which message rules run on, and the variables beside it.
#[derive(Clone, Copy)]
pub(crate) struct Setting<'a> {
    pub(crate) side: Side<'a>,
    pub(crate) vars: &'a Vars,
}

/// A message that is only read while a text is made of it.
#[derive(Clone, Copy)]
pub(crate) struct Place<'a> {
    pub(crate) msg: &'a Arena,
    pub(crate) setting: Setting<'a>,
}

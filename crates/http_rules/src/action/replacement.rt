//! What the replacing actions are told.
use crate::action::extent::Extent;
use log_format::Fmt;
use px_expr::Pat;

/// A pattern, and the format of the text that takes the place of what it matches.
#[derive(Clone, Copy)]
pub(crate) struct Replacement<'a> {
    pub(crate) pat: &'a Pat,
    pub(crate) fmt: &'a Fmt,
}

/// A pattern, and the text of that format.
#[derive(Clone, Copy)]
pub(crate) struct Template<'a> {
    pub(crate) pat: &'a Pat,
    pub(crate) text: &'a [u8],
}

/// A replacement in the fields of a name.
#[derive(Clone, Copy)]
pub(crate) struct FieldReplacement<'a> {
    pub(crate) name: &'a [u8],
    pub(crate) extent: Extent,
    pub(crate) by: Replacement<'a>,
}

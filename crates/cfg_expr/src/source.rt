//! Fetches and expressions as a text says them, before a direction is chosen.

use px_expr::{ConvList, Text};
use px_sample::Fetch;

/// A fetch as a text says it.
#[derive(Drop)]
pub enum Source {
    /// `hdr(name[,occ])`: the field of the direction in which it is used.
    Hdr(Text, Option<i64>),
    /// A fetch that says its direction, or has none.
    Of(Fetch),
}

/// A fetch and its converters, as a text says them.
#[derive(Drop)]
pub struct Written {
    pub source: Source,
    pub convs: ConvList,
}

//! Formats: texts and the samples of expressions, joined.
#![tactic(auto)]

mod fmt;
mod writing;

pub use fmt::{Fmt, Part, PartList};
pub use px_expr::{Buf, Env, Expr, OutOfMemory, Searchers, Text};
pub use writing::format;

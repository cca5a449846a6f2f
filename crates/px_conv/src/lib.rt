//! Converters of samples, and templates with the groups of a match put in.
#![tactic(auto)]

mod apply;
mod bytes;
mod conv;
mod encode;
mod fields;
mod number;
mod regsub;
mod template;
mod truth;

pub use apply::convert;
pub use conv::{Conv, Matches};
pub use px_pattern::{Groups, Pat, Searchers};
pub use px_sample::{Buf, OutOfMemory, Sample, Text};
pub use template::expand;

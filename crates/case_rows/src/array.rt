//! Rows of edits: steps with an array of blocks, its fields and its parts, and what they say.

mod blocks;
mod edits;
mod fields;
mod insertions;
mod messages;

pub(crate) use blocks::overwrite;
pub use edits::{made, step_all, step_message};
pub use messages::say_blocks;

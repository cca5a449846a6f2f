//! Edits of the header fields of a message in an array, and the values of its lists. Each edit is an edit of the list of
//! blocks, in one step: where it doesn't fit, nothing was changed. No call takes memory.
#![tactic(auto)]

mod back;
mod edits;
mod framing;
mod fulls;
pub mod laws;
mod matching;
mod names;
mod remove;
mod values;
mod walk;

pub use back::{full_from_back, value_from_back};
pub use edits::{add_field, set_field};
pub use fulls::{count_fulls, nth_full};
pub use matching::NameMatch;
pub use names::has_named;
pub use remove::{remove_framing, remove_named, remove_where};
pub use values::{count_values, nth_value};
pub use walk::{ValuePlace, first_place, next_full, next_value};

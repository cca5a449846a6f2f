//! Calls on bytes that the crates above share: tokens, blanks, case, numbers in digits, and the values
//! of a field that holds a list. Each is its definition in `specs/`. None takes memory.
#![tactic(auto)]

mod blanks;
mod case;
mod digits;
pub mod laws;
mod pieces;
mod texts;
mod token;

pub use blanks::trim;
pub use case::{eq_fold, fold};
pub use digits::{hex_value, read_decimal, read_hex};
pub use pieces::{ValueIndices, ValueIter, first_value, value_indices, values};
pub use texts::{write_decimal, write_hex, write_signed};
pub use token::is_token;

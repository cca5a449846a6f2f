//! Rows of messages that are written as text or go from one array to another, and what they come to.

mod kinds;
mod spellings;
mod transfers;

pub use kinds::made;

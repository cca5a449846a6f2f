//! Rows of conditions, and of expressions, formats and `acl` lines that are read, and what they come to; in folders, rows of samples, of
//! texts and of rules that run.
#![tactic(auto)]

mod conditions;
mod kinds;
mod lines;
mod messages;
mod readings;
pub mod runs;
mod sayings;
pub mod text;
pub mod values;

pub use kinds::made;

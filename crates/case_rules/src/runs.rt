//! Rows of rules that run on a head, and of the array in which a core lends the request that they leave, and what they come to.

mod configs;
mod kinds;
mod lent;
mod runs;
mod verdicts;

pub use kinds::made;

//! Rows of texts: bytes, lines, configurations, words of the command line, records and reports, and what they come to.

mod commands;
mod kinds;
mod lines;
mod records;
mod texts;

pub use kinds::made;

//! The words of one line of a configuration (Configuration Manual, section 2.2, "Quoting and escaping").
//! Nothing here knows what a word means.
#![tactic(auto)]

mod draft;
mod fault;
mod item;
mod reading;
mod words;

pub use fault::LineFault;
pub use reading::{MAX_LINE, MAX_WORDS, words_of_line};
pub use words::Words;

//! Writes a message, block by block, as text into a window (RFC 9112 sections 3 to 7), and stops at any byte.
#![tactic(auto)]

pub mod laws;
mod text;
mod units;
mod writer;

pub use writer::Writer;

//! Rows that are sessions: of files, of clients over a net whose calls fail, and at other windows.
#![tactic(auto)]

pub mod interleaved;
mod program;
pub mod served;
pub mod session;
pub mod windows;

pub use program::Program;

//! What the rules of a configuration do to the first exchange of a connection, rule by rule, and the status that its client is then
//! sent. It runs each rule once, as a session would, and writes to no link.
#![tactic(auto)]

mod answering;
mod array;
mod asking;
mod exchange;
mod heads;
pub mod laws;
mod saying;
mod telling;
mod text;
mod trace;
mod trail;
mod walk;
mod weighing;

pub use exchange::{explain, explain_blocks};
pub use http_rules::{OutOfMemory, Step};
pub use text::trace_text;
pub use trace::{Trace, TraceLine, Which};

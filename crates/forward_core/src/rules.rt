//! The rules of a session: the variables that live as long as it, the rules that run on the heads of its exchanges, and what a
//! client is sent in place of a server's answer.

mod beginning;
mod rules;
mod saying;
mod steady;

pub use rules::SessionRules;

//! `serve`: it listens, and serves one connection after another, each by a session of its caller's. It knows no message and no rule.
#![tactic(auto)]

mod connection;
mod connections;
mod driven;
pub mod laws;
mod line;
mod outcome;
mod responder;
mod serving;
mod sessions;

pub use driven::{Driven, Opens};
pub use htx_drive::{Ran, SessionFault};
pub use line::line_of;
pub use outcome::{Outcome, ServeFault};
pub use px_link::{Address, Close, End, Fault, Link, Net, OutOfMemory, Sink};
pub use responder::{Responder, ask_for};
pub use serving::serve;
pub use sessions::Sessions;

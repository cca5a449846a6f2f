//! The client and the origin of a run over loopback, as functions over any link and net; and the run, by sockets and processes.
#![tactic(auto)]

mod play;
mod texts;
pub mod visit;
mod visits;

pub use play::{PlayFault, expect, send};
pub use texts::{ANSWER, FORWARDED, REDIRECT, REDIRECTED, REQUEST, RESPONSE, RULES};
pub use visits::{connect_patiently, forwarded, redirected};

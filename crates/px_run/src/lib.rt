//! Many clients at once on one thread: what a connection does next, when it has waited too long, and the loop over all of them. It knows no message and no rule.
#![tactic(auto)]

mod accepts;
mod agenda;
mod boxed_core;
mod caller;
mod connection;
mod deadline;
mod entry;
mod hall;
mod held;
mod lines;
mod log;
mod looking;
mod next;
mod pace;
mod plan;
mod readiness;
mod rounds;
mod running;
mod step;
mod watching;

pub use deadline::{Call, Marks, Phase, Times, deadline_of, expired_of};
pub use next::{Next, Ready, next_of};
pub use plan::{Nets, Opening, Plan, RunFault};
pub use running::run;
pub use serve_run::Responder;

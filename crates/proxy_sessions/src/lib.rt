//! The sessions of a configuration: those of a record, a generated one, and those of clients that connect, each over a core of its own.
#![tactic(auto)]

mod cores;
mod lines;
mod opening;
mod records;
mod replaying;
mod running;
mod serving;

pub use records::{drill_lines, replay_report, session_report, weave_report};
pub use running::{Many, Switch, Workers, run_clients};
pub use serve_run::ServeFault;
pub use serving::serve_clients;

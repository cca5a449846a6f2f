//! A configuration as the proxy holds it, and its rules. What the rules make of a head is in `specs/`.
#![tactic(auto)]

pub mod action;
mod config;
mod laws;
mod lives;
pub mod rule;
mod run;
mod step;
mod turn;
mod verdict;

pub use crate::action::Scratch;
pub use crate::rule::{
    Action, ActionName, Cond, DelBy, Direction, Expr, Fmt, Hdr, HdrList, Part, PartList, Pat,
    Payload, RedirectTo, Rule, Rules, Scope, Text, stands_in,
};
pub use body_filter::FilterSpec;
pub use config::{Config, Filters, Timeouts};
pub use http_model::{Limits, Why};
pub use laws::{body_stays, replies_are_plain, stepping_is_the_run};
pub use lives::{begin_answer, begin_exchange};
pub use px_link::{Address, OutOfMemory};
pub use px_sample::Vars;
pub use run::{run_after, run_request, run_response};
pub use step::Step;
pub use turn::{Turn, Turned, step_rule};
pub use verdict::Verdict;

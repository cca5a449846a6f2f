//! The rules of a configuration as types: actions with their arguments, conditions, and the lists in which each action may
//! stand. Nothing here runs a rule or knows of a message.

mod action;
mod reply;
mod rule;
mod words;

pub use acl_eval::Cond;
pub use action::{Action, ActionName, DelBy, Direction, stands_in, takes_pattern};
pub use log_format::{Fmt, Part, PartList};
pub use px_expr::{ConvList, Expr, Fetch, OutOfMemory, Pat, Scope, Text};
pub use reply::{Hdr, HdrList, Payload, RedirectTo};
pub use rule::{Rule, Rules};
pub use words::action_named;

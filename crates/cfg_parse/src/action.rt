//! Rules of a configuration, from the words behind `http-request` and its like (Configuration Manual, sections 4.2 and 6): an
//! action with its arguments, and a condition. Nothing here knows of a line, of a section, or of a message.

mod actions;
mod arguments;
mod codes;
mod fault;
mod fields;
mod forwarding;
mod names;
mod params;
mod parts;
mod plain;
mod redirect;
mod request_line;
mod returns;
mod rules;
mod texts;

pub use cfg_expr::condition::{AclList, WordsLeft};
pub use fault::{RuleFault, RuleKind};
pub use forwarding::read_forwarding;
pub use http_rules::rule::{Action, Direction, Rule, Rules};
pub use params::{param_field, read_param};
pub use rules::read_rule;

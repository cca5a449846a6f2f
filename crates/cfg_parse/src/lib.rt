//! A configuration from its text (Configuration Manual, sections 2 to 4): sections, settings, `acl` lines, rules and
//! filters. Nothing here runs a rule.
#![tactic(auto)]

pub mod action;
mod address;
mod applications;
mod arguments;
mod draft;
mod fault;
mod filters;
mod finish;
mod judging;
mod keywords;
mod limits;
mod lines;
mod meanings;
mod pairs;
mod refused;
mod rule_lines;
mod sections;
mod settings;
mod sizes;
mod text;
mod times;
mod waiting;

pub use fault::{CfgFault, CfgKind};
pub use http_rules::Config;
pub use judging::verdict_of;
pub use limits::{MAX_KEPT, MAX_TEXT};
pub use meanings::meaning_of;
pub use refused::{RefusedLine, RefusedLines, Verdict};
pub use text::{first_line, load};

//! `acl` lines and conditions of a configuration, from the words of a line (Configuration Manual, sections 7.1 and 7.2): the
//! test of a line, what a name stands for, and groups of terms. Nothing here evaluates one.

mod conditions;
mod copies;
mod counts;
mod criterion;
mod flags;
mod lines;
mod names;
mod test;
mod values;
mod words_left;
mod written;

pub use crate::{Side, TextFault, TextKind};
pub use acl_eval::{Cond, Match};
pub use conditions::read_rule_end;
pub use counts::count_tests;
pub use lines::read_acl;
pub use words_left::WordsLeft;
pub use written::{AclLine, AclList, WrittenTest};

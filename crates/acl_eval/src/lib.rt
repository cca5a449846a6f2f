//! Conditions: whether some group of terms has only terms that hold, over the samples of any `Env`. Nothing here knows of
//! a message or of the text of a rule.
#![tactic(auto)]

mod condition;
mod evaluation;
mod literal;
mod matching;

pub use condition::{Cond, GroupList, Match, Term, TermList, Test, TestList, TestValue, ValueList};
pub use evaluation::holds;
pub use px_expr::{Buf, Env, Expr, OutOfMemory, Pat, Searchers, Text};

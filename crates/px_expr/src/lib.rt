//! Expressions: a fetch, and converters that its sample is put through. Nothing here knows of a message; what a
//! fetch gives is the meaning of an `Env`.
#![tactic(auto)]

mod evaluation;
mod expr;
mod mem_env;

pub use evaluation::{eval, eval_next, eval_nth};
pub use expr::{ConvList, Expr};
pub use mem_env::{Given, MemEnv};
pub use px_conv::{Conv, Pat, Searchers};
pub use px_sample::{Buf, Env, Fetch, OutOfMemory, Place, Sample, Scope, Text};

//! Expressions and formats of a configuration, from their texts (Configuration Manual, sections 7.1, 7.3 and 8.2.6): which
//! fetch, which converters, and which texts stand between them. Nothing here evaluates one.
#![tactic(auto)]

mod call;
pub mod condition;
mod converters;
mod expressions;
mod fault;
mod fetches;
mod formats;
mod numbers;
mod patterns;
mod side;
mod source;
mod word;

pub use call::{Args, Call, around, call_in, first_of};
pub use converters::read_convs;
pub use expressions::{placed_source, read_expr, read_written};
pub use fault::{TextFault, TextKind};
pub use fetches::{read_source, variable_of};
pub use formats::read_format;
pub use patterns::build;
pub use side::{Side, checked, on_side};
pub use source::{Source, Written};
pub use word::is_word;

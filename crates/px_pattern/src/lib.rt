//! Patterns of rules, over `regex` in its byte form: each is built once, shared, and searched for in any bytes.
//! What a text means as a pattern, and what it matches, is `regex`'s own definition.
#![tactic(auto)]

mod fake;
mod fault;
mod groups;
mod kept;
mod pat;
mod patterns;
mod real;
mod searchers;
mod span;

pub use fake::FakePatterns;
pub use fault::PatFault;
pub use groups::Groups;
pub use htx_model::OutOfMemory;
pub use pat::{Pat, Searcher};
pub use patterns::Patterns;
pub use real::RealPatterns;
pub use searchers::Searchers;
pub use span::Span;

//! What a configuration means for a session: its readers, rules, filters and variables as one meaning, and what the code asks
//! of a configuration for it.

mod filters;
pub mod laws;

pub use filters::{passes_limit, replaces};

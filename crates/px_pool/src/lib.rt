//! Cores that connections share, each connection one at most. It knows nothing of what a core is.
#![tactic(auto)]

mod owners;
mod pool;

pub use pool::{Pool, Took};

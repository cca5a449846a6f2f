//! What gives the samples of a request and of a response in an array: each fetch is one line of a table in `specs/`. No call
//! takes memory, and what a fetch answers is all that it copies.
#![tactic(auto)]

mod env;
mod found;
mod given;
mod headers;
mod line;
mod param;
mod place;

pub use env::{ReqEnv, ResEnv};
pub use line::host_in;

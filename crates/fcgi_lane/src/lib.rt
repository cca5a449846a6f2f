//! What a request is for a FastCGI application, and what its answer is as an HTTP stream, each over any cut. It moves no bytes itself: links and nets are those of the crates above.
#![tactic(auto)]

pub mod answer;
mod fronts;
pub mod request;

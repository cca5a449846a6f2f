//! The two directions of a connection, each over any cut of its stream: a head is read, rules may edit it, and it goes out with its body.
//! Which rules these are, and what the other direction does, is not known here.
#![tactic(auto)]

pub mod direction;
pub mod laws;
mod phase;
mod response_lane;
mod sieve;

pub use crate::direction::{Lane, LaneHead, Stage};
pub use phase::Phase;
pub use response_lane::ResponseLane;

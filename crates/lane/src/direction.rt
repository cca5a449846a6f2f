//! What both directions of a connection own: a message after the other, from the bytes that come to the text that goes out.

mod hold;
mod input;
mod lane;
pub mod laws;
mod pull;
mod sift;
mod stage;

pub use lane::Lane;
pub use stage::{LaneHead, Stage};

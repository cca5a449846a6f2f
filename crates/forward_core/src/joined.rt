//! The two directions of a session joined, with the rules between them: what a core runs.

mod asking;
mod directions;
pub mod laws;
mod saying;
mod sides;

pub use directions::Directions;

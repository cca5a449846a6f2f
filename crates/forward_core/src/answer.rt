//! The answer direction of a session: what a server's stream, the rules and the limits make of the client's text.

mod asker;
mod framing;
mod hearing;
pub mod laws;
mod place;
mod side;

pub use asker::Asker;
pub use place::Place;
pub use side::AnswerSide;

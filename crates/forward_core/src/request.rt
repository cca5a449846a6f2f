//! The request direction of a session: from the client's bytes to the text that its server gets. It runs no rule and finishes
//! no head.

mod kept;
pub mod laws;
mod line;
mod place;
mod side;

pub use kept::{Kept, kept_of};
pub use place::Place;
pub use side::RequestSide;

//! Rows of heads, bodies, windows, filters and targets, and what they come to.

mod bodies;
mod filters;
mod heads;
mod kinds;
mod targets;
mod windows;

pub use bodies::framing_of;
pub use filters::{filters_of, is_cut_same};
pub use heads::LIMITS;
pub use kinds::made;

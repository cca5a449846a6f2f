//! The connections of a record over cores that they share: each comes to what it comes to by itself, by its own turns but the first so many,
//! which moved nothing.

mod budget;
mod conns;
mod laws;
mod reports;
mod sets;
mod texts;
mod turns;
mod woven;

pub use sets::{cores_for, pool_of};
pub use texts::weave_text;
pub use woven::weave_record;

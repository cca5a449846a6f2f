//! Rows of tables: their fields, the bytes, calls and steps that these say, what a row comes to, and how many agree; in
//! folders, rows of arrays of blocks, of heads and bodies, of messages as text, and of FastCGI applications.
#![tactic(auto)]

mod answers;
pub mod applications;
pub mod array;
pub mod bodies;
mod escapes;
mod fault;
mod held;
mod reading;
mod rows;
mod score;
mod steps;
pub mod writing;

pub use answers::Answers;
pub use escapes::{count_of, decoded, place_of, quoted, split_at_first};
pub use fault::Fault;
pub use held::{Held, held_in, held_list};
pub use htx_model::OutOfMemory;
pub use reading::{Call, number_of, words_of};
pub use rows::Row;
pub use score::Score;
pub use steps::{Step, Steps};

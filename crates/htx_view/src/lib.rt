//! What a message in an array says of itself: the parts of its start line, its status code, its first field of a name.
//! Each is lent from the array or read from it, and no call takes memory.
#![tactic(auto)]

mod fields;
mod lines;

pub use fields::first_value;
pub use lines::{request_parts, response_parts, status_of};

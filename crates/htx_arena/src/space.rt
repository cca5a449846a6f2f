//! One array of bytes that payloads and descriptors share, the descriptors counted from its end. Each call is its edit of the bytes; what a
//! descriptor or a payload means is not known here.

mod lend;
mod space;

pub use htx_model::OutOfMemory;
pub use space::{Desc, Space, word};

//! How blocks lie in the bytes of an array: descriptors at the end, payloads from the front, the rule of placement, and the edits of a
//! list. It asks that an edit fits, and knows no message.

mod array;
mod change;
mod edits;
mod longer;
mod new_block;
mod pack;
mod parts;
mod payload;
mod scan;
mod sites;
mod words;

pub use array::Array;
pub use htx_model::OutOfMemory;
pub use new_block::NewBlock;
pub use words::line_head;

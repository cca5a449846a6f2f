//! The words in which the crates above speak of a message in an array: its blocks, what they weigh, and
//! the edits of a list of blocks, all in `specs/`. Nothing here knows of addresses or descriptors.
#![tactic(auto)]

use std::alloc::{AllocError, AllocFailed};

/// The seven types of a block (HTX API, "block types").
#[derive(Clone, Copy, PartialEq, Eq)]
pub enum Kind {
    RequestLine,
    ResponseLine,
    Header,
    EndHeaders,
    Data,
    Trailer,
    EndTrailers,
}

/// The machine has no memory left.
#[derive(Clone, Copy)]
pub struct OutOfMemory;

impl From<AllocError> for OutOfMemory {
    fn from(_: AllocError) -> Self {
        OutOfMemory
    }
}

impl<T: Drop> From<AllocFailed<T>> for OutOfMemory {
    fn from(_: AllocFailed<T>) -> Self {
        OutOfMemory
    }
}

//! Why a row comes to nothing.
use htx_model::OutOfMemory;
use std::alloc::{AllocError, AllocFailed};

/// Why a row comes to nothing.
#[derive(Clone, Copy, Debug)]
pub enum Fault {
    /// The row is not of its kind.
    Malformed,
    OutOfMemory,
}

impl From<OutOfMemory> for Fault {
    fn from(_: OutOfMemory) -> Self {
        Fault::OutOfMemory
    }
}

impl From<AllocError> for Fault {
    fn from(_: AllocError) -> Self {
        Fault::OutOfMemory
    }
}

impl<T: Drop> From<AllocFailed<T>> for Fault {
    fn from(_: AllocFailed<T>) -> Self {
        Fault::OutOfMemory
    }
}

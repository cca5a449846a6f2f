//! Where a variable that was found is.
use crate::slot::Slot;

/// Where a variable is: which one it is, where its name begins, and what else is known of it.
#[derive(Clone, Copy)]
pub struct Spot {
    pub index: usize,
    pub at: usize,
    pub slot: Slot,
}

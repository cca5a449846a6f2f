//! What a filter is, and what a call of a chain answers.
use px_link::Bytes;

/// A filter over the bytes of a body.
pub enum FilterSpec {
    /// The first so many bytes; more are refused with 413.
    Limit(u64),
    /// The bytes before the first needle, which is refused with 403. A needle has 1 to 256 bytes.
    Deny(Bytes),
    /// Each text of the first kind, from the left and without overlap, becomes the second. They have 1 to 256 bytes, and
    /// at most 256.
    Replace(Bytes, Bytes),
}

impl Drop for FilterSpec {
    fn drop(self) {
        match self {
            FilterSpec::Limit(_) => {}
            FilterSpec::Deny(_) => {}
            FilterSpec::Replace(_, _) => {}
        }
    }
}

/// Where a body stands.
#[derive(Clone, Copy, PartialEq, Eq)]
pub enum FedState {
    /// It goes on.
    Going,
    /// It is whole and was accepted.
    Over,
    /// It was refused with this code.
    Refused(u16),
}

/// What a call used of its piece, and gave.
#[derive(Clone, Copy)]
pub struct Fed {
    pub used: usize,
    pub given: usize,
    pub state: FedState,
}

//! Why nothing is asked of an application.

/// Why a head becomes no records.
#[derive(Clone, Copy, Debug, PartialEq, Eq)]
pub enum Refusal {
    /// It isn't a head as the proxy spells one.
    BadHead,
    /// A pair is longer than a record can be.
    LongPair,
}

//! What is noted of links that were kept.

/// The counts of a link that asked an application: those of the link below are others.
#[derive(Clone, Copy, Debug, PartialEq, Eq)]
pub struct Note {
    /// How many bytes of the answer it gave, as far as that is counted.
    pub given: u64,
    /// How many of its reads failed.
    pub read_faults: u64,
    /// How many of its writes failed.
    pub write_faults: u64,
}

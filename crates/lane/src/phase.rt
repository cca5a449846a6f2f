//! What a lane of answers puts out.

/// What is put out.
#[derive(Clone, Copy)]
pub enum Phase {
    /// Nothing: heads are read.
    Heads,
    /// An interim head, behind which heads are read on.
    Passing,
    /// An interim head, and then what stands in the first array in the answer's place.
    Turning { no_body: bool },
    /// The last that answers.
    Answering,
}

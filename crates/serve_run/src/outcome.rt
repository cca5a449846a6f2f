//! What connections come to, and why serving stops.
use htx_drive::Ran;

/// What one connection came to.
#[derive(Clone, Copy)]
pub enum Outcome {
    /// Its session ended.
    Ended(Ran),
    /// A write to the client failed.
    ClientWrite,
    /// The session's budget is spent.
    Spent,
}

/// Why serving stopped.
#[derive(Clone, Copy)]
pub enum ServeFault {
    /// A bind or an accept failed, and the net has counted that.
    Net,
    /// A line couldn't be written, and the output has counted that.
    Output,
    /// The machine has no memory left.
    OutOfMemory,
}

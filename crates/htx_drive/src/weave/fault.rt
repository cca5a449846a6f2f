//! Why connections are given up.

/// Why connections over shared cores were given up.
#[derive(Clone, Copy)]
pub enum WeaveFault {
    /// The budget is spent: as many turns as it has each moved a byte, an ending or a stop, or opened a server.
    Spent,
    /// The machine has no memory left.
    OutOfMemory,
}

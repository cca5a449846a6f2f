//! Why a build failed.
/// Why a pattern was not built.
#[derive(Clone, Copy)]
pub enum PatFault {
    /// The text is no pattern, or one that is too big.
    Refused,
    /// The machine has no memory left.
    OutOfMemory,
}

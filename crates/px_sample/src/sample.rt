//! What a fetch or a converter hands over.
/// What a fetch or a converter gives (Configuration Manual, section 7.1).
#[derive(Clone, Copy, PartialEq, Eq)]
pub enum Sample {
    /// There is none.
    Absent,
    Truth(bool),
    Number(i64),
    /// The bytes of the buffer that was handed in.
    InBuf,
}

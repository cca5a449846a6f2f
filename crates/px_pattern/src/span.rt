//! Where bytes of a text lie.
/// Bytes of a text: where they begin, and how many they are.
#[derive(Clone, Copy)]
pub struct Span {
    pub from: usize,
    pub len: usize,
}

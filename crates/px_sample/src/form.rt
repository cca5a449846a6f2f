//! The forms in which values of variables are kept.
/// What the bytes of a stored value stand for.
#[derive(Clone, Copy)]
pub enum Form {
    /// One byte: 1 or 0.
    Truth,
    /// Eight bytes, little-endian.
    Number,
    Bytes,
}

//! What of a field a pattern is searched for in.
/// Where a pattern is searched for.
#[derive(Clone, Copy)]
pub(crate) enum Extent {
    /// In the whole field value.
    Whole,
    /// In each value of a field that holds a list.
    Values,
}

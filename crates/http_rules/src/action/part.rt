//! The parts of a target that rules set and replace.
/// A part of a target.
#[derive(Clone, Copy)]
pub enum TargetPart {
    /// What stands behind the authority, without the query.
    Path,
    /// Path and query: all that stands behind the authority.
    Pathq,
    /// The whole target.
    Uri,
}

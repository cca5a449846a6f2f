//! How far a walk over samples has come.
/// Where the samples of a fetch go on. What the two numbers mean is known to the environment that made them.
#[derive(Clone, Copy)]
pub struct Place {
    pub at: u32,
    pub within: usize,
}

//! What a step came to.
use http_model::Why;

/// A step was done, or failed and changed nothing.
#[derive(Clone, Copy)]
pub enum Stepped {
    Done,
    Failed(Why),
}

//! How one rule is told of.
use http_model::Why;

/// What one rule came to.
#[derive(Clone, Copy)]
pub enum Step {
    /// Its condition doesn't hold: the next one runs.
    Passed,
    /// It ran, and the next one runs.
    Next,
    /// It failed while the mode is off: the next one runs.
    Skipped(Why),
    /// It lets the message go on, and no other one runs.
    Stop,
    /// It answers by itself.
    Reply,
    /// It refuses with this code.
    Deny(u16),
    /// It failed: the refusal 500 is sent.
    Fail(Why),
}

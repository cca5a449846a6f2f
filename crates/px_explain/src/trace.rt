//! What is told of an exchange.
use http_rules::Step;

/// A list of rules.
#[derive(Clone, Copy)]
pub enum Which {
    /// Those on the request.
    Request,
    /// Those on the server's final head.
    Response,
    /// Those on all that the client is sent.
    After,
}

/// What one rule came to.
#[derive(Clone, Copy)]
pub struct TraceLine {
    pub which: Which,
    /// Its number in its list, from 1.
    pub rule: u32,
    pub step: Step,
}

/// What is told of an exchange.
#[derive(Drop)]
pub struct Trace {
    /// One for each rule that was reached, in the order in which they ran.
    pub lines: Vec<TraceLine>,
    /// The status that the client is sent; none where nothing was asked.
    pub answer: Option<u16>,
}

//! What rules come to.
use crate::rule::Action;
use crate::step::Step;
use http_model::Why;

/// What rules make of a message.
#[derive(Clone, Copy)]
pub enum Verdict {
    /// The edited message goes on.
    Pass,
    /// A reply is sent, which stands in an array of its own.
    Reply,
    /// A refusal with this code is sent.
    Deny(u16),
    /// A rule failed: the refusal 500 is sent.
    Fail(Why),
}

/// What one rule came to.
#[derive(Clone, Copy)]
pub(crate) enum Ruled {
    /// It is told so, and the next one runs, under this mode.
    Goes(Step, bool),
    /// No other one does.
    Ends(Verdict),
    /// Nor here: it answers by itself, and its reply is to be made.
    Answers,
}

/// What a list of rules came to, before a reply is made.
#[derive(Clone, Copy)]
pub(crate) enum Ended<'c> {
    /// It needs no reply.
    With(Verdict),
    /// This action answers by itself.
    Answering(&'c Action),
}

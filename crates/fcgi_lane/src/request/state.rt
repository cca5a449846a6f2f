//! What may come from a translator of requests.

use fcgi_model::Refusal;

/// What may come behind the bytes that are ready.
#[derive(Clone, Copy, Debug, PartialEq, Eq)]
pub enum RequestState {
    /// More, if more of the request's bytes come.
    Going,
    /// Nothing: the request is whole.
    Whole,
    /// Nothing: the body isn't one as the proxy spells it. The application was told no end.
    Broken,
    /// Nothing, and nothing was given.
    Refused(Refusal),
}

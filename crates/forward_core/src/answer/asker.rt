//! What an answer has to know of its request.

/// What an answer has to know of its request, beside the method.
#[derive(Clone, Copy)]
pub struct Asker {
    /// The method is HEAD: no body is written (RFC 9110 section 9.3.2).
    pub head_asked: bool,
    /// The client is HTTP/1.1: it knows chunks and interim responses.
    pub is_http_11: bool,
    /// The connection may be kept.
    pub keep: bool,
}

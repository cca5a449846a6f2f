//! What the sides of one connection give.
use rec_format::{ServerSpec, Stream};

/// A client's stream, and the servers that connects are to find.
#[derive(Clone, Copy)]
pub struct Streams<'a> {
    pub client: &'a Stream,
    pub servers: &'a [Option<ServerSpec>],
}

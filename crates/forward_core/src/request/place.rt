//! Where the request direction of a session stands.

/// What is made of the client's next request.
#[derive(Clone, Copy)]
pub enum Place {
    /// Its head is to be read.
    Reading,
    /// It goes to a server, or has gone there.
    Sending,
    /// Nothing is read and nothing goes out: its head stands in the array, it is refused, or none comes.
    Idle,
    /// Rules reply to it, with no server.
    Replied,
}

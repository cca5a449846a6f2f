//! What of an exchange is put out to its client.

/// What is put out.
#[derive(Clone, Copy, PartialEq, Eq)]
pub enum Place {
    /// Nothing: no server is open.
    Idle,
    /// Interim responses, while heads of the server are read.
    Heads,
    /// The server's response.
    Response,
    /// In its place a refusal, or the plain one.
    Closing,
    /// In its place a reply of the rules, which closes the connection only where it may not be kept.
    Keeping,
    /// What no server answers: the refusal or the reply of a request, or the refusal of a cut one.
    Saying,
}

//! What is known of one direction of a stream.

/// Whether a call would be answered at once.
#[derive(Clone, Copy, PartialEq, Eq)]
pub enum Ready {
    /// It would wait, and an event will tell when that changes.
    No,
    /// It is answered at once.
    Yes,
    /// No event need tell: the last call moved all that it was given. A question to the system settles it.
    Untold,
}

/// What is known after a call that moved so many bytes of so many.
pub fn after(moved: usize, asked: usize) -> Ready {
    if moved < asked {
        Ready::No
    } else {
        Ready::Untold
    }
}

/// What an answer of the system says.
pub fn ready_if(is_ready: bool) -> Ready {
    if is_ready { Ready::Yes } else { Ready::No }
}

//! The words in which the crates above speak of an HTTP/1.1 message: the types that definitions and code
//! share, and in `specs/` the head and the message, edits of fields, finishing, refusals and spelling.
#![tactic(auto)]

mod framing_names;

pub use framing_names::{FRAMING_NAMES, is_framing_name};
pub use htx_model::{Kind, OutOfMemory};

/// The most bytes of an array of blocks.
pub const MAX_BUFSIZE: u32 = 262144;

/// The least bytes of an array of blocks.
pub const MIN_BUFSIZE: u32 = 1024;

/// The most bytes of a field's name.
pub const MAX_NAME: usize = 255;

/// How the body of a message is found (RFC 9112 section 6.3).
#[derive(Clone, Copy)]
pub enum Framing {
    /// There is no body.
    Absent,
    /// So many bytes.
    Length(u64),
    /// Chunks, the last chunk and the trailer section.
    Chunked,
    /// All bytes up to the end of the connection.
    ToClose,
}

/// The sizes of a configuration, in bytes: `tune.bufsize`, and of it what a received head leaves free.
#[derive(Clone, Copy)]
pub struct Limits {
    /// 1024 to 262144.
    pub bufsize: u32,
    /// At most `bufsize - 512`.
    pub maxrewrite: u32,
}

/// Why a step of a rule failed.
#[derive(Clone, Copy, Debug)]
pub enum Why {
    /// The list of blocks after the step would not fit the buffer.
    Room,
    /// A text of more bytes than the buffer has, or a byte that may not stand where the rule would put it.
    Bytes,
}

/// Where the body of a message on its way stands.
#[derive(Clone, Copy)]
pub enum Source {
    /// It still comes.
    Going,
    /// It came whole.
    Whole,
    /// It broke off, was none, or is refused: this code refuses the message.
    Cut(u16),
}

/// How a stream of bytes ended.
#[derive(Clone, Copy, Debug)]
pub enum Ending {
    /// The peer closed it.
    Closed,
    /// It failed.
    Broke,
}

/// How a link was closed.
#[derive(Clone, Copy, Debug)]
pub enum Close {
    /// In order.
    Clean,
    /// So that the peer sees that its message is not whole.
    Failed,
}

/// How a session ended.
#[derive(Clone, Copy)]
pub enum End {
    /// The client sent no further request.
    Done,
    /// The connection was not to be kept.
    Closed,
    /// A response was cut.
    Cut,
}

//! What the reader answers.
ghost use Rattle.std.specs.Prelude.{◌≡◌};
ghost use Rattle.h1_head.specs.Rows.{request_code, response_code};

use http_model::Framing;

/// What a window says of a head.
#[derive(Clone, Copy)]
pub enum HeadRead {
    /// The window does not decide yet. Where the stream has ended, it was empty lines alone.
    More {
        /// The bytes of the whole empty lines in front, which the caller may drop.
        skip: usize,
    },
    /// A head is received.
    Head {
        /// The bytes of the empty lines in front and of the head.
        used: usize,
        /// How the body that follows is framed (RFC 9112 section 6.3).
        framing: Framing,
        /// The length that Content-Length declares.
        declared: Option<u64>,
        /// Connection has the element `close` (RFC 9112 section 9.6).
        close: bool,
    },
    /// There is no head, or it is refused. The connection is to be closed behind the refusal.
    Refuse {
        /// The status code of the refusal.
        code: u16,
        why: HeadWhy,
    },
}

/// Whose head is read.
#[derive(Clone, Copy)]
pub enum Side {
    /// A client's.
    Request,
    /// A server's, to a request whose method was HEAD or another.
    Response { head_asked: bool },
}

/// Why a head is refused.
#[derive(Clone, Copy, Debug)]
pub enum HeadWhy {
    /// The bytes are no head, or the stream ends within it.
    Grammar = 1,
    /// More bytes than the array has, or more than 256 fields.
    Long = 2,
    /// A field name of more than 255 bytes.
    Name = 3,
    /// No Host field in HTTP/1.1, or several; a target of no form that its method may have; a Host that is no authority, or not that of the target (RFC 9112
    /// sections 3.2 and 3.2.2).
    Host = 4,
    /// CONNECT, or a response that switches protocols: neither is implemented (RFC 9110 sections 9.3.6 and 15.2.2).
    Method = 5,
    /// Transfer-Encoding in HTTP/1.0 or beside Content-Length, or lengths that are no one number.
    Framing = 6,
    /// A transfer coding other than one `chunked` (RFC 9112 section 6.1).
    Coding = 7,
    /// The received head would leave rules too little room.
    Receive = 8,
}

impl HeadWhy {
    /// The status code with which a request is refused.
    pub fn request_code(self) -> u16
        ensures { result ≡ request_code self }
    {
        match self {
            HeadWhy::Method | HeadWhy::Coding => 501,
            HeadWhy::Grammar
            | HeadWhy::Long
            | HeadWhy::Name
            | HeadWhy::Host
            | HeadWhy::Framing
            | HeadWhy::Receive => 400,
        }
    }

    /// The status code that a client is answered with in place of a response.
    pub fn response_code(self) -> u16
        ensures { result ≡ response_code self }
    {
        502
    }
}

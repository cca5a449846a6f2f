//! What a record holds: connections with their streams, and turns.
use px_link::{Bytes, Ending, Turn};

/// Bytes that come in, and how they end.
pub struct Stream {
    pub bytes: Bytes,
    pub ending: Ending,
}

impl Drop for Stream {
    fn drop(self) {
        let Stream {
            bytes: _,
            ending: _,
        } = self;
    }
}

/// A server that is there.
pub struct ServerSpec {
    pub stream: Stream,
    /// After how many bytes it stops taking; none where it takes all.
    pub takes: Option<u64>,
}

impl Drop for ServerSpec {
    fn drop(self) {
        let ServerSpec {
            stream: _,
            takes: _,
        } = self;
    }
}

/// A client, and the servers in the order of the connects, none for a refused one.
pub struct Connection {
    pub client: Stream,
    pub servers: Vec<Option<ServerSpec>>,
}

impl Drop for Connection {
    fn drop(self) {
        let Connection {
            client: _,
            servers: _,
        } = self;
    }
}

/// A record.
pub struct Record {
    /// 1 or 2: the format.
    pub version: u32,
    pub conns: Vec<Connection>,
    /// Each with the number of its connection, from 1.
    pub turns: Vec<(u32, Turn)>,
}

impl Drop for Record {
    fn drop(self) {
        let Record {
            version: _,
            conns: _,
            turns: _,
        } = self;
    }
}

/// Why a record is refused.
#[derive(Clone, Copy, Debug)]
pub enum RecKind {
    /// The first line names no format.
    Header = 1,
    /// A line of a client or a server, or the bytes behind it.
    Length = 2,
    /// The line of the turns, or a turn.
    Turn = 3,
    /// There is no `end`, or bytes stand behind it.
    Rest = 4,
    /// A limit is passed.
    Limit = 5,
    /// The line of the connections, or their number.
    Count = 6,
}

/// Why a record was not read.
#[derive(Clone, Copy)]
pub enum RecFault {
    /// The place is that of the first byte of the line that is refused.
    Refused { place: u32, kind: RecKind },
    /// The machine has no memory left.
    OutOfMemory,
}

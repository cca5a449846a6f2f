//! The end of a stream whose peer may still be sending: what it sends is read and thrown away, until it ends too. A system that gets bytes for a
//! socket that is gone answers with a reset, and a reset may take from the peer what it hasn't read yet (RFC 9112 section 9.6).
use crate::stream_calls::read_open;
use std::io;
use std::io::{ErrorKind, Read};
use std::net::OpenStream;
use std::time::{Clock, Duration, Instant};

/// How long a peer has to end too, in all.
const PATIENCE_MILLIS: u64 = 2000;

/// How many bytes are thrown away at most, but for the last piece.
const MOST: usize = 1048576;

const PIECE: usize = 4096;

/// What came of a read whose bytes are thrown away.
enum Thrown {
    /// So many bytes.
    Bytes(usize),
    /// Nothing is there now.
    Nothing,
    /// The peer has ended, or the stream has failed.
    Ended,
}

/// Reads a piece, and throws it away.
fn throw_piece<S: Read>(stream: &mut Option<S>) -> Thrown {
    let mut piece = [0u8; PIECE];
    match read_open(stream, &mut piece) {
        Ok(0) => Thrown::Ended,
        Ok(n) => Thrown::Bytes(n),
        Err(error) if error.kind() == ErrorKind::WouldBlock => Thrown::Nothing,
        Err(_) => Thrown::Ended,
    }
}

/// What a stream's end has come to.
#[derive(Clone, Copy, PartialEq, Eq)]
pub enum Lingering {
    /// The peer may still send.
    GoesOn,
    /// The peer has ended too, or has sent too much.
    Over,
}

/// Throws away what is there now, of a stream that doesn't block. `thrown` is how many bytes that were in all.
pub fn linger_now<S: Read>(stream: &mut Option<S>, thrown: &mut usize) -> Lingering {
    for _ in 0..MOST {
        if *thrown >= MOST {
            return Lingering::Over;
        }
        match throw_piece(stream) {
            Thrown::Bytes(n) => *thrown = thrown.saturating_add(n),
            Thrown::Nothing => return Lingering::GoesOn,
            Thrown::Ended => return Lingering::Over,
        }
    }
    Lingering::Over
}

/// How much of the time is left; none where it is over, or can't be told.
fn time_left<R: Clock>(rt: &R, start: Instant) -> Option<Duration> {
    let Ok(now) = Instant::now(rt) else {
        return None;
    };
    let patience = Duration::from_millis(PATIENCE_MILLIS);
    let spent = now.saturating_duration_since(start);
    if spent >= patience {
        return None;
    }
    Some(patience.saturating_sub(spent))
}

/// Has the next read wait for at most this time.
fn patient<S: OpenStream>(stream: &Option<S>, wait: Duration) -> io::Result<()> {
    match stream {
        Some(stream) => stream.set_read_timeout(Some(wait)),
        None => Err(io::Error::from(ErrorKind::NotConnected)),
    }
}

/// Waits for the end of the peer of a stream that blocks, for at most the time that there is, and throws away what comes.
pub fn linger<R: Clock, S: Read + OpenStream>(rt: &R, stream: &mut Option<S>) {
    let Ok(start) = Instant::now(rt) else {
        return;
    };
    let mut thrown = 0usize;
    for _ in 0..MOST {
        let Some(wait) = time_left(rt, start) else {
            return;
        };
        if patient(stream, wait).is_err() {
            return;
        }
        match throw_piece(stream) {
            Thrown::Bytes(n) => thrown = thrown.saturating_add(n),
            Thrown::Nothing => return,
            Thrown::Ended => return,
        }
        if thrown >= MOST {
            return;
        }
    }
}

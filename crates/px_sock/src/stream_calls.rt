//! Calls of a stream that may be gone.
ghost use Rattle.std.specs.Prelude.{◌<◌, ◌≤◌, length, IfOk};
ghost use Rattle.std.specs.Io.{ReadsAtMost};

use std::io;
use std::io::{ErrorKind, Read, Write};
use std::net::{OpenStream, Shutdown};

/// Reads from a stream that is there.
pub fn read_open<S: Read>(stream: &mut Option<S>, into: &mut [u8]) -> io::Result<usize>
    ensures { ReadsAtMost result into.new }
{
    match stream {
        Some(stream) => stream.read(into),
        None => Err(io::Error::from(ErrorKind::NotConnected)),
    }
}

/// Writes some of a piece to a stream that is there; one that takes nothing fails.
pub fn write_open<S: Write>(stream: &mut Option<S>, piece: &[u8]) -> io::Result<usize>
    ensures { IfOk result (λ n. (0 < n) × (n ≤ length piece.now)) }
{
    let Some(stream) = stream else {
        return Err(io::Error::from(ErrorKind::NotConnected));
    };
    match stream.write(piece) {
        Ok(0) => Err(io::Error::from(ErrorKind::WriteZero)),
        Ok(n) => Ok(n),
        Err(error) => Err(error),
    }
}

/// Sends the end of what is written; whether that was done.
pub fn sends_end<S: OpenStream>(stream: &Option<S>) -> bool {
    match stream {
        Some(stream) => stream.shutdown(Shutdown::Write).is_ok(),
        None => false,
    }
}

/// Has each piece that is written be sent by itself, or together with what follows; what was kept for that is sent then. Whether that was done.
pub fn sends_apart<S: OpenStream>(stream: &Option<S>, apart: bool) -> bool {
    match stream {
        Some(stream) => stream.set_nodelay(apart).is_ok(),
        None => false,
    }
}

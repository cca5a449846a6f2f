//! Calls of a stream that doesn't block: one that would wait is made once more behind a wait, and one whose time is over fails.
ghost use Rattle.std.specs.Prelude.{◌≡◌, ◌<◌, ◌≤◌, length, true, IfOk, IsErr};
ghost use Rattle.std.specs.Io.{ReadsAtMost};

use crate::stream_calls::{read_open, write_open};
use libc::net as c;
use libc::types::pollfd;
use std::io;
use std::io::{ErrorKind, Read, Write};
use std::os::fd::AsRawFd;

/// How long a call waits that was made although it can't be answered at once.
const WAIT_MILLIS: i32 = 1000;

/// Waits until one of these events of the stream comes, for at most so many milliseconds; whether one came. A stream that is gone, and one that
/// can't be asked, count as ready: the call that follows fails.
fn comes<S: AsRawFd>(stream: &Option<S>, events: i16, millis: i32) -> bool {
    let Some(stream) = stream else {
        return true;
    };
    let mut asked = [pollfd {
        fd: stream.as_raw_fd(),
        events,
        revents: 0,
    }];
    c::poll(&mut asked, millis) != 0
}

/// Whether a read is answered at once.
pub fn reads_now<S: AsRawFd>(stream: &Option<S>) -> bool {
    comes(stream, c::POLLIN, 0)
}

/// Whether a write is answered at once.
pub fn writes_now<S: AsRawFd>(stream: &Option<S>) -> bool {
    comes(stream, c::POLLOUT, 0)
}

/// Whether the error says that a call would wait.
fn would_wait<T>(answer: &io::Result<T>) -> bool {
    match answer {
        Ok(_) => false,
        Err(error) => error.kind() == ErrorKind::WouldBlock,
    }
}

/// Reads; where nothing is there, once more behind a wait.
fn read_waiting<S: Read + AsRawFd>(stream: &mut Option<S>, into: &mut [u8]) -> io::Result<usize>
    ensures { ReadsAtMost result into.new }
{
    let first = read_open(stream, into);
    if would_wait(&first) && comes(stream, c::POLLIN, WAIT_MILLIS) {
        return read_open(stream, into);
    }
    first
}

/// Writes; where nothing is taken, once more behind a wait.
fn write_waiting<S: Write + AsRawFd>(stream: &mut Option<S>, piece: &[u8]) -> io::Result<usize>
    ensures { IfOk result (λ n. (0 < n) × (n ≤ length piece.now)) }
{
    let first = write_open(stream, piece);
    if would_wait(&first) && comes(stream, c::POLLOUT, WAIT_MILLIS) {
        return write_open(stream, piece);
    }
    first
}

/// Reads, where the time for it isn't over.
pub fn read_in_time<S: Read + AsRawFd>(
    stream: &mut Option<S>,
    is_over: bool,
    into: &mut [u8],
) -> io::Result<usize>
    ensures reads { ReadsAtMost result into.new }
    ensures over { is_over ≡ true → IsErr result }
{
    if is_over {
        return Err(io::Error::from(ErrorKind::TimedOut));
    }
    read_waiting(stream, into)
}

/// Writes, where the time for it isn't over.
pub fn write_in_time<S: Write + AsRawFd>(
    stream: &mut Option<S>,
    is_over: bool,
    piece: &[u8],
) -> io::Result<usize>
    ensures writes { IfOk result (λ n. (0 < n) × (n ≤ length piece.now)) }
    ensures over { is_over ≡ true → IsErr result }
{
    if is_over {
        return Err(io::Error::from(ErrorKind::TimedOut));
    }
    write_waiting(stream, piece)
}

//! One process that serves, and what it writes.
ghost use Rattle.std.specs.Prelude.{◌≡◌, ◌≤◌, ◌++◌, length};

use memchr::{memchr, memrchr};
use px_link::{OutOfMemory, Sink};
use std::alloc::Global;
use std::io::Read;
use std::os::fd::{AsRawFd, OwnedFd};
use std::process::{Child, Command, ExitStatus, Stdio};
use std::time::{Duration, Instant};
use std::{env, io};

/// The word that stands in place of `run` where a process is a worker.
pub const WORD: &str = "worker";

/// The option that says how many there are, which no worker is told.
const OPTION: &str = "--workers";

/// No other process is started in place of one before so much time behind its start.
const LEAST_MILLIS: u64 = 1000;

/// How the line begins that says that it listens.
const LISTENING: &[u8] = b"listening ";

const PIECE: usize = 4096;

/// How a look at a worker went.
#[derive(Clone, Copy)]
pub enum Looked {
    /// It goes on, or there is none.
    Goes,
    /// It has ended so, just now; with none, it isn't known how.
    Ended(Option<ExitStatus>),
}

/// One process that serves.
#[derive(Drop)]
pub struct Worker {
    child: Option<Child>,
    /// When it was started.
    start: Instant,
    /// What it has written behind its last whole line.
    rest: Vec<u8>,
    /// Its first line is still to come. Where that says that it listens it isn't passed on.
    is_first: bool,
}

/// The program that this process is, with its words but for the number of workers, as a worker.
fn command(rt: &HostRuntime, listener: OwnedFd) -> io::Result<Command> {
    let mut words = env::args(rt)?;
    let Some(program) = words.next() else {
        return Err(io::Error::from(io::ErrorKind::NotFound));
    };
    let mut command = Command::new(rt.alloc(), program.as_str())?;
    command.arg(WORD)?;
    let mut is_number = false;
    for word in words.skip(1) {
        if word.as_str() == OPTION {
            is_number = true;
        } else if is_number {
            is_number = false;
        } else {
            command.arg(word.as_str())?;
        }
    }
    command.stdin(listener);
    command.stdout(Stdio::piped());
    Ok(command)
}

/// The whole lines in front, and what stands behind them.
fn lines_of(bytes: &[u8]) -> (&[u8], &[u8])
    ensures { result.0.now ++ result.1.now ≡ bytes.now }
{
    match memrchr(b'\n', bytes) {
        Some(at) => bytes.split_at(at + 1),
        None => bytes.split_at(0),
    }
}

/// What stands behind the first line.
fn behind_first(lines: &[u8]) -> &[u8] {
    match memchr(b'\n', lines) {
        Some(at) => &lines[at + 1..],
        None => lines,
    }
}

/// Reads what a process has written, of which something or its end is there. Its end is 0, as is a read that fails.
fn read_of(child: &mut Child, piece: &mut [u8]) -> usize
    ensures { result ≤ length piece.new }
{
    match &mut child.stdout {
        Some(out) => match out.read(piece) {
            Ok(count) => count,
            Err(_) => 0,
        },
        None => 0,
    }
}

impl Worker {
    /// A process of this program that has the listener as its standard input, and whose lines come here.
    pub fn start(rt: &HostRuntime, listener: OwnedFd) -> io::Result<Worker> {
        let child = command(rt, listener)?.spawn(rt)?;
        Ok(Worker {
            child: Some(child),
            start: Instant::now(rt)?,
            rest: Vec::new(rt.alloc()),
            is_first: true,
        })
    }

    /// The number of what it writes to; with none it has ended.
    pub fn descriptor(&self) -> Option<i32> {
        match &self.child {
            Some(child) => match &child.stdout {
                Some(out) => Some(out.as_raw_fd()),
                None => None,
            },
            None => None,
        }
    }

    /// Whether it has ended, and another may be started in its place.
    pub fn is_due(&self, now: Instant) -> bool {
        self.child.is_none()
            && now.saturating_duration_since(self.start) >= Duration::from_millis(LEAST_MILLIS)
    }

    /// Counts this as its start.
    pub fn put_off(&mut self, now: Instant) {
        self.start = now;
    }

    /// Writes its whole lines. An output that is gone is in nobody's way.
    fn write_lines<K: Sink>(&mut self, alloc: Global, out: &mut K) -> Result<(), OutOfMemory> {
        let (lines, behind) = lines_of(&self.rest);
        if lines.is_empty() {
            return Ok(());
        }
        let shown = if self.is_first && lines.starts_with(LISTENING) {
            behind_first(lines)
        } else {
            lines
        };
        let _ = out.write_all(shown);
        let mut rest = Vec::new(alloc);
        rest.extend_from_slice(behind)?;
        self.rest = rest;
        self.is_first = false;
        Ok(())
    }

    /// How it ended, which it is about to do or has done.
    fn end(&mut self) -> Looked {
        match self.child.take() {
            Some(mut child) => match child.wait() {
                Ok(status) => Looked::Ended(Some(status)),
                Err(_) => Looked::Ended(None),
            },
            None => Looked::Goes,
        }
    }

    /// Reads what it has written, of which something or its end is there, and writes the lines that are whole by that.
    pub fn look<K: Sink>(&mut self, alloc: Global, out: &mut K) -> Result<Looked, OutOfMemory> {
        let mut piece = [0u8; PIECE];
        let count = match &mut self.child {
            Some(child) => read_of(child, &mut piece),
            None => return Ok(Looked::Goes),
        };
        if count == 0 {
            return Ok(self.end());
        }
        self.rest.extend_from_slice(&piece[..count])?;
        self.write_lines(alloc, out)?;
        Ok(Looked::Goes)
    }
}

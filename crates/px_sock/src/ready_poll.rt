//! The wait for all streams of a loop, over the system's poll.
ghost use Rattle.std.specs.Prelude.{◌≡◌, List, ℕ};

use crate::handover::OUTPUT;
use crate::input_end::INPUT;
use crate::ready_link::ReadyLink;
use crate::ready_net::ReadyNet;
use crate::tokens::{token_of, watched_of};
use mio::event::Event;
use mio::unix::SourceFd;
use mio::{Events, Interest, Poll, Registry, Token};
use px_link::{Fault, OutOfMemory, Readiness, Waits, Wake, Wakes, Watched};
use std::alloc::Global;
use std::io::{Eprint, ErrorKind};
use std::net::TcpStream;
use std::os::fd::RawFd;
use std::time::{Clock, Duration, Instant};
use std::{io, net};

/// How many events one wait tells of at most. Others are told by the next.
const EVENTS: usize = 1024;

/// How long a wait is at most while the listener can't be watched.
const RETRY_MILLIS: u64 = 100;

/// A wait for all streams of a loop.
pub struct ReadyPoll<'a, R> {
    rt: &'a R,
    poll: Poll,
    events: Events<Global>,
    start: Instant,
    /// The last time that the clock told.
    time: u64,
    /// The listener is to be watched, and can't be.
    unwatched: bool,
}

impl<R> Drop for ReadyPoll<'_, R> {
    fn drop(self) {
        let ReadyPoll {
            rt: _,
            poll: _,
            events: _,
            start: _,
            time: _,
            unwatched: _,
        } = self;
    }
}

impl<'a, R: net::Net + Clock> ReadyPoll<'a, R> {
    /// A wait for nothing yet. Its clock begins at 0.
    pub fn new(alloc: Global, rt: &'a R) -> io::Result<Self> {
        Ok(ReadyPoll {
            rt,
            poll: Poll::new(rt)?,
            events: Events::with_capacity(alloc, EVENTS)?,
            start: Instant::now(rt)?,
            time: 0,
            unwatched: false,
        })
    }

    /// Has later waits end where standard input comes, or ends; they name the listener then. A file on disk, which never waits, needs no watch.
    pub fn watch_input(&mut self) {
        let registry = self.poll.registry();
        let _ = report(registry, Some(INPUT), Watched::Listener, Interest::READABLE);
    }

    /// Has a later wait end where nobody reads standard output any more; it names the listener then. An output on disk needs no watch.
    pub fn watch_output(&mut self) {
        let registry = self.poll.registry();
        // of an output nothing is told but its fault
        let _ = report(
            registry,
            Some(OUTPUT),
            Watched::Listener,
            Interest::READABLE,
        );
    }
}

/// Has the poll of this registry report a stream, at once where it is ready. One that was reported before is so anew.
fn report(
    registry: &Registry,
    stream: Option<RawFd>,
    whom: Watched,
    interest: Interest,
) -> io::Result<()> {
    let Some(fd) = stream else {
        return Err(io::Error::from(ErrorKind::NotConnected));
    };
    let token = Token(token_of(whom));
    match registry.register(&mut SourceFd(&fd), token, interest) {
        Err(error) if error.kind() == ErrorKind::AlreadyExists => {
            registry.reregister(&mut SourceFd(&fd), token, interest)
        }
        other => other,
    }
}

/// Both directions of a stream.
fn both() -> Interest {
    Interest::READABLE | Interest::WRITABLE
}

/// What an event tells.
fn wake_of(event: &Event) -> Wake {
    let failed = event.is_error() || event.is_write_closed();
    let ended = event.is_read_closed() || failed;
    Wake {
        whom: watched_of(event.token().0),
        readiness: Readiness {
            reads: event.is_readable() || ended,
            writes: event.is_writable() || failed,
            ended,
        },
    }
}

/// A time in milliseconds.
fn millis(time: Duration) -> u64 {
    u64::try_from(time.as_millis()).unwrap_or(u64::MAX)
}

/// Has each later call of a link fail.
fn expire<L: Waits>(link: &mut L)
    ensures seen { L.seen link.new ≡ L.seen link.old }
    ensures wrote { (bytes : List ℕ) → L.wrote link.old bytes → L.wrote link.new bytes }
{
    link.expire_read();
    link.expire_write();
}

/// The time that a wait has.
fn patience(at_most: Option<u64>, unwatched: bool) -> Option<Duration> {
    let least = match at_most {
        Some(millis) if unwatched => Some(millis.min(RETRY_MILLIS)),
        None if unwatched => Some(RETRY_MILLIS),
        other => other,
    };
    least.map(Duration::from_millis)
}

impl<'a, R: net::Net + Clock + Eprint> Wakes<ReadyNet<'a, R>> for ReadyPoll<'a, R> {
    fn watch_listener(&mut self, net: &mut ReadyNet<'a, R>) {
        let registry = self.poll.registry();
        let watched = report(
            registry,
            net.listener(),
            Watched::Listener,
            Interest::READABLE,
        );
        self.unwatched = watched.is_err();
    }

    fn leave_listener(&mut self, net: &mut ReadyNet<'a, R>) {
        self.unwatched = false;
        if let Some(fd) = net.listener() {
            let _ = self.poll.registry().deregister(&mut SourceFd(&fd));
        }
    }

    fn watch_client(&mut self, place: usize, link: &mut ReadyLink<TcpStream>) {
        let registry = self.poll.registry();
        if report(registry, link.descriptor(), Watched::Client(place), both()).is_err() {
            expire(link);
        }
    }

    fn watch_server(&mut self, place: usize, link: &mut ReadyLink<TcpStream>) {
        let registry = self.poll.registry();
        if report(registry, link.descriptor(), Watched::Server(place), both()).is_err() {
            expire(link);
        }
    }

    fn watch_connect(&mut self, place: usize, net: &mut ReadyNet<'a, R>) {
        let Some(fd) = net.connecting() else {
            return;
        };
        let registry = self.poll.registry();
        if report(registry, Some(fd), Watched::Server(place), both()).is_err() {
            net.give_up_connect();
        }
    }

    fn wait(&mut self, at_most: Option<u64>) -> Result<(), Fault> {
        let time = patience(at_most, self.unwatched);
        match self.poll.poll(&mut self.events, time) {
            Ok(()) => Ok(()),
            Err(_) => Err(Fault::Failed),
        }
    }

    fn woken(&mut self, into: &mut Vec<Wake>) -> Result<(), OutOfMemory> {
        for event in self.events.iter() {
            into.push(wake_of(event))?;
        }
        if self.unwatched {
            into.push(Wake {
                whom: Watched::Listener,
                readiness: Readiness {
                    reads: true,
                    writes: false,
                    ended: false,
                },
            })?;
        }
        Ok(())
    }

    /// Where the clock can't be read, the time is the last that it told.
    fn now(&mut self) -> u64 {
        if let Ok(now) = Instant::now(self.rt) {
            self.time = millis(now.saturating_duration_since(self.start));
        }
        self.time
    }
}

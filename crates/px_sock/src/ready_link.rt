//! A link over a stream of the system that doesn't block.
ghost use Rattle.std.specs.Prelude.{◌≡◌, ℕ, ◌<◌, List, length, true, false, IsErr};
ghost use Rattle.px_link.specs.Link.{Reads, Writes, with_close};
ghost use Rattle.px_sock.specs.Ready.{link_of};

use crate::faults::{count, counted};
use crate::linger::{Lingering, linger_now};
use crate::pairs::{Ends, pair_of};
use crate::ready::{Ready, after, ready_if};
use crate::stream_calls::{sends_apart, sends_end};
use crate::stream_waits::{read_in_time, reads_now, write_in_time, writes_now};
use px_link::{Close, Failed, Fault, Link, Readiness, Waits};
use px_peer::Pair;
use px_proxyproto::HasPair;
use std::io::{Read, Write};
use std::marker::Model;
use std::net::OpenStream;
use std::os::fd::{AsRawFd, RawFd};

/// A piece of so many bytes is kept for what follows at once. For shorter ones it isn't worth the calls that ask for it.
const LONG: usize = 4096;

/// So many bytes go in one segment to a peer that announces no size of its own (RFC 9293 section 3.7.1). To one that announces less the end of such a piece waits until its front is acknowledged.
const SEGMENT: usize = 536;

/// How the system sends what is written. On a new stream it keeps the end of a piece until all that was sent is acknowledged (RFC 9293 section 3.7.4).
#[derive(Clone, Copy, PartialEq, Eq)]
enum Sends {
    /// So, and nothing was written yet.
    New,
    /// So, and all that was written was sent.
    Sent,
    /// So, and it may keep some of what was written.
    Keeps,
    /// Each piece is sent at once.
    Apart,
}

/// How it does behind a piece of so many bytes: what is written first waits for nothing, but for what is longer than a segment.
fn behind(before: Sends, len: usize) -> Sends {
    match before {
        Sends::New if len <= SEGMENT => Sends::Sent,
        Sends::Apart => Sends::Apart,
        Sends::New => Sends::Keeps,
        Sends::Sent => Sends::Keeps,
        Sends::Keeps => Sends::Keeps,
    }
}

/// A link over a stream that doesn't block. Contracts see its two counts, and which calls have no time left.
pub struct ReadyLink<S> {
    /// None once it was closed.
    stream: Option<S>,
    /// Behind the close: its stream, where the peer has still to end.
    closing: Option<S>,
    /// The peer may still send when the link is closed, and wants what it was sent.
    lingers: bool,
    /// How many bytes were thrown away behind the close.
    thrown: usize,
    reads: Ready,
    writes: Ready,
    /// More follows at once what is written next.
    follows: bool,
    sends: Sends,
    /// What is known of both ends of the stream.
    ends: Ends,
    /// An event told that the peer sends no more: no later one will tell of what is left.
    ended: bool,
    reads_over: bool,
    writes_over: bool,
    read_faults: u64,
    write_faults: u64,
}

impl<S: Drop> Drop for ReadyLink<S> {
    fn drop(self) {
        let ReadyLink {
            stream: _,
            closing: _,
            lingers: _,
            thrown: _,
            reads: _,
            writes: _,
            follows: _,
            sends: _,
            ends: _,
            ended: _,
            reads_over: _,
            writes_over: _,
            read_faults: _,
            write_faults: _,
        } = self;
    }
}

impl<S> Model for ReadyLink<S> {
    ghost use Rattle.px_sock.specs.Ready.{ReadySeen};

    ghost Value = { ReadySeen };

    ghost view = { λ l. record {
      read_faults = l.read_faults;
      write_faults = l.write_faults;
      reads_over = l.reads_over;
      writes_over = l.writes_over;
    } };
}

impl<S: OpenStream + AsRawFd + Drop> ReadyLink<S> {
    /// A link over this stream, which is new, and of whose ends so much is known. One that lingers is closed so that its peer loses nothing.
    pub fn new(stream: S, lingers: bool, ends: Ends) -> Self
        ensures { result ≡ record { read_faults = 0; write_faults = 0; reads_over = false; writes_over = false } }
    {
        ReadyLink {
            stream: Some(stream),
            closing: None,
            lingers,
            thrown: 0,
            reads: reads_first(lingers),
            // nothing was written yet, so there is room
            writes: Ready::Yes,
            follows: false,
            sends: Sends::New,
            ends,
            ended: false,
            reads_over: false,
            writes_over: false,
            read_faults: 0,
            write_faults: 0,
        }
    }

    /// The number of its stream, by which a wait is told of it.
    pub(crate) fn descriptor(&self) -> Option<RawFd> {
        match &self.stream {
            Some(stream) => Some(stream.as_raw_fd()),
            None => None,
        }
    }
}

/// Has the system send long pieces together again, where it sends each at once.
fn together<S: OpenStream>(sends: Sends, stream: &Option<S>) -> Sends {
    if sends == Sends::Apart && sends_apart(stream, false) {
        return Sends::Sent;
    }
    sends
}

/// Has the system send what it may keep, and each later piece at once.
fn released<S: OpenStream>(sends: Sends, stream: &Option<S>) -> Sends {
    if sends == Sends::Keeps && sends_apart(stream, true) {
        return Sends::Apart;
    }
    sends
}

/// What is known of the reads of a new link: a client may have sent already, so it is asked; a server speaks second, and the wait that is told of its link
/// tells of what has come.
fn reads_first(is_client: bool) -> Ready {
    if is_client { Ready::Untold } else { Ready::No }
}

/// What is known of reads behind one that gave so many bytes of so many: where the peer has ended, none waits.
fn reads_after(ended: bool, moved: usize, asked: usize) -> Ready {
    if ended {
        return Ready::Yes;
    }
    after(moved, asked)
}

impl<S: Read + Write + OpenStream + AsRawFd + Drop> Link for ReadyLink<S> {
    ghost seen = { link_of };

    /// A reset, and every other error, is a broken stream. A read whose time is over fails.
    fn read(&mut self, into: &mut [u8]) -> Result<usize, Failed>
        requires { 0 < length into.old }
        ensures reads { Reads (link_of self.old) (link_of self.new) into.new result }
        ensures wrote { (bytes : List ℕ) → ⊥ → ⊥ }
        ensures over { self.old.reads_over ≡ true → IsErr result }
        ensures times { (self.new.reads_over ≡ self.old.reads_over) × (self.new.writes_over ≡ self.old.writes_over) }
    {
        let asked = into.len();
        match read_in_time(&mut self.stream, self.reads_over, into) {
            Ok(n) => {
                self.reads = reads_after(self.ended, n, asked);
                self.lingers = self.lingers && n > 0;
                Ok(n)
            }
            Err(_) => {
                count(&mut self.read_faults);
                Err(Failed)
            }
        }
    }

    /// A write that takes nothing fails, as does one whose time is over.
    fn write(&mut self, piece: &[u8]) -> Result<usize, Fault>
        requires { 0 < length piece.now }
        ensures writes { Writes (λ _. ⊥) (λ _. ⊥) (link_of self.old) (link_of self.new) piece.now result }
        ensures over { self.old.writes_over ≡ true → IsErr result }
        ensures times { (self.new.reads_over ≡ self.old.reads_over) × (self.new.writes_over ≡ self.old.writes_over) }
    {
        if self.follows && piece.len() >= LONG {
            self.sends = together(self.sends, &self.stream);
        }
        let taken = write_in_time(&mut self.stream, self.writes_over, piece);
        self.sends = behind(self.sends, piece.len());
        if !self.follows {
            self.sends = released(self.sends, &self.stream);
        }
        match counted(&mut self.write_faults, taken) {
            Ok(n) => {
                self.writes = after(n, piece.len());
                Ok(n)
            }
            Err(Fault::Failed) => Err(Fault::Failed),
            Err(Fault::OutOfMemory) => Err(Fault::OutOfMemory),
        }
    }

    /// The peer gets the end behind what was written, whichever way the link is closed: it can't tell a failed end from a clean one by it.
    fn close(&mut self, how: Close)
        ensures seen { link_of self.new ≡ with_close (link_of self.old) how }
        ensures wrote { (bytes : List ℕ) → ⊥ → ⊥ }
        ensures over { (self.new.reads_over ≡ true) × (self.new.writes_over ≡ true) }
    {
        let _ = how;
        self.reads_over = true;
        self.writes_over = true;
        let stream = self.stream.take();
        if self.lingers && sends_end(&stream) {
            self.closing = stream;
        }
    }
}

impl<S: Read + Write + OpenStream + AsRawFd + Drop> Waits for ReadyLink<S> {
    fn can_read(&mut self) -> bool
        ensures seen { link_of self.new ≡ link_of self.old }
        ensures wrote { (bytes : List ℕ) → ⊥ → ⊥ }
        ensures over { self.old.reads_over ≡ true → result ≡ true }
        ensures same { self.new ≡ self.old }
    {
        if self.reads == Ready::Untold {
            self.reads = ready_if(reads_now(&self.stream));
        }
        self.reads_over || self.reads == Ready::Yes
    }

    fn can_write(&mut self) -> bool
        ensures seen { link_of self.new ≡ link_of self.old }
        ensures wrote { (bytes : List ℕ) → ⊥ → ⊥ }
        ensures over { self.old.writes_over ≡ true → result ≡ true }
        ensures same { self.new ≡ self.old }
    {
        if self.writes == Ready::Untold {
            self.writes = ready_if(writes_now(&self.stream));
        }
        self.writes_over || self.writes == Ready::Yes
    }

    fn expire_read(&mut self)
        ensures seen { link_of self.new ≡ link_of self.old }
        ensures wrote { (bytes : List ℕ) → ⊥ → ⊥ }
        ensures over { self.new ≡ record self.old { reads_over = true } }
    {
        self.reads_over = true;
    }

    fn expire_write(&mut self)
        ensures seen { link_of self.new ≡ link_of self.old }
        ensures wrote { (bytes : List ℕ) → ⊥ → ⊥ }
        ensures over { self.new ≡ record self.old { writes_over = true } }
    {
        self.writes_over = true;
    }

    fn note(&mut self, told: Readiness)
        ensures seen { link_of self.new ≡ link_of self.old }
        ensures wrote { (bytes : List ℕ) → ⊥ → ⊥ }
        ensures same { self.new ≡ self.old }
    {
        if told.ended {
            self.ended = true;
        }
        if told.reads || told.ended {
            self.reads = Ready::Yes;
        }
        if told.writes {
            self.writes = Ready::Yes;
        }
    }

    /// The system keeps a part of a long piece for what follows (Nagle's way), until the last piece is written or nothing more is.
    fn cork(&mut self, writes: bool, follows: bool)
        ensures seen { link_of self.new ≡ link_of self.old }
        ensures wrote { (bytes : List ℕ) → ⊥ → ⊥ }
        ensures same { self.new ≡ self.old }
    {
        self.follows = follows;
        if !writes && !follows {
            self.sends = released(self.sends, &self.stream);
        }
    }

    fn can_keep(&mut self) -> bool
        ensures seen { link_of self.new ≡ link_of self.old }
        ensures wrote { (bytes : List ℕ) → ⊥ → ⊥ }
        ensures same { self.new ≡ self.old }
    {
        if self.closing.is_none() {
            return true;
        }
        if self.reads == Ready::No {
            // an event tells of more, and of the peer's end
            return false;
        }
        self.reads = Ready::No;
        linger_now(&mut self.closing, &mut self.thrown) == Lingering::Over
    }
}

/// The system tells both ends. No contract says which; but their numbers fit, and both are of one family.
impl<S: OpenStream> HasPair for ReadyLink<S> {
    ghost use Rattle.std.specs.Prelude.{IfSome};
    ghost use Rattle.px_proxyproto.specs.Addresses.{IsPair};

    ghost tells = { λ _ pair. IfSome pair IsPair };

    fn pair(&self) -> Option<Pair> {
        pair_of(&self.stream, &self.ends)
    }
}

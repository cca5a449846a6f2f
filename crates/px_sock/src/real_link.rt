//! A link over a stream of the system.
ghost use Rattle.std.specs.Prelude.{◌≡◌};
ghost use Rattle.px_link.specs.Link.{untold};
ghost use Rattle.px_sock.specs.Untold.{socket_of};

use crate::faults::{count, counted};
use crate::linger::linger;
use crate::pairs::{Ends, pair_of};
use crate::stream_calls::{read_open, sends_end, write_open};
use px_link::{Close, Failed, Fault, Link};
use px_peer::Pair;
use px_proxyproto::HasPair;
use std::io::{Read, Write};
use std::marker::Model;
use std::net::OpenStream;
use std::time::Clock;

/// A link over a stream. Contracts see its two counts.
pub struct RealLink<S> {
    /// None once it was closed.
    stream: Option<S>,
    /// Behind the close: its stream, where the peer has still to end.
    closing: Option<S>,
    /// The peer may still send when the link is closed, and wants what it was sent.
    lingers: bool,
    read_faults: u64,
    write_faults: u64,
}

impl<S: Drop> Drop for RealLink<S> {
    fn drop(self) {
        let RealLink {
            stream: _,
            closing: _,
            lingers: _,
            read_faults: _,
            write_faults: _,
        } = self;
    }
}

impl<S> Model for RealLink<S> {
    ghost use Rattle.px_sock.specs.Untold.{SocketLink};

    ghost Value = { SocketLink };

    ghost view = { λ l. record { read_faults = l.read_faults; write_faults = l.write_faults } };
}

impl<S: OpenStream + Drop> RealLink<S> {
    /// A link over this stream, of which each piece is sent at once. One that lingers is closed so that its peer loses nothing, where
    /// `wait_for_end` comes behind the close.
    pub fn new(stream: S, lingers: bool) -> Self
        ensures { socket_of result ≡ untold 0 0 }
    {
        let _ = stream.set_nodelay(true);
        RealLink {
            stream: Some(stream),
            closing: None,
            lingers,
            read_faults: 0,
            write_faults: 0,
        }
    }
}

impl<S: Read + OpenStream + Drop> RealLink<S> {
    /// Waits for the end of the peer of a link that was closed and lingers, for two seconds in all.
    pub(crate) fn wait_for_end<R: Clock>(&mut self, rt: &R)
        ensures { self.new ≡ self.old }
    {
        if self.closing.is_some() {
            linger(rt, &mut self.closing);
        }
    }
}

impl<S: Read + Write + OpenStream + Drop> Link for RealLink<S> {
    ghost seen = { socket_of };

    /// A reset, and every other error, is a broken stream.
    fn read(&mut self, into: &mut [u8]) -> Result<usize, Failed> {
        match read_open(&mut self.stream, into) {
            Ok(n) => {
                self.lingers = self.lingers && n > 0;
                Ok(n)
            }
            Err(_) => {
                count(&mut self.read_faults);
                Err(Failed)
            }
        }
    }

    /// A write that takes nothing fails.
    fn write(&mut self, piece: &[u8]) -> Result<usize, Fault> {
        let taken = write_open(&mut self.stream, piece);
        match counted(&mut self.write_faults, taken) {
            Ok(n) => Ok(n),
            Err(Fault::Failed) => Err(Fault::Failed),
            Err(Fault::OutOfMemory) => Err(Fault::OutOfMemory),
        }
    }

    /// The peer gets the end behind what was written, whichever way the link is closed: it can't tell a failed end from a clean one by it.
    fn close(&mut self, _: Close) {
        let stream = self.stream.take();
        if self.lingers && sends_end(&stream) {
            self.closing = stream;
        }
    }
}

/// The system tells both ends. No contract says which; but their numbers fit, and both are of one family.
impl<S: OpenStream> HasPair for RealLink<S> {
    ghost use Rattle.std.specs.Prelude.{IfSome};
    ghost use Rattle.px_proxyproto.specs.Addresses.{IsPair};

    ghost tells = { λ _ pair. IfSome pair IsPair };

    fn pair(&self) -> Option<Pair> {
        pair_of(&self.stream, &Ends::unknown())
    }
}

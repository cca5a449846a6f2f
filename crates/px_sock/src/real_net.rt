//! A net over the sockets of the system.
ghost use Rattle.std.specs.Prelude.{◌≡◌, ◌<◌, []};
ghost use Rattle.px_sock.specs.Untold.{net_of, untold_net};

use crate::addresses::Addresses;
use crate::faults::{count, counted};
use crate::numeric::{Numeric, place_of};
use crate::real_link::RealLink;
use crate::telling::{Call, Telling, told};
use px_link::{Address, Fault, Net};
use std::alloc::Global;
use std::io::{Eprint, ErrorKind};
use std::marker::Model;
use std::net::{OpenListener, SocketAddr, TcpListener, TcpStream};
use std::time::Clock;
use std::{io, net};

/// A net over sockets. It listens at the address of the last bind that was answered Ok. Contracts see the addresses of its binds and
/// connects, how many links are lent, and its two counts.
pub struct RealNet<'a, R: net::Net> {
    rt: &'a R,
    alloc: Global,
    listener: Option<R::Listener>,
    bound: Addresses,
    dialled: Addresses,
    /// The last address of numbers that was dialled. Only speed rests on it.
    numeric: Option<Numeric>,
    telling: Telling,
    lent: u64,
    bind_faults: u64,
    connect_faults: u64,
}

impl<R: net::Net> Drop for RealNet<'_, R> {
    fn drop(self) {
        let RealNet {
            rt: _,
            alloc: _,
            listener: _,
            bound: _,
            dialled: _,
            numeric: _,
            telling: _,
            lent: _,
            bind_faults: _,
            connect_faults: _,
        } = self;
    }
}

impl<'a, R: net::Net> Model for RealNet<'a, R> {
    ghost use Rattle.px_sock.specs.Untold.{SocketNet};

    ghost Value = { SocketNet };

    ghost view = { λ n. record {
      bound = n.bound;
      dialled = n.dialled;
      lent = n.lent;
      bind_faults = n.bind_faults;
      connect_faults = n.connect_faults;
    } };
}

impl<'a, R: net::Net> RealNet<'a, R> {
    /// A net on which no call was made yet.
    fn start(alloc: Global, rt: &'a R, telling: Telling) -> Self
        ensures { net_of result ≡ untold_net [] [] 0 0 0 }
    {
        RealNet {
            rt,
            alloc,
            listener: None,
            bound: Addresses::new(alloc),
            dialled: Addresses::new(alloc),
            numeric: None,
            telling,
            lent: 0,
            bind_faults: 0,
            connect_faults: 0,
        }
    }

    /// A net on which no call was made yet. It tells no failure.
    pub fn new(alloc: Global, rt: &'a R) -> Self
        ensures { net_of result ≡ untold_net [] [] 0 0 0 }
    {
        RealNet::start(alloc, rt, Telling::Nothing)
    }

    /// A net on which no call was made yet. It tells each call that fails on standard error, with its address and the reason.
    pub fn telling(alloc: Global, rt: &'a R) -> Self
        ensures { net_of result ≡ untold_net [] [] 0 0 0 }
    {
        RealNet::start(alloc, rt, Telling::Failures)
    }
}

/// The host of an address, which is text.
fn host_of(address: &Address) -> io::Result<&str> {
    match str::from_utf8(address.host.as_slice()) {
        Ok(host) => Ok(host),
        Err(_) => Err(io::Error::from(ErrorKind::InvalidInput)),
    }
}

/// A listener at this address. No host, and `*`, are every local address of IPv4 (Configuration Manual, `bind`).
fn listen<R: net::Net>(rt: &R, at: &Address) -> io::Result<R::Listener> {
    let host = match host_of(at)? {
        "" => "0.0.0.0",
        "*" => "0.0.0.0",
        host => host,
    };
    TcpListener::bind(rt, (host, at.port))
}

/// A stream to this address: to its numbers, or to each address of its name in turn.
fn dial<R: net::Net>(rt: &R, numbers: Option<SocketAddr>, to: &Address) -> io::Result<R::Stream> {
    match numbers {
        Some(at) => rt.connect(at),
        None => TcpStream::connect(rt, (host_of(to)?, to.port)),
    }
}

/// The next stream that comes in. A peer that was gone before it was accepted is none.
fn next_stream<L: OpenListener>(listener: &L) -> io::Result<L::Stream> {
    for _ in 0..u64::MAX {
        match listener.accept() {
            Ok((stream, _)) => return Ok(stream),
            Err(error) => {
                if error.kind() != ErrorKind::ConnectionAborted {
                    return Err(error);
                }
            }
        }
    }
    Err(io::Error::from(ErrorKind::ConnectionAborted))
}

/// The next stream that comes in to a listener.
fn accept_from<L: OpenListener>(listener: &Option<L>) -> io::Result<L::Stream> {
    match listener {
        Some(listener) => next_stream(listener),
        None => Err(io::Error::from(ErrorKind::NotConnected)),
    }
}

impl<'a, R: net::Net + Clock + Eprint> Net for RealNet<'a, R> {
    type Link = RealLink<R::Stream>;

    ghost seen = { net_of };

    fn bind(&mut self, at: &Address) -> Result<(), Fault> {
        self.bound.push(at)?;
        let answer = told(self.rt, self.telling, Call::Bind(at), listen(self.rt, at));
        match counted(&mut self.bind_faults, answer) {
            Ok(listener) => {
                self.listener = Some(listener);
                Ok(())
            }
            Err(Fault::Failed) => Err(Fault::Failed),
            Err(Fault::OutOfMemory) => Err(Fault::OutOfMemory),
        }
    }

    /// An accept before a bind that was answered Ok fails.
    fn accept(&mut self) -> Result<RealLink<R::Stream>, Fault> {
        if self.lent == u64::MAX {
            count(&mut self.bind_faults);
            return Err(Fault::Failed);
        }
        let answer = told(
            self.rt,
            self.telling,
            Call::Accept,
            accept_from(&self.listener),
        );
        match counted(&mut self.bind_faults, answer) {
            Ok(stream) => {
                self.lent += 1;
                Ok(RealLink::new(stream, true))
            }
            Err(Fault::Failed) => Err(Fault::Failed),
            Err(Fault::OutOfMemory) => Err(Fault::OutOfMemory),
        }
    }

    fn connect(&mut self, to: &Address) -> Result<RealLink<R::Stream>, Fault> {
        self.dialled.note(to)?;
        if self.lent == u64::MAX {
            count(&mut self.connect_faults);
            return Err(Fault::Failed);
        }
        let numbers = place_of(&mut self.numeric, self.alloc, to);
        let dialled = dial(self.rt, numbers, to);
        let answer = told(self.rt, self.telling, Call::Connect(to), dialled);
        match counted(&mut self.connect_faults, answer) {
            Ok(stream) => {
                self.lent += 1;
                Ok(RealLink::new(stream, false))
            }
            Err(Fault::Failed) => Err(Fault::Failed),
            Err(Fault::OutOfMemory) => Err(Fault::OutOfMemory),
        }
    }

    /// A link whose peer may still send lets it end first.
    fn keep(&mut self, mut link: RealLink<R::Stream>) {
        self.lent -= 1;
        link.wait_for_end(self.rt);
        drop(link);
    }

    fn tells_kept(&self) -> bool {
        false
    }
}

//! A net over sockets that don't block.
ghost use Rattle.std.specs.Prelude.{◌≡◌, ◌<◌, []};
ghost use Rattle.px_sock.specs.Untold.{net_of, untold_net};

use crate::addresses::Addresses;
use crate::dialling::Dialling;
use crate::faults::{count, counted};
use crate::numeric::{Numeric, place_of};
use crate::pairs::Ends;
use crate::ready_link::ReadyLink;
use crate::telling::{Call, Telling, told};
use mio::net::TcpListener;
use px_link::{Address, Fault, Net, WaitsNet};
use std::alloc::Global;
use std::io::{Eprint, ErrorKind};
use std::marker::Model;
use std::net::{IpAddr, SocketAddr, TcpStream};
use std::os::fd::{AsFd, AsRawFd, OwnedFd, RawFd};
use std::{io, net};

/// A stream that came in, and from where.
#[derive(Drop)]
struct Came {
    stream: TcpStream,
    from: SocketAddr,
}

/// A net over sockets that don't block. It listens at the address of the last bind that was answered Ok. Contracts see the addresses of its binds
/// and connects, how many links are lent, and its two counts.
pub struct ReadyNet<'a, R: net::Net> {
    rt: &'a R,
    alloc: Global,
    listener: Option<TcpListener>,
    /// A listener of another process, which the next bind takes.
    handed: Option<TcpListener>,
    /// Where it listens, unless that is every local address: the local end of each link that is accepted there.
    local: Option<SocketAddr>,
    /// What the system answered to an accept that is still to be made.
    came: Option<io::Result<Came>>,
    /// A connect that is still to be made.
    dialling: Dialling,
    bound: Addresses,
    dialled: Addresses,
    /// The last address of numbers that was dialled. Only speed rests on it.
    numeric: Option<Numeric>,
    telling: Telling,
    lent: u64,
    bind_faults: u64,
    connect_faults: u64,
}

impl<R: net::Net> Drop for ReadyNet<'_, R> {
    fn drop(self) {
        let ReadyNet {
            rt: _,
            alloc: _,
            listener: _,
            handed: _,
            local: _,
            came: _,
            dialling: _,
            bound: _,
            dialled: _,
            numeric: _,
            telling: _,
            lent: _,
            bind_faults: _,
            connect_faults: _,
        } = self;
    }
}

impl<'a, R: net::Net> Model for ReadyNet<'a, R> {
    ghost use Rattle.px_sock.specs.Untold.{SocketNet};

    ghost Value = { SocketNet };

    ghost view = { λ n. record {
      bound = n.bound;
      dialled = n.dialled;
      lent = n.lent;
      bind_faults = n.bind_faults;
      connect_faults = n.connect_faults;
    } };
}

impl<'a, R: net::Net> ReadyNet<'a, R> {
    /// A net on which no call was made yet.
    fn start(alloc: Global, rt: &'a R, telling: Telling, handed: Option<TcpListener>) -> Self
        ensures { net_of result ≡ untold_net [] [] 0 0 0 }
    {
        ReadyNet {
            rt,
            alloc,
            listener: None,
            handed,
            local: None,
            came: None,
            dialling: Dialling::Nothing,
            bound: Addresses::new(alloc),
            dialled: Addresses::new(alloc),
            numeric: None,
            telling,
            lent: 0,
            bind_faults: 0,
            connect_faults: 0,
        }
    }

    /// A net on which no call was made yet. It tells no failure.
    pub fn new(alloc: Global, rt: &'a R) -> Self
        ensures { net_of result ≡ untold_net [] [] 0 0 0 }
    {
        ReadyNet::start(alloc, rt, Telling::Nothing, None)
    }

    /// A net on which no call was made yet. It tells each bind and each connect that fails on standard error, with its address and the reason.
    pub fn telling(alloc: Global, rt: &'a R) -> Self
        ensures { net_of result ≡ untold_net [] [] 0 0 0 }
    {
        ReadyNet::start(alloc, rt, Telling::Failures, None)
    }

    /// The same, but its first bind takes this listener, which another process bound.
    pub fn handed(alloc: Global, rt: &'a R, listener: OwnedFd) -> Self
        ensures { net_of result ≡ untold_net [] [] 0 0 0 }
    {
        let handed = Some(TcpListener::from(listener));
        ReadyNet::start(alloc, rt, Telling::Failures, handed)
    }

    /// Its listener, to be handed to another process.
    pub fn share(&self) -> io::Result<OwnedFd> {
        match &self.listener {
            Some(listener) => listener.as_fd().try_clone_to_owned(),
            None => Err(io::Error::from(ErrorKind::NotConnected)),
        }
    }

    /// The number of its listener, by which a wait is told of it.
    pub(crate) fn listener(&self) -> Option<RawFd> {
        match &self.listener {
            Some(listener) => Some(listener.as_raw_fd()),
            None => None,
        }
    }

    /// The number of the connect that was begun.
    pub(crate) fn connecting(&self) -> Option<RawFd> {
        self.dialling.descriptor()
    }

    /// Gives up the connect that was begun.
    pub(crate) fn give_up_connect(&mut self)
        ensures { self.new ≡ self.old }
    {
        self.dialling.fail();
    }
}

/// The host of an address, which is text.
fn host_of(address: &Address) -> io::Result<&str> {
    match str::from_utf8(address.host.as_slice()) {
        Ok(host) => Ok(host),
        Err(_) => Err(io::Error::from(ErrorKind::InvalidInput)),
    }
}

/// The address to listen at. No host, and `*`, are every local address of IPv4 (Configuration Manual, `bind`).
fn local(at: &Address) -> io::Result<SocketAddr> {
    let host = match host_of(at)? {
        "" => "0.0.0.0",
        "*" => "0.0.0.0",
        host => host,
    };
    match host.parse::<IpAddr>() {
        Ok(ip) => Ok(SocketAddr::new(ip, at.port)),
        Err(_) => Err(io::Error::from(ErrorKind::InvalidInput)),
    }
}

/// The listener that was handed over, which has to be a socket; else one at this address.
fn listen<R: net::Net>(
    rt: &R,
    handed: &mut Option<TcpListener>,
    at: &Address,
) -> io::Result<TcpListener> {
    match handed.take() {
        Some(listener) => {
            listener.local_addr()?;
            Ok(listener)
        }
        None => TcpListener::bind(rt, local(at)?),
    }
}

/// The address at which a listener listens, unless it is every local one of its family.
fn own_address(listener: &TcpListener) -> Option<SocketAddr> {
    match listener.local_addr() {
        Ok(address) if !address.ip().is_unspecified() => Some(address),
        _ => None,
    }
}

/// The next stream that comes in. A peer that was gone before it was accepted is none.
fn next_stream(listener: &TcpListener) -> io::Result<Came> {
    for _ in 0..u64::MAX {
        match listener.accept() {
            Ok((stream, from)) => {
                return Ok(Came {
                    stream: TcpStream::from(stream),
                    from,
                });
            }
            Err(error) => {
                if error.kind() != ErrorKind::ConnectionAborted {
                    return Err(error);
                }
            }
        }
    }
    Err(io::Error::from(ErrorKind::ConnectionAborted))
}

/// The next stream that comes in to a listener.
fn accept_from(listener: &Option<TcpListener>) -> io::Result<Came> {
    match listener {
        Some(listener) => next_stream(listener),
        None => Err(io::Error::from(ErrorKind::NotConnected)),
    }
}

/// What the system answers to an accept, where it doesn't say that none waits.
fn answer_of(listener: &Option<TcpListener>) -> Option<io::Result<Came>> {
    match accept_from(listener) {
        Ok(came) => Some(Ok(came)),
        Err(error) if error.kind() == ErrorKind::WouldBlock => None,
        Err(error) => Some(Err(error)),
    }
}

/// What the system answered before, or answers now.
fn next_answer(
    came: &mut Option<io::Result<Came>>,
    listener: &Option<TcpListener>,
) -> io::Result<Came> {
    match came.take() {
        Some(answer) => answer,
        None => accept_from(listener),
    }
}

impl<'a, R: net::Net + Eprint> Net for ReadyNet<'a, R> {
    type Link = ReadyLink<TcpStream>;

    ghost seen = { net_of };

    fn bind(&mut self, at: &Address) -> Result<(), Fault> {
        self.bound.push(at)?;
        let listened = listen(self.rt, &mut self.handed, at);
        let answer = told(self.rt, self.telling, Call::Bind(at), listened);
        match counted(&mut self.bind_faults, answer) {
            Ok(listener) => {
                self.local = own_address(&listener);
                self.listener = Some(listener);
                Ok(())
            }
            Err(Fault::Failed) => Err(Fault::Failed),
            Err(Fault::OutOfMemory) => Err(Fault::OutOfMemory),
        }
    }

    /// An accept before a bind that was answered Ok fails, as does one for which nothing waits.
    fn accept(&mut self) -> Result<ReadyLink<TcpStream>, Fault> {
        if self.lent == u64::MAX {
            count(&mut self.bind_faults);
            return Err(Fault::Failed);
        }
        let answer = next_answer(&mut self.came, &self.listener);
        match counted(&mut self.bind_faults, answer) {
            Ok(came) => {
                self.lent += 1;
                let ends = Ends {
                    other: Some(came.from),
                    local: self.local,
                };
                Ok(ReadyLink::new(came.stream, true, ends))
            }
            Err(Fault::Failed) => Err(Fault::Failed),
            Err(Fault::OutOfMemory) => Err(Fault::OutOfMemory),
        }
    }

    /// What came of the connect that was begun; one that is not over is given up.
    fn connect(&mut self, to: &Address) -> Result<ReadyLink<TcpStream>, Fault> {
        self.dialled.note(to)?;
        if self.lent == u64::MAX {
            count(&mut self.connect_faults);
            return Err(Fault::Failed);
        }
        let dialled = self.dialling.take();
        let answer = told(self.rt, self.telling, Call::Connect(to), dialled);
        match counted(&mut self.connect_faults, answer) {
            Ok(stream) => {
                self.lent += 1;
                Ok(ReadyLink::new(stream, false, Ends::unknown()))
            }
            Err(Fault::Failed) => Err(Fault::Failed),
            Err(Fault::OutOfMemory) => Err(Fault::OutOfMemory),
        }
    }

    fn keep(&mut self, link: ReadyLink<TcpStream>) {
        self.lent -= 1;
        drop(link);
    }

    fn tells_kept(&self) -> bool {
        false
    }
}

impl<'a, R: net::Net + Eprint> WaitsNet for ReadyNet<'a, R> {
    fn can_accept(&mut self) -> bool {
        if self.came.is_none() {
            self.came = answer_of(&self.listener);
        }
        self.came.is_some()
    }

    fn can_connect(&mut self, to: &Address) -> bool {
        if self.dialling.is_idle() {
            let numbers = place_of(&mut self.numeric, self.alloc, to);
            self.dialling = Dialling::begin(self.rt, numbers);
        }
        self.dialling.settles()
    }
}

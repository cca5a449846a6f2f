//! Both ends of a stream of the system.
ghost use Rattle.std.specs.Prelude.{◌≡◌, IfSome};
ghost use Rattle.px_proxyproto.specs.Addresses.{IsPair, IsPeer};

use px_peer::{Pair, Peer};
use std::io;
use std::net::{OpenStream, SocketAddr};

/// The bits in front of an address of IPv4 that is written as one of IPv6 (RFC 4291 section 2.5.5.2).
const MAPPED: u128 = 0xffff;

/// An end of IPv6; an address of IPv4 that is written as one is told as that.
fn end_6(addr: u128, port: u16) -> Peer
    ensures { IsPeer result }
{
    if addr >> 32 == MAPPED {
        return Peer {
            v6: false,
            addr: addr & 0xffff_ffff,
            port,
        };
    }
    Peer {
        v6: true,
        addr,
        port,
    }
}

/// An end as the system tells it.
fn end_of(address: SocketAddr) -> Peer
    ensures { IsPeer result }
{
    match address {
        SocketAddr::V4(end) => Peer {
            v6: false,
            addr: u128::from(end.ip().to_bits()),
            port: end.port(),
        },
        SocketAddr::V6(end) => end_6(end.ip().to_bits(), end.port()),
    }
}

/// The local end of a stream whose other end is of this family. Where the system tells none of it, that is no reason not to tell who asks: it is the
/// unspecified address of the family then, with port 0.
fn local_end(local: io::Result<SocketAddr>, v6: bool) -> Peer
    ensures family { result.v6 ≡ v6 }
    ensures is { IsPeer result }
{
    if let Ok(address) = local {
        let end = end_of(address);
        if end.v6 == v6 {
            return end;
        }
    }
    Peer {
        v6,
        addr: 0,
        port: 0,
    }
}

/// What is known of both ends of a stream without a question to the system.
#[derive(Clone, Copy)]
pub struct Ends {
    pub other: Option<SocketAddr>,
    pub local: Option<SocketAddr>,
}

impl Ends {
    /// Nothing is.
    pub fn unknown() -> Ends {
        Ends {
            other: None,
            local: None,
        }
    }
}

/// The other end of a stream: as it is known, or as the system tells it.
fn other_of<S: OpenStream>(stream: &S, ends: &Ends) -> io::Result<SocketAddr> {
    match ends.other {
        Some(address) => Ok(address),
        None => stream.peer_addr(),
    }
}

/// The local end of a stream: as it is known, or as the system tells it.
fn local_of<S: OpenStream>(stream: &S, ends: &Ends) -> io::Result<SocketAddr> {
    match ends.local {
        Some(address) => Ok(address),
        None => stream.local_addr(),
    }
}

/// The two ends of a stream that is open: the other end asks, and the local one is where it asks. There is none where the other end isn't known and the system doesn't tell it.
pub fn pair_of<S: OpenStream>(stream: &Option<S>, ends: &Ends) -> Option<Pair>
    ensures { IfSome result IsPair }
{
    let Some(stream) = stream else {
        return None;
    };
    let Ok(address) = other_of(stream, ends) else {
        return None;
    };
    let src = end_of(address);
    let dst = local_end(local_of(stream, ends), src.v6);
    Some(Pair { src, dst })
}
